//! Trees of what was read.

ghost use Rattle.std.specs.Prelude.{[], ◌∷◌, ◌++◌};
ghost use Rattle.c_grammar.specs.declared.statement.Stmt.TheVariants as s;
ghost use Rattle.c_grammar.specs.declared.statement.BlockPart.TheVariants as b;
ghost use Rattle.c_words.specs.Parsing.{Reads, pure};

use crate::head::{Control, Head};
use c_grammar::statement::{BlockPart, Local, Stmt};
use c_type_names::held::{boxed, pushed};
use c_words::fault::ParseFault;
use c_words::word::Leaf;
use sqlite_items::{Boxed, Items};
use std::alloc::Global;

#[inline(never)]
pub fn if_of(
    alloc: Global,
    front: Boxed<Head>,
    body: Boxed<Stmt>,
) -> Result<Boxed<Stmt>, ParseFault>
    ensures { (rest : _) → Reads (pure (s.If front.first front.opening front.test front.closing body) rest) result rest }
{
    let Head {
        first,
        opening,
        test,
        closing,
    } = front.into_inner();
    boxed(alloc, Stmt::If(first, opening, test, closing, body))
}

#[inline(never)]
pub fn if_else_of(
    alloc: Global,
    front: Boxed<Head>,
    body: Boxed<Stmt>,
    other: Leaf,
    rest: Boxed<Stmt>,
) -> Result<Boxed<Stmt>, ParseFault>
    ensures { (after : _) → Reads (pure (s.IfElse front.first front.opening front.test front.closing body other rest) after) result after }
{
    let Head {
        first,
        opening,
        test,
        closing,
    } = front.into_inner();
    boxed(
        alloc,
        Stmt::IfElse(first, opening, test, closing, body, other, rest),
    )
}

#[inline(never)]
pub fn while_of(
    alloc: Global,
    front: Boxed<Head>,
    body: Boxed<Stmt>,
) -> Result<Boxed<Stmt>, ParseFault>
    ensures { (rest : _) → Reads (pure (s.While front.first front.opening front.test front.closing body) rest) result rest }
{
    let Head {
        first,
        opening,
        test,
        closing,
    } = front.into_inner();
    boxed(alloc, Stmt::While(first, opening, test, closing, body))
}

#[inline(never)]
pub fn do_of(
    alloc: Global,
    first: Leaf,
    body: Boxed<Stmt>,
    test: Boxed<Head>,
    semicolon: Leaf,
) -> Result<Boxed<Stmt>, ParseFault>
    ensures { (rest : _) → Reads (pure (s.Do first body test.first test.opening test.test test.closing semicolon) rest) result rest }
{
    let Head {
        first: word,
        opening,
        test,
        closing,
    } = test.into_inner();
    boxed(
        alloc,
        Stmt::Do(first, body, word, opening, test, closing, semicolon),
    )
}

#[inline(never)]
pub fn for_of(
    alloc: Global,
    control: Boxed<Control>,
    body: Boxed<Stmt>,
) -> Result<Boxed<Stmt>, ParseFault>
    ensures { (rest : _) → Reads (pure (s.For control.first control.opening control.start control.test control.semicolon control.step control.closing body) rest) result rest }
{
    let Control {
        first,
        opening,
        start,
        test,
        semicolon,
        step,
        closing,
    } = control.into_inner();
    boxed(
        alloc,
        Stmt::For(first, opening, start, test, semicolon, step, closing, body),
    )
}

#[inline(never)]
pub fn push_stmt(held: Items<BlockPart>, stmt: Boxed<Stmt>) -> Result<Items<BlockPart>, ParseFault>
    ensures { (rest : _) → Reads (pure (held ++ b.Stmt stmt ∷ []) rest) result rest }
{
    pushed(held, BlockPart::Stmt(stmt.into_inner()))
}

#[inline(never)]
pub fn push_local(held: Items<BlockPart>, found: Local) -> Result<Items<BlockPart>, ParseFault>
    ensures { (rest : _) → Reads (pure (held ++ b.Local found ∷ []) rest) result rest }
{
    pushed(held, BlockPart::Local(found))
}
