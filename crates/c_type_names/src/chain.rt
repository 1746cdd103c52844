//! Parts one after another, and operands with operators between them.

ghost use Rattle.std.specs.Prelude.{◌≡◌, Bool, [], length};
ghost use Rattle.std.specs.Result.{result_map_both};
ghost use Rattle.c_words.specs.declared.word.Word.{Word as WordValue};
ghost use Rattle.c_words.specs.Operators.{has, continues};
ghost use Rattle.c_words.specs.Parsing.{Parser, Reads, and_then, pure, links_from, chain_by, run_at};

use c_words::chain::{Chain, Link, push};
use c_words::cursor::Cursor;
use c_words::fault::ParseFault;
use c_words::operators::Operators;
use c_words::word::Word;
use sqlite_items::Items;
use std::alloc::Global;

/// What reads an operand of a chain. It is used only where `can_read` holds of it.
pub trait Operand<T> {
    ghost can_read: { Self → Type 0 };

    ghost parser: { Self → Parser T };

    fn operand(&self, tokens: &mut Cursor<'_>) -> Result<T, ParseFault>
        requires { can_read self.now }
        ensures { Reads (parser self.now tokens.old) result tokens.new };
}

/// What reads a part of a run, and tells by the next word whether one begins. It is used only where `can_read` holds of it.
pub trait Part<T> {
    ghost can_read: { Self → Type 0 };

    ghost begins: { Self → WordValue → Bool };

    ghost parser: { Self → Parser T };

    fn begins(&self, word: Word) -> bool
        ensures { result ≡ begins self.now word };

    fn part(&self, tokens: &mut Cursor<'_>) -> Result<T, ParseFault>
        requires { can_read self.now }
        ensures { Reads (parser self.now tokens.old) result tokens.new };
}

/// Operators, each with the operand after it.
#[inline(never)]
pub fn links<T: Drop, P: Operand<T>>(
    alloc: Global,
    tokens: &mut Cursor<'_>,
    operators: Operators,
    operand: &P,
) -> Result<Vec<Link<T>>, ParseFault>
    requires { P.can_read operand.now }
    ensures { Reads (links_from (continues operators) (has operators) (P.parser operand.now) (length tokens.old) [] tokens.old) (result_map_both (λ v. v.items) (λ e. e) result) tokens.new }
{
    let mut found = Vec::new(alloc);
    for _turn in 0..tokens.left() {
        if !tokens.continues(operators) {
            return Ok(found);
        }
        let operator = tokens.operator(operators)?;
        let operand = operand.operand(tokens)?;
        push(&mut found, Link { operator, operand })?;
    }
    Ok(found)
}

/// The chain of a first operand and of what follows it.
#[inline(never)]
fn linked<T: Drop, P: Operand<T>>(
    alloc: Global,
    tokens: &mut Cursor<'_>,
    operators: Operators,
    operand: &P,
    first: T,
) -> Result<Chain<T>, ParseFault>
    requires { P.can_read operand.now }
    ensures { Reads (and_then (links_from (continues operators) (has operators) (P.parser operand.now) (length tokens.old) [] tokens.old) (λ rest. pure (record { first = first; rest = rest }))) result tokens.new }
{
    let rest = Items::from_vec(links(alloc, tokens, operators, operand)?);
    Ok(Chain { first, rest })
}

/// A first operand, and more of them after operators.
#[tactic(auto, unfolding(c_words::specs::Parsing::chain_by))]
pub fn chain<T: Drop, P: Operand<T>>(
    alloc: Global,
    tokens: &mut Cursor<'_>,
    operators: Operators,
    operand: &P,
) -> Result<Chain<T>, ParseFault>
    requires { P.can_read operand.now }
    ensures { Reads (chain_by (continues operators) (has operators) (P.parser operand.now) tokens.old) result tokens.new }
{
    let first = operand.operand(tokens)?;
    linked(alloc, tokens, operators, operand, first)
}

/// Parts one after another, as long as the next word can begin one.
pub fn run<T: Drop, P: Part<T>>(
    alloc: Global,
    tokens: &mut Cursor<'_>,
    part: &P,
) -> Result<Items<T>, ParseFault>
    requires { P.can_read part.now }
    ensures { Reads (run_at (P.begins part.now) (P.parser part.now) tokens.old) result tokens.new }
{
    let mut found = Items::new(alloc);
    for _turn in 0..tokens.left() {
        if !part.begins(tokens.peek()) {
            return Ok(found);
        }
        let next = part.part(tokens)?;
        found.push(next)?;
    }
    Ok(found)
}
