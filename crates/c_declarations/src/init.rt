//! Initialisers.

ghost use Rattle.std.specs.Prelude.{◌≡◌};
ghost use Rattle.c_words.specs.Follows.{Nests};
ghost use Rattle.c_words.specs.Parsing.{Reads};
ghost use Rattle.c_type_names.specs.Held.{ReadsAfter};
ghost use Rattle.c_declarations.specs.DeclaredReading as spec;

use c_expressions::expression::whole_expression;
use c_grammar::declaration::Init;
use c_type_names::chain::{Operand, chain};
use c_type_names::held::{then_expect, then_optional};
use c_words::chain::Chain;
use c_words::cursor::{Cursor, same};
use c_words::fault::ParseFault;
use c_words::operators::Operators;
use c_words::word::Word;
use sqlite_items::Boxed;
use std::alloc::Global;

/// Reads elements, which nest below `inside`, by `element`.
#[derive(Clone, Copy)]
pub struct ElementReader<I> {
    alloc: Global,
    inside: usize,
    element: I,
}

impl<I: Fn(Global, &mut Cursor<'_>, usize) -> Result<Init, ParseFault>> Operand<Init>
    for ElementReader<I> {
    ghost can_read = { λ r. Nests (spec.init_at r.inside) r.inside (I.pre r.element) (I.post r.element) };

    ghost parser = { λ r. spec.init_at r.inside };

    fn operand(&self, tokens: &mut Cursor<'_>) -> Result<Init, ParseFault> {
        (self.element)(self.alloc, tokens, self.inside)
    }
}

impl<I: Fn(Global, &mut Cursor<'_>, usize) -> Result<Init, ParseFault>> ElementReader<I> {
    /// The elements between braces.
    #[tactic(auto, unfolding(crate::specs::DeclaredReading::elements))]
    fn elements(&self, tokens: &mut Cursor<'_>) -> Result<Boxed<Chain<Init>>, ParseFault>
        requires { Nests (spec.init_at self.now.inside) self.now.inside (I.pre self.now.element) (I.post self.now.element) }
        ensures { Reads (spec.elements (spec.init_at self.now.inside) tokens.old) result tokens.new }
    {
        let found = chain(self.alloc, tokens, Operators::Elements, self)?;
        Ok(Boxed::new(self.alloc, found)?)
    }

    /// Braces and the elements in them.
    #[tactic(auto, unfolding(crate::specs::DeclaredReading::braces))]
    fn braces(&self, tokens: &mut Cursor<'_>) -> Result<Init, ParseFault>
        requires { Nests (spec.init_at self.now.inside) self.now.inside (I.pre self.now.element) (I.post self.now.element) }
        ensures { Reads (spec.braces (spec.init_at self.now.inside) tokens.old) result tokens.new }
    {
        let open = tokens.expect(Word::LeftBrace)?;
        let found = self.elements(tokens)?;
        let (found, last) = then_optional(found, tokens, Word::Comma)?;
        let (held, close) = then_expect((found, last), tokens, Word::RightBrace)?;
        let (found, last) = held;
        Ok(Init::Braces(open, found, last, close))
    }
}

/// An initialiser that nests below `depth`.
#[tactic(auto, unfolding(crate::specs::DeclaredReading::init_at))]
pub fn init(alloc: Global, tokens: &mut Cursor<'_>, depth: usize) -> Result<Init, ParseFault>
    ensures { Reads (spec.init_at depth tokens.old) result tokens.new }
{
    if depth == 0 {
        return Err(tokens.refuse());
    }
    if !same(Word::LeftBrace, tokens.peek()) {
        return Ok(Init::Value(whole_expression(alloc, tokens, depth)?));
    }
    if depth == 1 {
        return Err(tokens.refuse());
    }
    ElementReader {
        alloc,
        inside: depth - 1,
        element: init,
    }
    .braces(tokens)
}

/// The same, where `held` was read before.
pub fn then_init<T: Drop>(
    held: T,
    alloc: Global,
    tokens: &mut Cursor<'_>,
    depth: usize,
) -> Result<(T, Init), ParseFault>
    ensures { ReadsAfter held (spec.init_at depth tokens.old) result tokens.new }
{
    let found = init(alloc, tokens, depth)?;
    Ok((held, found))
}
