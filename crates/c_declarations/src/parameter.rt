//! Parameters.

ghost use Rattle.std.specs.Prelude.{◌≡◌, [], None};
ghost use Rattle.c_grammar.specs.Declarations as grammar;
ghost use Rattle.c_words.specs.Parsing.{Reads, chain_at};
ghost use Rattle.c_words.specs.OperatorWords.{is_comma};
ghost use Rattle.c_declarations.specs.DeclaratorReading.{begins_direct as begins_direct_word};
ghost use Rattle.c_type_names.specs.Held.{ReadsAfter};
ghost use Rattle.c_declarations.specs.ParameterReading as spec;

use crate::declarator::then_declarator;
use crate::sizes::then_sizes;
use c_grammar::declaration::{Parameter, Params, Sizes};
use c_grammar::types::{Base, Specifier, Star};
use c_type_names::chain::{Operand, chain};
use c_type_names::held::{instead, then_base, then_stars};
use c_type_names::types::consts;
use c_words::chain::Chain;
use c_words::cursor::{Cursor, same};
use c_words::fault::ParseFault;
use c_words::operators::Operators;
use c_words::word::{Leaf, Word};
use sqlite_items::Items;
use std::alloc::Global;

fn begins_direct(word: Word) -> bool
    ensures { result ≡ begins_direct_word word }
{
    same(Word::Name, word) || same(Word::LeftParen, word)
}

/// A parameter with a name.

fn with_name(
    alloc: Global,
    tokens: &mut Cursor<'_>,
    depth: usize,
    consts: Items<Leaf>,
    base: Base,
    stars: Items<Star>,
) -> Result<Parameter, ParseFault>
    ensures { Reads (spec.with_name depth consts base stars tokens.old) result tokens.new }
{
    let inside = depth.saturating_sub(stars.len());
    let (held, found) = then_declarator((consts, base), alloc, tokens, true, inside, stars)?;
    let (consts, base) = held;
    Ok(Parameter::Named(consts, base, found))
}

/// A parameter without name, with sizes.

fn with_sizes(
    alloc: Global,
    tokens: &mut Cursor<'_>,
    depth: usize,
    consts: Items<Leaf>,
    base: Base,
    stars: Items<Star>,
) -> Result<Parameter, ParseFault>
    ensures { Reads (spec.with_sizes depth consts base stars tokens.old) result tokens.new }
{
    let inside = depth.saturating_sub(stars.len());
    let (held, found) = then_sizes((consts, base, stars), alloc, tokens, inside)?;
    let (consts, base, stars) = held;
    Ok(Parameter::Nameless(consts, base, stars, Some(found)))
}

/// What stands after the stars: a declarator, sizes or nothing.
#[tactic(auto, unfolding(crate::specs::ParameterReading::after_stars))]
fn after_stars(
    alloc: Global,
    tokens: &mut Cursor<'_>,
    depth: usize,
    consts: Items<Leaf>,
    base: Base,
    stars: Items<Star>,
) -> Result<Parameter, ParseFault>
    ensures { Reads (spec.after_stars depth consts base stars tokens.old) result tokens.new }
{
    if begins_direct(tokens.peek()) {
        with_name(alloc, tokens, depth, consts, base, stars)
    } else if same(Word::LeftBracket, tokens.peek()) {
        with_sizes(alloc, tokens, depth, consts, base, stars)
    } else {
        Ok(Parameter::Nameless(consts, base, stars, None))
    }
}

fn some_parameter(
    alloc: Global,
    tokens: &mut Cursor<'_>,
    depth: usize,
) -> Result<Parameter, ParseFault>
    ensures { Reads (spec.some_parameter depth tokens.old) result tokens.new }
{
    let consts = consts(alloc, tokens)?;
    let (consts, base) = then_base(consts, alloc, tokens)?;
    let (held, stars) = then_stars((consts, base), alloc, tokens, depth)?;
    let (consts, base) = held;
    after_stars(alloc, tokens, depth, consts, base, stars)
}

/// A parameter that nests below `depth`.
#[tactic(auto, unfolding(crate::specs::ParameterReading::parameter), using(crate::proofs::ParameterLaws::deep_parameter))]
fn parameter(alloc: Global, tokens: &mut Cursor<'_>, depth: usize) -> Result<Parameter, ParseFault>
    ensures { Reads (spec.parameter depth tokens.old) result tokens.new }
{
    if depth == 0 {
        return Err(tokens.refuse());
    }
    some_parameter(alloc, tokens, depth)
}

/// Reads parameters that nest below `depth`.
#[derive(Clone, Copy)]
struct ParameterReader {
    alloc: Global,
    depth: usize,
}

impl Operand<Parameter> for ParameterReader {
    ghost can_read = { λ _. Unit {0} };

    ghost parser = { λ r. spec.parameter r.depth };

    fn operand(&self, tokens: &mut Cursor<'_>) -> Result<Parameter, ParseFault> {
        parameter(self.alloc, tokens, self.depth)
    }
}

fn parameter_list(
    alloc: Global,
    tokens: &mut Cursor<'_>,
    depth: usize,
) -> Result<Chain<Parameter>, ParseFault>
    ensures { Reads (chain_at is_comma (spec.parameter depth) tokens.old) result tokens.new }
{
    chain(
        alloc,
        tokens,
        Operators::List,
        &ParameterReader { alloc, depth },
    )
}

fn void_of(specifier: Specifier) -> Option<Leaf>
    ensures { result ≡ grammar.void_by specifier [] [] [] None [] }
{
    match specifier {
        Specifier::Void(word) => Some(word),
        _ => None,
    }
}

/// Whether a parameter writes nothing but its type.
fn is_bare(consts: &Items<Leaf>, base: &Base, stars: &Items<Star>, sizes: &Option<Sizes>) -> bool
    ensures { result ≡ spec.is_bare base.now.consts consts.now stars.now sizes.now }
{
    base.consts.len() == 0 && consts.len() == 0 && stars.len() == 0 && sizes.is_none()
}

/// The `void` of a list that is nothing else.
#[tactic(auto, unfolding(c_grammar::specs::Declarations::lone_void))]
fn lone_void(all: &Chain<Parameter>) -> Option<Leaf>
    ensures { result ≡ grammar.lone_void all.now }
{
    match &all.first {
        Parameter::Named(_, _, _) => None,
        Parameter::Nameless(consts, base, stars, sizes) => {
            if is_bare(consts, base, stars, sizes) && all.rest.len() == 0 {
                void_of(base.specifier)
            } else {
                None
            }
        }
    }
}

/// The empty list where the parameters are a lone `void`.
fn params_of(all: Chain<Parameter>) -> Params
    ensures { result ≡ spec.params_of all (grammar.lone_void all) }
{
    match lone_void(&all) {
        Some(word) => instead(all, Params::Void(word)),
        None => Params::List(all),
    }
}

/// What stands in the parentheses of a function, and nests below `depth`.
#[tactic(auto, unfolding(crate::specs::ParameterReading::params))]
pub fn params(alloc: Global, tokens: &mut Cursor<'_>, depth: usize) -> Result<Params, ParseFault>
    ensures { Reads (spec.params depth tokens.old) result tokens.new }
{
    if same(Word::RightParen, tokens.peek()) {
        return Ok(Params::Empty);
    }
    let all = parameter_list(alloc, tokens, depth)?;
    Ok(params_of(all))
}

/// The same, where `held` was read before.
pub fn then_params<T: Drop>(
    held: T,
    alloc: Global,
    tokens: &mut Cursor<'_>,
    depth: usize,
) -> Result<(T, Params), ParseFault>
    ensures { ReadsAfter held (spec.params depth tokens.old) result tokens.new }
{
    let found = params(alloc, tokens, depth)?;
    Ok((held, found))
}
