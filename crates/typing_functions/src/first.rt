//! The first tokens of parameters.

ghost use Rattle.std.specs.Prelude.{◌≡◌};
ghost use Rattle.typing_rules.specs.Functions.{place_of_parameter};
ghost use Rattle.typing_rules.specs.TreesOfDeclarations as trees;

use c_grammar::declaration::Parameter;
use c_grammar::types::{Integer, Specifier};
use c_lexer::Place;
use c_words::word::Leaf;
use typing_declarators::declared_name::declared_name;

fn integer_first(spelling: Integer) -> Leaf
    ensures { result ≡ trees.integer_first spelling }
{
    match spelling {
        Integer::Char(t) => t,
        Integer::SignedChar(t, _) => t,
        Integer::UnsignedChar(t, _) => t,
        Integer::Short(Some(t), _, _) => t,
        Integer::Short(None, t, _) => t,
        Integer::UnsignedShort(t, _, _) => t,
        Integer::Int(t) => t,
        Integer::Signed(t, _) => t,
        Integer::Unsigned(t, _) => t,
        Integer::Long(Some(t), _, _) => t,
        Integer::Long(None, t, _) => t,
        Integer::UnsignedLong(t, _, _) => t,
    }
}

fn specifier_first(specifier: Specifier) -> Leaf
    ensures { result ≡ trees.specifier_first specifier }
{
    match specifier {
        Specifier::Integer(spelling) => integer_first(spelling),
        Specifier::Void(t) => t,
        Specifier::Struct(t, _) => t,
    }
}

/// The first token of a declaration that begins with these `const`.
fn first_of(consts: &[Leaf], specifier: Specifier) -> Leaf
    ensures { result ≡ trees.first_of consts.now specifier }
{
    match consts.split_first() {
        None => specifier_first(specifier),
        Some((first, _)) => *first,
    }
}

/// The place of the name of a parameter, or of its first token where it has none.
#[tactic(auto, unfolding(typing_rules::specs::TreesOfDeclarations::parameter))]
pub fn parameter_place(tree: &Parameter) -> Place
    ensures { result ≡ place_of_parameter (trees.parameter tree.now) }
{
    match tree {
        Parameter::Named(_, _, declarator) => declared_name(declarator).token.place,
        Parameter::Nameless(consts, base, _, _) => {
            first_of(consts.as_slice(), base.specifier).token.place
        }
    }
}
