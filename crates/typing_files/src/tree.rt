//! Parts of trees of declarations.

ghost use Rattle.std.specs.Prelude.{◌≡◌};
ghost use Rattle.typing_rules.specs.TreesOfDeclarations as trees;

use c_grammar::declaration::{Declarator, Declared};
use c_words::word::Leaf;
use typing_declarators::declared_name::declared_name;

/// The declarator of what is declared.
#[tactic(auto, unfolding(typing_rules::specs::TreesOfDeclarations::declared))]
pub fn declarator_of(tree: &Declared) -> &Declarator
    ensures { (trees.declared tree.now).declarator ≡ trees.declarator result.now }
{
    match tree {
        Declared::Plain(declarator) => declarator,
        Declared::Initialised(declarator, _, _) => declarator,
    }
}

/// The name of what is declared.
pub fn name_of(tree: &Declared) -> Leaf
    ensures { result ≡ (trees.declared tree.now).declarator.name }
{
    declared_name(declarator_of(tree))
}
