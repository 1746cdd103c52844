//! The names that declarators declare.

ghost use Rattle.std.specs.Prelude.{◌≡◌};
ghost use Rattle.typing_rules.specs.TreesOfDeclarations as trees;

use c_grammar::declaration::{Declarator, Direct};
use c_words::word::Leaf;

#[cycle(names)]
#[tactic(auto, using(typing_rules::proofs::DeclarationAlternatives::declarations))]
pub fn declared_name(tree: &Declarator) -> Leaf
    ensures { result ≡ (trees.declarator tree.now).name }
{
    direct_name(&tree.direct)
}

#[cycle(names)]
#[tactic(auto, using(typing_rules::proofs::DeclarationAlternatives::declarations))]
fn direct_name(tree: &Direct) -> Leaf
    ensures { result ≡ (trees.direct tree.now).name }
{
    match tree {
        Direct::Name(name) => *name,
        Direct::Unsized(name, _, _) => *name,
        Direct::Paren(_, inside, _) => declared_name(inside.get()),
        Direct::Array(before, _, _, _) => direct_name(before.get()),
    }
}
