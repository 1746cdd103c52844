//! Declarators and sizes with how deep they nest. A reader that holds one needn't count it again at each `[`.

ghost use Rattle.std.specs.Prelude.{◌≡◌, ◌+◌, ◌-◌, ◌^◌, ◌<◌, ◌≤◌, max, length, IfOk};
ghost use Rattle.c_grammar.specs.Declarations as grammar;
ghost use Rattle.c_grammar.specs.Expressions.{choice};
ghost use Rattle.c_grammar.specs.declared.declaration.Direct.TheVariants as d;
ghost use Rattle.c_grammar.specs.declared.declaration.Sizes.TheVariants as z;

use crate::declaration::{Declarator, Direct, Sizes};
use crate::types::Star;
use crate::whole::Conditional;
use c_words::word::Leaf;
use sqlite_items::{Boxed, Items};
use std::alloc::{AllocError, Global};
use std::marker::Model;

/// What stands in a declarator after its stars, seen as its tree.
pub struct MeasuredDirect {
    tree: Direct,
    nesting: usize,
}

impl Model for MeasuredDirect {
    ghost use Rattle.c_grammar.specs.declared.declaration.Direct.{Direct};
    ghost use Rattle.c_grammar.specs.contracts.declaration.Direct as direct;
    ghost use Rattle.std.specs.Prelude.{◌≡◌};
    ghost use Rattle.std.specs.Coded.{codes};
    ghost use Rattle.c_grammar.specs.Declarations as grammar;

    ghost Value = { Direct };

    ghost coded = { Prim.hlevel (codes, direct.the_row.coded) };

    ghost view = { λ m. m.tree };

    ghost invariant = { λ m. m.nesting ≡ (grammar.direct m.tree).nesting };
}

impl Drop for MeasuredDirect {
    fn drop(self) {
        let MeasuredDirect {
            tree: _tree,
            nesting: _nesting,
        } = self;
    }
}

impl MeasuredDirect {
    /// A name.
    #[tactic(auto, using(crate::proofs::DeclaratorNesting::name_nesting))]
    pub fn name(name: Leaf) -> MeasuredDirect
        ensures { result ≡ d.Name name }
    {
        MeasuredDirect {
            tree: Direct::Name(name),
            nesting: 0,
        }
    }

    /// A name with an empty `[ ]`.
    #[tactic(auto, using(crate::proofs::DeclaratorNesting::unsized_nesting))]
    pub fn without_size(name: Leaf, left: Leaf, right: Leaf) -> MeasuredDirect
        ensures { result ≡ d.Unsized name left right }
    {
        MeasuredDirect {
            tree: Direct::Unsized(name, left, right),
            nesting: 1,
        }
    }

    /// A declarator in parentheses.
    #[tactic(auto, using(crate::proofs::DeclaratorNesting::paren_nesting, crate::proofs::DeclaratorNesting::declarator_nesting))]
    pub fn parenthesized(
        alloc: Global,
        left: Leaf,
        inside: MeasuredDeclarator,
        right: Leaf,
    ) -> Result<MeasuredDirect, AllocError>
        requires { (grammar.declarator inside).nesting < 2 ^ 64 - 1 }
        ensures { IfOk result (λ m. m ≡ d.Paren left inside right) }
    {
        let nesting = inside.stars.len() + inside.direct.nesting + 1;
        let inside = Boxed::new(alloc, inside.into_tree())?;
        Ok(MeasuredDirect {
            tree: Direct::Paren(left, inside, right),
            nesting,
        })
    }

    /// `[`, a size and `]` after what stands before. `inner` is how deep the deeper of both nests.
    #[tactic(auto, using(crate::proofs::DeclaratorNesting::array_nesting))]
    pub fn array(
        alloc: Global,
        before: MeasuredDirect,
        left: Leaf,
        size: Conditional,
        right: Leaf,
        inner: usize,
    ) -> Result<MeasuredDirect, AllocError>
        requires inner { inner ≡ max (grammar.direct before).nesting (choice size).nesting }
        requires room { inner < 2 ^ 64 - 1 }
        ensures { IfOk result (λ m. m ≡ d.Array before left size right) }
    {
        let before = Boxed::new(alloc, before.into_tree())?;
        Ok(MeasuredDirect {
            tree: Direct::Array(before, left, size, right),
            nesting: inner + 1,
        })
    }

    /// How deep it nests.
    pub fn nesting(&self) -> usize
        ensures { result ≡ (grammar.direct self.now).nesting }
    {
        self.nesting
    }

    pub fn into_tree(self) -> Direct
        ensures { result ≡ self }
    {
        let MeasuredDirect {
            tree,
            nesting: _nesting,
        } = self;
        tree
    }
}

/// A declarator, seen as its tree.
pub struct MeasuredDeclarator {
    stars: Items<Star>,
    direct: MeasuredDirect,
}

impl Model for MeasuredDeclarator {
    ghost use Rattle.c_grammar.specs.declared.declaration.Declarator.{Declarator};
    ghost use Rattle.c_grammar.specs.contracts.declaration.Declarator as declarator;
    ghost use Rattle.std.specs.Coded.{codes};

    ghost Value = { Declarator };

    ghost coded = { Prim.hlevel (codes, declarator.the_row.coded) };

    ghost view = { λ m. record { stars = m.stars; direct = m.direct } };
}

impl Drop for MeasuredDeclarator {
    fn drop(self) {
        let MeasuredDeclarator {
            stars: _stars,
            direct: _direct,
        } = self;
    }
}

impl MeasuredDeclarator {
    /// Stars, and what they stand before.
    pub fn new(stars: Items<Star>, direct: MeasuredDirect) -> MeasuredDeclarator
        ensures { result ≡ record { stars = stars; direct = direct } }
    {
        MeasuredDeclarator { stars, direct }
    }

    pub fn into_tree(self) -> Declarator
        ensures { result ≡ self }
    {
        let MeasuredDeclarator { stars, direct } = self;
        Declarator {
            stars,
            direct: direct.into_tree(),
        }
    }
}

/// The sizes of a parameter without name, seen as their tree.
pub struct MeasuredSizes {
    tree: Sizes,
    nesting: usize,
}

impl Model for MeasuredSizes {
    ghost use Rattle.c_grammar.specs.declared.declaration.Sizes.{Sizes};
    ghost use Rattle.c_grammar.specs.contracts.declaration.Sizes as sizes;
    ghost use Rattle.std.specs.Prelude.{◌≡◌};
    ghost use Rattle.std.specs.Coded.{codes};
    ghost use Rattle.c_grammar.specs.Declarations as grammar;

    ghost Value = { Sizes };

    ghost coded = { Prim.hlevel (codes, sizes.the_row.coded) };

    ghost view = { λ m. m.tree };

    ghost invariant = { λ m. m.nesting ≡ (grammar.sizes m.tree).nesting };
}

impl Drop for MeasuredSizes {
    fn drop(self) {
        let MeasuredSizes {
            tree: _tree,
            nesting: _nesting,
        } = self;
    }
}

impl MeasuredSizes {
    /// `[` and `]` alone.
    #[tactic(auto, using(crate::proofs::DeclaratorNesting::empty_size_nesting))]
    pub fn empty(left: Leaf, right: Leaf) -> MeasuredSizes
        ensures { result ≡ z.Unsized left right }
    {
        MeasuredSizes {
            tree: Sizes::Unsized(left, right),
            nesting: 0,
        }
    }

    /// `[`, a size that nests as deep as `inner` says, and `]`.
    #[tactic(auto, using(crate::proofs::DeclaratorNesting::first_size_nesting))]
    pub fn first(left: Leaf, size: Conditional, right: Leaf, inner: usize) -> MeasuredSizes
        requires inner { inner ≡ (choice size).nesting }
        requires room { inner < 2 ^ 64 - 1 }
        ensures { result ≡ z.First left size right }
    {
        MeasuredSizes {
            tree: Sizes::First(left, size, right),
            nesting: inner + 1,
        }
    }

    /// `[`, a size and `]` after the sizes before. `inner` is how deep the deeper of both nests.
    #[tactic(auto, using(crate::proofs::DeclaratorNesting::next_size_nesting))]
    pub fn next(
        alloc: Global,
        before: MeasuredSizes,
        left: Leaf,
        size: Conditional,
        right: Leaf,
        inner: usize,
    ) -> Result<MeasuredSizes, AllocError>
        requires inner { inner ≡ max (grammar.sizes before).nesting (choice size).nesting }
        requires room { inner < 2 ^ 64 - 1 }
        ensures { IfOk result (λ m. m ≡ z.More before left size right) }
    {
        let before = Boxed::new(alloc, before.into_tree())?;
        Ok(MeasuredSizes {
            tree: Sizes::More(before, left, size, right),
            nesting: inner + 1,
        })
    }

    /// How deep they nest.
    pub fn nesting(&self) -> usize
        ensures { result ≡ (grammar.sizes self.now).nesting }
    {
        self.nesting
    }

    pub fn into_tree(self) -> Sizes
        ensures { result ≡ self }
    {
        let MeasuredSizes {
            tree,
            nesting: _nesting,
        } = self;
        tree
    }
}
