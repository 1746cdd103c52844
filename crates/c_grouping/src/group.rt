//! A flat list of operands, grouped by the levels of the operators between them.

ghost use Rattle.std.specs.Prelude.{◌≡◌, [], ◌∷◌, ◌++◌, IfOk, OnOk};
ghost use Rattle.c_words.specs.declared.chain.Chain.{Chain as ChainValue};
ghost use Rattle.c_grammar.specs.declared.expression.Unary.{Unary as UnaryValue};
ghost use Rattle.c_words.specs.Operators.{has};
ghost use Rattle.c_grouping.specs.Grouping as spec;

use c_grammar::expression::{
    And, BitAnd, BitOr, BitXor, Equal, Or, Product, Relation, Shift, Sum, Unary,
};
use c_words::chain::{Chain, Link, push};
use c_words::operators::Operators;
use c_words::word::Leaf;
use sqlite_items::{Boxed, Items};
use std::alloc::{AllocError, Global};
use std::marker::Model;

/// Operands with operators of all levels between them.
#[derive(Drop)]
pub struct Flat {
    pub first: Unary,
    pub rest: Vec<Link<Unary>>,
}

impl Model for Flat {
    ghost use Rattle.c_words.specs.declared.chain.Chain.{Chain};
    ghost use Rattle.c_grammar.specs.declared.expression.Unary.{Unary};
    ghost use Rattle.c_grammar.specs.contracts.expression.Unary as unary;
    ghost use Rattle.std.specs.Coded.{codes};

    ghost Value = { Chain Unary };

    ghost coded = { Prim.hlevel (codes, unary.the_row.coded) };

    ghost view = { λ f. record { first = f.first; rest = f.rest.items } };
}

impl Flat {
    fn new(alloc: Global, first: Unary) -> Flat
        ensures { result ≡ record { first = first; rest = [] } }
    {
        Flat {
            first,
            rest: Vec::new(alloc),
        }
    }

    fn push(&mut self, link: Link<Unary>) -> Result<(), AllocError>
        ensures { OnOk result (self.new ≡ record { first = self.old.first; rest = self.old.rest ++ link ∷ [] }) }
    {
        push(&mut self.rest, link)
    }
}

/// One more part after those that are closed.
fn close<B: Drop>(
    alloc: Global,
    closed: Option<(Chain<B>, Leaf)>,
    operand: B,
) -> Result<Chain<B>, AllocError>
    ensures { IfOk result (λ c. c ≡ spec.close closed operand) }
{
    match closed {
        None => Ok(Chain {
            first: operand,
            rest: Items::new(alloc),
        }),
        Some((found, operator)) => {
            let Chain { first, mut rest } = found;
            rest.push(Link { operator, operand })?;
            Ok(Chain { first, rest })
        }
    }
}

/// What makes one operand of a run of operands.
trait Level<B> {
    ghost made: { ChainValue UnaryValue → B };

    fn make(&self, alloc: Global, flat: Flat) -> Result<B, AllocError>
        ensures { IfOk result (λ b. b ≡ made flat) };
}

/// Each run of operands between the operators of one level makes one operand.
#[tactic(auto, unfolding(crate::specs::Grouping::group))]
fn group<B: Drop, L: Level<B>>(
    alloc: Global,
    operators: Operators,
    flat: Flat,
    level: &L,
) -> Result<Chain<B>, AllocError>
    ensures { IfOk result (λ c. c ≡ spec.group (has operators) L.made flat) }
{
    let Flat { first, rest } = flat;
    let mut closed: Option<(Chain<B>, Leaf)> = None;
    let mut current = Flat::new(alloc, first);
    for link in rest {
        let Link { operator, operand } = link;
        if operators.has(operator.word) {
            let part = level.make(alloc, current)?;
            closed = Some((close(alloc, closed, part)?, operator));
            current = Flat::new(alloc, operand);
        } else {
            current.push(Link { operator, operand })?;
        }
    }
    let part = level.make(alloc, current)?;
    close(alloc, closed, part)
}

struct Products;

impl Level<Product> for Products {
    ghost made = { spec.product_of };

    #[tactic(auto, unfolding(crate::specs::Grouping::product_of))]
    fn make(&self, _alloc: Global, flat: Flat) -> Result<Product, AllocError> {
        let Flat { first, rest } = flat;
        let rest = Items::from_vec(rest);
        Ok(Product(Chain { first, rest }))
    }
}

struct Sums;

impl Level<Sum> for Sums {
    ghost made = { spec.sum_of };

    #[tactic(auto, unfolding(crate::specs::Grouping::sum_of))]
    fn make(&self, alloc: Global, flat: Flat) -> Result<Sum, AllocError> {
        Ok(Sum(group(alloc, Operators::Sum, flat, &Products)?))
    }
}

struct Shifts;

impl Level<Shift> for Shifts {
    ghost made = { spec.shift_of };

    #[tactic(auto, unfolding(crate::specs::Grouping::shift_of))]
    fn make(&self, alloc: Global, flat: Flat) -> Result<Shift, AllocError> {
        Ok(Shift(group(alloc, Operators::Shift, flat, &Sums)?))
    }
}

struct Relations;

impl Level<Relation> for Relations {
    ghost made = { spec.relation_of };

    #[tactic(auto, unfolding(crate::specs::Grouping::relation_of))]
    fn make(&self, alloc: Global, flat: Flat) -> Result<Relation, AllocError> {
        Ok(Relation(group(alloc, Operators::Relation, flat, &Shifts)?))
    }
}

struct Equalities;

impl Level<Equal> for Equalities {
    ghost made = { spec.equal_of };

    #[tactic(auto, unfolding(crate::specs::Grouping::equal_of))]
    fn make(&self, alloc: Global, flat: Flat) -> Result<Equal, AllocError> {
        Ok(Equal(group(alloc, Operators::Equal, flat, &Relations)?))
    }
}

struct BitAnds;

impl Level<BitAnd> for BitAnds {
    ghost made = { spec.bit_and_of };

    #[tactic(auto, unfolding(crate::specs::Grouping::bit_and_of))]
    fn make(&self, alloc: Global, flat: Flat) -> Result<BitAnd, AllocError> {
        Ok(BitAnd(group(alloc, Operators::BitAnd, flat, &Equalities)?))
    }
}

struct BitXors;

impl Level<BitXor> for BitXors {
    ghost made = { spec.bit_xor_of };

    #[tactic(auto, unfolding(crate::specs::Grouping::bit_xor_of))]
    fn make(&self, alloc: Global, flat: Flat) -> Result<BitXor, AllocError> {
        Ok(BitXor(group(alloc, Operators::BitXor, flat, &BitAnds)?))
    }
}

struct BitOrs;

impl Level<BitOr> for BitOrs {
    ghost made = { spec.bit_or_of };

    #[tactic(auto, unfolding(crate::specs::Grouping::bit_or_of))]
    fn make(&self, alloc: Global, flat: Flat) -> Result<BitOr, AllocError> {
        Ok(BitOr(group(alloc, Operators::BitOr, flat, &BitXors)?))
    }
}

struct Ands;

impl Level<And> for Ands {
    ghost made = { spec.and_of };

    #[tactic(auto, unfolding(crate::specs::Grouping::and_of))]
    fn make(&self, alloc: Global, flat: Flat) -> Result<And, AllocError> {
        Ok(And(group(alloc, Operators::And, flat, &BitOrs)?))
    }
}

/// The tree of the operands.
#[tactic(auto, unfolding(crate::specs::Grouping::or_of))]
fn or_of(alloc: Global, flat: Flat) -> Result<Or, AllocError>
    ensures { IfOk result (λ r. r ≡ spec.or_of flat) }
{
    Ok(Or(group(alloc, Operators::Or, flat, &Ands)?))
}

/// The same, in a box.
#[inline(never)]
pub fn boxed_or_of(alloc: Global, flat: Flat) -> Result<Boxed<Or>, AllocError>
    ensures { IfOk result (λ r. r ≡ spec.or_of flat) }
{
    let found = or_of(alloc, flat)?;
    Boxed::new(alloc, found)
}
