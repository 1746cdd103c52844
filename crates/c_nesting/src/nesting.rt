//! Whether an expression nests below a limit.

ghost use Rattle.std.specs.Prelude.{◌≡◌, ◌<◌, ℕ, suc, nat_lt};
ghost use Rattle.c_words.specs.Written as written;
ghost use Rattle.c_grammar.specs.Types as types;
ghost use Rattle.c_words.specs.OperatorWords.{is_comma};
ghost use Rattle.c_grammar.specs.Expressions.{assign, choice, or, and, bit_or, bit_xor, bit_and, equal, relation, shift, sum, product, unary, postfix, suffix, primary};
ghost use Rattle.c_nesting.specs.Measuring as measuring;
ghost use Rattle.c_nesting.specs.Measuring.{Tells};

use c_grammar::expression::{
    And, Assign, BitAnd, BitOr, BitXor, Choice, Equal, Or, Postfix, Primary, Product, Relation,
    Shift, Suffix, Sum, Unary,
};
use c_grammar::types::TypeName;
use c_words::chain::Chain;
use sqlite_items::Boxed;

/// What tells whether an operand of a chain nests below a limit. It is used only where `can_tell` holds of it.
trait Operand<T> {
    ghost can_tell: { Self → Type 0 };

    ghost limit: { Self → ℕ };

    ghost operand: { T → written.Written };

    fn fits(&self, tree: &T) -> bool
        requires { can_tell self.now }
        ensures { result ≡ nat_lt (operand tree.now).nesting (limit self.now) };
}

/// Whether each operand nests below the limit.
fn chain_fits<T, P: Operand<T>>(tree: &Chain<T>, operand: &P) -> bool
    requires { P.can_tell operand.now }
    ensures { (operators : _) → result ≡ nat_lt (written.chain operators P.operand tree.now).nesting (P.limit operand.now) }
{
    if !operand.fits(&tree.first) {
        return false;
    }
    let mut links = tree.rest.as_slice();
    while let Some((link, rest)) = links.split_first() {
        if !operand.fits(&link.operand) {
            return false;
        }
        links = rest;
    }
    true
}

/// Each star but the last nests the next one.
#[tactic(auto, using(crate::proofs::NestingLaws::fits_type))]
fn type_fits(tree: &TypeName, limit: usize) -> bool
    ensures { result ≡ nat_lt (types.type_name tree.now).nesting limit }
{
    limit > 0 && tree.stars.len() <= limit
}

/// What tells of the trees that nest in one, and the limit below which they are to nest.
#[derive(Clone, Copy)]
pub struct Nesting<A, C, U> {
    below: usize,
    assign: A,
    choice: C,
    unary: U,
}

impl<
    A: Fn(&Assign, usize) -> bool,
    C: Fn(&Choice, usize) -> bool,
    U: Fn(&Unary, usize) -> bool,
> Nesting<A, C, U> {
    fn list(&self, tree: &Chain<Assign>) -> bool
        requires { Tells assign self.now.below (A.pre self.now.assign) (A.post self.now.assign) }
        ensures { result ≡ nat_lt (written.chain is_comma assign tree.now).nesting self.now.below }
    {
        chain_fits(tree, self)
    }

    #[tactic(auto, using(crate::proofs::NestingLaws::fits_no_arguments, crate::proofs::NestingLaws::fits_arguments))]
    fn arguments(&self, tree: &Option<Boxed<Chain<Assign>>>) -> bool
        requires { Tells assign self.now.below (A.pre self.now.assign) (A.post self.now.assign) }
        ensures { result ≡ nat_lt (measuring.arguments tree.now).nesting (suc self.now.below) }
    {
        match tree {
            None => true,
            Some(arguments) => self.list(arguments.get()),
        }
    }

    #[tactic(auto, using(crate::proofs::NestingLaws::fits_name, crate::proofs::NestingLaws::fits_call, crate::proofs::NestingLaws::fits_number, crate::proofs::NestingLaws::fits_character, crate::proofs::NestingLaws::fits_paren))]
    fn primary(&self, tree: &Primary) -> bool
        requires { Tells assign self.now.below (A.pre self.now.assign) (A.post self.now.assign) }
        ensures { result ≡ nat_lt (primary tree.now).nesting (suc self.now.below) }
    {
        match tree {
            Primary::Name(_) => true,
            Primary::Call(_, _, arguments, _) => self.arguments(arguments),
            Primary::Number(_) => true,
            Primary::Character(_) => true,
            Primary::Paren(_, inside, _) => (self.assign)(inside.get(), self.below),
        }
    }

    #[tactic(auto, using(crate::proofs::NestingLaws::fits_index, crate::proofs::NestingLaws::fits_member, crate::proofs::NestingLaws::fits_arrow, crate::proofs::NestingLaws::fits_increment, crate::proofs::NestingLaws::fits_decrement))]
    fn suffix(&self, tree: &Suffix) -> bool
        requires { Tells assign self.now.below (A.pre self.now.assign) (A.post self.now.assign) }
        ensures { result ≡ nat_lt (suffix tree.now).nesting (suc self.now.below) }
    {
        match tree {
            Suffix::Index(_, index, _) => (self.assign)(index.get(), self.below),
            Suffix::Member(_, _) => true,
            Suffix::Arrow(_, _) => true,
            Suffix::Increment(_) => true,
            Suffix::Decrement(_) => true,
        }
    }

    fn suffixes(&self, trees: &[Suffix]) -> bool
        requires { Tells assign self.now.below (A.pre self.now.assign) (A.post self.now.assign) }
        ensures { result ≡ nat_lt (written.run suffix trees.now).nesting (suc self.now.below) }
    {
        let mut left = trees;
        while let Some((tree, rest)) = left.split_first() {
            if !self.suffix(tree) {
                return false;
            }
            left = rest;
        }
        true
    }

    #[tactic(auto, using(crate::proofs::NestingLaws::fits_postfix))]
    fn postfix(&self, tree: &Postfix) -> bool
        requires { Tells assign self.now.below (A.pre self.now.assign) (A.post self.now.assign) }
        ensures { result ≡ nat_lt (postfix tree.now).nesting (suc self.now.below) }
    {
        self.primary(&tree.primary) && self.suffixes(tree.suffixes.as_slice())
    }

    #[tactic(auto, using(crate::proofs::NestingLaws::fits_operand, crate::proofs::NestingLaws::fits_prefix, crate::proofs::NestingLaws::fits_cast, crate::proofs::NestingLaws::fits_size, crate::proofs::NestingLaws::fits_type_size))]
    fn unary(&self, tree: &Unary) -> bool
        requires assign { Tells assign self.now.below (A.pre self.now.assign) (A.post self.now.assign) }
        requires unary { Tells unary self.now.below (U.pre self.now.unary) (U.post self.now.unary) }
        ensures { result ≡ nat_lt (unary tree.now).nesting (suc self.now.below) }
    {
        match tree {
            Unary::Postfix(operand) => self.postfix(operand),
            Unary::Prefix(_, operand) => (self.unary)(operand.get(), self.below),
            Unary::Cast(_, kind, _, operand) => {
                type_fits(kind.get(), self.below) && (self.unary)(operand.get(), self.below)
            }
            Unary::SizeOf(_, operand) => (self.unary)(operand.get(), self.below),
            Unary::SizeOfType(_, _, kind, _) => type_fits(kind.get(), self.below),
        }
    }

    #[tactic(auto, using(crate::proofs::NestingLaws::fits_or_chain))]
    fn or(&self, tree: &Or) -> bool
        requires assign { Tells assign self.now.below (A.pre self.now.assign) (A.post self.now.assign) }
        requires unary { Tells unary self.now.below (U.pre self.now.unary) (U.post self.now.unary) }
        ensures { result ≡ nat_lt (or tree.now).nesting (suc self.now.below) }
    {
        chain_fits(&tree.0, self)
    }

    #[tactic(auto, using(crate::proofs::NestingLaws::fits_or, crate::proofs::NestingLaws::fits_choose))]
    fn choice(&self, tree: &Choice) -> bool
        requires assign { Tells assign self.now.below (A.pre self.now.assign) (A.post self.now.assign) }
        requires choice { Tells choice self.now.below (C.pre self.now.choice) (C.post self.now.choice) }
        requires unary { Tells unary self.now.below (U.pre self.now.unary) (U.post self.now.unary) }
        ensures { result ≡ nat_lt (choice tree.now).nesting (suc self.now.below) }
    {
        match tree {
            Choice::Or(test) => self.or(test.get()),
            Choice::Choose(test, _, second, _, third) => {
                self.or(test.get())
                    && (self.assign)(second.get(), self.below)
                    && (self.choice)(third.get(), self.below)
            }
        }
    }

    #[tactic(auto, using(crate::proofs::NestingLaws::fits_choice, crate::proofs::NestingLaws::fits_assign))]
    fn assign(&self, tree: &Assign) -> bool
        requires assign { Tells assign self.now.below (A.pre self.now.assign) (A.post self.now.assign) }
        requires choice { Tells choice self.now.below (C.pre self.now.choice) (C.post self.now.choice) }
        requires unary { Tells unary self.now.below (U.pre self.now.unary) (U.post self.now.unary) }
        ensures { result ≡ nat_lt (assign tree.now).nesting (suc self.now.below) }
    {
        match tree {
            Assign::Choice(choice) => self.choice(choice),
            Assign::Assign(left, _, right) => self.unary(left)
                && (self.assign)(right.get(), self.below),
        }
    }
}

impl<
    A: Fn(&Assign, usize) -> bool,
    C: Fn(&Choice, usize) -> bool,
    U: Fn(&Unary, usize) -> bool,
> Operand<Assign> for Nesting<A, C, U> {
    ghost can_tell = { λ n. Tells assign n.below (A.pre n.assign) (A.post n.assign) };

    ghost limit = { λ n. n.below };

    ghost operand = { assign };

    fn fits(&self, tree: &Assign) -> bool {
        (self.assign)(tree, self.below)
    }
}

impl<
    A: Fn(&Assign, usize) -> bool,
    C: Fn(&Choice, usize) -> bool,
    U: Fn(&Unary, usize) -> bool,
> Operand<Unary> for Nesting<A, C, U> {
    ghost can_tell = { λ n. Tells assign n.below (A.pre n.assign) (A.post n.assign) × Tells unary n.below (U.pre n.unary) (U.post n.unary) };

    ghost limit = { λ n. suc n.below };

    ghost operand = { unary };

    fn fits(&self, tree: &Unary) -> bool {
        self.unary(tree)
    }
}

impl<
    A: Fn(&Assign, usize) -> bool,
    C: Fn(&Choice, usize) -> bool,
    U: Fn(&Unary, usize) -> bool,
> Operand<Product> for Nesting<A, C, U> {
    ghost can_tell = { λ n. Tells assign n.below (A.pre n.assign) (A.post n.assign) × Tells unary n.below (U.pre n.unary) (U.post n.unary) };

    ghost limit = { λ n. suc n.below };

    ghost operand = { product };

    #[tactic(auto, using(crate::proofs::NestingLaws::fits_product_chain))]
    fn fits(&self, tree: &Product) -> bool {
        chain_fits(&tree.0, self)
    }
}

impl<
    A: Fn(&Assign, usize) -> bool,
    C: Fn(&Choice, usize) -> bool,
    U: Fn(&Unary, usize) -> bool,
> Operand<Sum> for Nesting<A, C, U> {
    ghost can_tell = { λ n. Tells assign n.below (A.pre n.assign) (A.post n.assign) × Tells unary n.below (U.pre n.unary) (U.post n.unary) };

    ghost limit = { λ n. suc n.below };

    ghost operand = { sum };

    #[tactic(auto, using(crate::proofs::NestingLaws::fits_sum_chain))]
    fn fits(&self, tree: &Sum) -> bool {
        chain_fits(&tree.0, self)
    }
}

impl<
    A: Fn(&Assign, usize) -> bool,
    C: Fn(&Choice, usize) -> bool,
    U: Fn(&Unary, usize) -> bool,
> Operand<Shift> for Nesting<A, C, U> {
    ghost can_tell = { λ n. Tells assign n.below (A.pre n.assign) (A.post n.assign) × Tells unary n.below (U.pre n.unary) (U.post n.unary) };

    ghost limit = { λ n. suc n.below };

    ghost operand = { shift };

    #[tactic(auto, using(crate::proofs::NestingLaws::fits_shift_chain))]
    fn fits(&self, tree: &Shift) -> bool {
        chain_fits(&tree.0, self)
    }
}

impl<
    A: Fn(&Assign, usize) -> bool,
    C: Fn(&Choice, usize) -> bool,
    U: Fn(&Unary, usize) -> bool,
> Operand<Relation> for Nesting<A, C, U> {
    ghost can_tell = { λ n. Tells assign n.below (A.pre n.assign) (A.post n.assign) × Tells unary n.below (U.pre n.unary) (U.post n.unary) };

    ghost limit = { λ n. suc n.below };

    ghost operand = { relation };

    #[tactic(auto, using(crate::proofs::NestingLaws::fits_relation_chain))]
    fn fits(&self, tree: &Relation) -> bool {
        chain_fits(&tree.0, self)
    }
}

impl<
    A: Fn(&Assign, usize) -> bool,
    C: Fn(&Choice, usize) -> bool,
    U: Fn(&Unary, usize) -> bool,
> Operand<Equal> for Nesting<A, C, U> {
    ghost can_tell = { λ n. Tells assign n.below (A.pre n.assign) (A.post n.assign) × Tells unary n.below (U.pre n.unary) (U.post n.unary) };

    ghost limit = { λ n. suc n.below };

    ghost operand = { equal };

    #[tactic(auto, using(crate::proofs::NestingLaws::fits_equal_chain))]
    fn fits(&self, tree: &Equal) -> bool {
        chain_fits(&tree.0, self)
    }
}

impl<
    A: Fn(&Assign, usize) -> bool,
    C: Fn(&Choice, usize) -> bool,
    U: Fn(&Unary, usize) -> bool,
> Operand<BitAnd> for Nesting<A, C, U> {
    ghost can_tell = { λ n. Tells assign n.below (A.pre n.assign) (A.post n.assign) × Tells unary n.below (U.pre n.unary) (U.post n.unary) };

    ghost limit = { λ n. suc n.below };

    ghost operand = { bit_and };

    #[tactic(auto, using(crate::proofs::NestingLaws::fits_bit_and_chain))]
    fn fits(&self, tree: &BitAnd) -> bool {
        chain_fits(&tree.0, self)
    }
}

impl<
    A: Fn(&Assign, usize) -> bool,
    C: Fn(&Choice, usize) -> bool,
    U: Fn(&Unary, usize) -> bool,
> Operand<BitXor> for Nesting<A, C, U> {
    ghost can_tell = { λ n. Tells assign n.below (A.pre n.assign) (A.post n.assign) × Tells unary n.below (U.pre n.unary) (U.post n.unary) };

    ghost limit = { λ n. suc n.below };

    ghost operand = { bit_xor };

    #[tactic(auto, using(crate::proofs::NestingLaws::fits_bit_xor_chain))]
    fn fits(&self, tree: &BitXor) -> bool {
        chain_fits(&tree.0, self)
    }
}

impl<
    A: Fn(&Assign, usize) -> bool,
    C: Fn(&Choice, usize) -> bool,
    U: Fn(&Unary, usize) -> bool,
> Operand<BitOr> for Nesting<A, C, U> {
    ghost can_tell = { λ n. Tells assign n.below (A.pre n.assign) (A.post n.assign) × Tells unary n.below (U.pre n.unary) (U.post n.unary) };

    ghost limit = { λ n. suc n.below };

    ghost operand = { bit_or };

    #[tactic(auto, using(crate::proofs::NestingLaws::fits_bit_or_chain))]
    fn fits(&self, tree: &BitOr) -> bool {
        chain_fits(&tree.0, self)
    }
}

impl<
    A: Fn(&Assign, usize) -> bool,
    C: Fn(&Choice, usize) -> bool,
    U: Fn(&Unary, usize) -> bool,
> Operand<And> for Nesting<A, C, U> {
    ghost can_tell = { λ n. Tells assign n.below (A.pre n.assign) (A.post n.assign) × Tells unary n.below (U.pre n.unary) (U.post n.unary) };

    ghost limit = { λ n. suc n.below };

    ghost operand = { and };

    #[tactic(auto, using(crate::proofs::NestingLaws::fits_and_chain))]
    fn fits(&self, tree: &And) -> bool {
        chain_fits(&tree.0, self)
    }
}

#[cycle(nesting)]
pub fn assign_fits(tree: &Assign, limit: usize) -> bool
    ensures { result ≡ nat_lt (assign tree.now).nesting limit }
{
    if limit == 0 {
        return false;
    }
    Nesting {
        below: limit - 1,
        assign: assign_fits,
        choice: choice_fits,
        unary: unary_fits,
    }
    .assign(tree)
}

#[cycle(nesting)]
pub fn choice_fits(tree: &Choice, limit: usize) -> bool
    ensures { result ≡ nat_lt (choice tree.now).nesting limit }
{
    if limit == 0 {
        return false;
    }
    Nesting {
        below: limit - 1,
        assign: assign_fits,
        choice: choice_fits,
        unary: unary_fits,
    }
    .choice(tree)
}

#[cycle(nesting)]
fn unary_fits(tree: &Unary, limit: usize) -> bool
    ensures { result ≡ nat_lt (unary tree.now).nesting limit }
{
    if limit == 0 {
        return false;
    }
    Nesting {
        below: limit - 1,
        assign: assign_fits,
        choice: choice_fits,
        unary: unary_fits,
    }
    .unary(tree)
}
