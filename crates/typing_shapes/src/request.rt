//! Whether an expression has the form of an argument of `malloc` (C11 7.22.3.4, 6.5.3.4).

ghost use Rattle.std.specs.Prelude.{◌≡◌, ◌<◌, ◌≤◌, suc, IfSome, MatchOption, false};
ghost use Rattle.c_grammar.specs.declared.expression.Or.{size-Or};
ghost use Rattle.c_grammar.specs.declared.expression.Product.{size-Product};
ghost use Rattle.c_grammar.specs.declared.expression.Assign.{size-Assign};
ghost use Rattle.c_grammar.specs.declared.expression.Choice.{size-Choice};
ghost use Rattle.c_grammar.specs.declared.expression.Unary.{size-Unary};
ghost use Rattle.c_grammar.specs.declared.expression.Postfix.{size-Postfix};
ghost use Rattle.c_grammar.specs.declared.expression.Primary.{size-Primary};
ghost use Rattle.typing_rules.specs.Syntax.{Expression};
ghost use Rattle.typing_rules.specs.TreesOfExpressions as trees;
ghost use Rattle.typing_shapes.specs.Levels.{IsLevel, IsSole, product_in};
ghost use Rattle.typing_shapes.specs.Bare.{AreFactors, AreWithin, EndsInStar, IsBare, IsSizeof, bare_size, measured_size};
ghost use Rattle.typing_shapes.specs.Requests as spec;

use c_grammar::expression::{Assign, Choice, Or, Postfix, Primary, Product, Unary};
use c_grammar::types::TypeName;
use c_words::chain::Chain;
use c_words::cursor::same;
use c_words::word::{Leaf, Word};

/// What operators an expression has at one level, or above that of products.
#[derive(Clone, Copy)]
pub enum Level {
    /// None: its first operand stands alone.
    Alone,
    /// One.
    Other,
    /// A `*` where only operators of another level may stand, which no text makes.
    Unlevelled,
}

/// Whether the chain has one operand.
fn chain_level<T>(chain: &Chain<T>) -> Level
    ensures { (f : T → Expression) → IsLevel (trees.chain f chain.now) (f chain.now.first) result }
{
    match chain.rest.as_slice().split_last() {
        None => Level::Alone,
        Some((link, _before)) => {
            if same(Word::Star, link.operator.word) {
                Level::Unlevelled
            } else {
                Level::Other
            }
        }
    }
}

/// The level of what may stand alone in another level.
fn inside(outer: Level, inner: Level) -> Level
    ensures { (x y z : Expression) → IsLevel x y outer → IsLevel y z inner → IsLevel x z result }
{
    match outer {
        Level::Alone => inner,
        Level::Other => Level::Other,
        Level::Unlevelled => Level::Unlevelled,
    }
}

/// The first product of the expression.
pub fn first_product(e: &Or) -> &Product
    ensures first { result.now ≡ product_in e.now }
    ensures within { size-Product result.now < size-Or e.now }
{
    let bit_or = &e.0.first.0.first;
    let equal = &bit_or.0.first.0.first.0.first;
    let shift = &equal.0.first.0.first;
    &shift.0.first.0.first
}

/// Whether the expression is its first product alone.
pub fn product_level(e: &Or) -> Level
    ensures { IsSole e.now result }
{
    let and = &e.0.first;
    let bit_or = &and.0.first;
    let bit_xor = &bit_or.0.first;
    let bit_and = &bit_xor.0.first;
    let equal = &bit_and.0.first;
    let relation = &equal.0.first;
    let shift = &relation.0.first;
    let sum = &shift.0.first;
    let in_shift = inside(chain_level(&shift.0), chain_level(&sum.0));
    let in_relation = inside(chain_level(&relation.0), in_shift);
    let in_equal = inside(chain_level(&equal.0), in_relation);
    let in_bit_and = inside(chain_level(&bit_and.0), in_equal);
    let in_bit_xor = inside(chain_level(&bit_xor.0), in_bit_and);
    let in_bit_or = inside(chain_level(&bit_or.0), in_bit_xor);
    let in_and = inside(chain_level(&and.0), in_bit_or);
    inside(chain_level(&e.0), in_and)
}

/// What a `sizeof` names the type of (C11 6.5.3.4).
#[derive(Clone, Copy)]
pub enum Measured<'t> {
    /// The operand, whose type is named.
    Operand(&'t Unary),
    Named(&'t TypeName),
}

/// An expression without its parentheses, as far as `malloc` asks for its form.
#[derive(Clone, Copy)]
pub enum Bare<'t> {
    Sized(Measured<'t>),
    /// A product whose last operator is `*`.
    Product(&'t Product),
    /// Nothing that `malloc` is asked for.
    Other,
    /// A `*` where only operators of another level may stand, which no text makes.
    Unlevelled,
}

/// The expression without its parentheses.
#[cycle(bare)]
#[tactic(auto, using(typing_rules::proofs::ExpressionAlternatives::expressions), unfolding(crate::specs::Requests::is_sized, crate::specs::Requests::is_request, crate::specs::Bare::stripped))]
pub fn bare_form(e: &Assign) -> Bare<'_>
    ensures form { IsBare (trees.assign e.now) result }
    ensures within { bare_size result < size-Assign e.now }
{
    match e {
        Assign::Choice(x) => bare_choice(x),
        Assign::Assign(_, _, _) => Bare::Other,
    }
}

#[cycle(bare)]
#[tactic(auto, using(typing_rules::proofs::ExpressionAlternatives::expressions), unfolding(crate::specs::Requests::is_sized, crate::specs::Requests::is_request, crate::specs::Bare::stripped))]
fn bare_choice(e: &Choice) -> Bare<'_>
    ensures form { IsBare (trees.choice e.now) result }
    ensures within { bare_size result ≤ size-Choice e.now }
{
    match e {
        Choice::Or(x) => bare_or(x.get()),
        Choice::Choose(_, _, _, _, _) => Bare::Other,
    }
}

#[cycle(bare)]
fn bare_or(e: &Or) -> Bare<'_>
    ensures form { IsBare (trees.or e.now) result }
    ensures within { bare_size result ≤ size-Or e.now }
{
    match product_level(e) {
        Level::Alone => bare_product(first_product(e)),
        Level::Other => Bare::Other,
        Level::Unlevelled => Bare::Unlevelled,
    }
}

#[cycle(bare)]
fn bare_product(e: &Product) -> Bare<'_>
    ensures form { IsBare (trees.product e.now) result }
    ensures within { bare_size result ≤ suc (size-Product e.now) }
{
    match e.0.rest.as_slice().split_last() {
        None => bare_unary(&e.0.first),
        Some((last, _before)) => {
            if same(Word::Star, last.operator.word) {
                Bare::Product(e)
            } else {
                Bare::Other
            }
        }
    }
}

#[cycle(bare)]
#[tactic(auto, using(typing_rules::proofs::ExpressionAlternatives::expressions), unfolding(crate::specs::Requests::is_sized, crate::specs::Requests::is_request, crate::specs::Bare::stripped))]
fn bare_unary(e: &Unary) -> Bare<'_>
    ensures form { IsBare (trees.unary e.now) result }
    ensures within { bare_size result ≤ size-Unary e.now }
{
    match e {
        Unary::Postfix(x) => bare_postfix(x),
        Unary::Prefix(_, _) => Bare::Other,
        Unary::Cast(_, _, _, _) => Bare::Other,
        Unary::SizeOf(_, x) => Bare::Sized(Measured::Operand(x.get())),
        Unary::SizeOfType(_, _, name, _) => Bare::Sized(Measured::Named(name.get())),
    }
}

#[cycle(bare)]
fn bare_postfix(e: &Postfix) -> Bare<'_>
    ensures form { IsBare (trees.postfix e.now) result }
    ensures within { bare_size result ≤ size-Postfix e.now }
{
    if e.suffixes.is_empty() {
        bare_primary(&e.primary)
    } else {
        Bare::Other
    }
}

#[cycle(bare)]
#[tactic(auto, using(typing_rules::proofs::ExpressionAlternatives::expressions), unfolding(crate::specs::Requests::is_sized, crate::specs::Requests::is_request, crate::specs::Bare::stripped))]
fn bare_primary(e: &Primary) -> Bare<'_>
    ensures form { IsBare (trees.primary e.now) result }
    ensures within { bare_size result ≤ size-Primary e.now }
{
    match e {
        Primary::Name(_) => Bare::Other,
        Primary::Call(_, _, _, _) => Bare::Other,
        Primary::Number(_) => Bare::Other,
        Primary::Character(_) => Bare::Other,
        Primary::Paren(_, inside, _) => bare_form(inside.get()),
    }
}

/// What the operand names the type of, where it is a `sizeof` in any parentheses.
pub fn sized(e: &Unary) -> Option<Measured<'_>>
    ensures form { MatchOption result (spec.is_sized (trees.unary e.now) ≡ false) (λ m. IsSizeof (trees.unary e.now) m) }
    ensures within { IfSome result (λ m. measured_size m ≤ size-Unary e.now) }
{
    match bare_unary(e) {
        Bare::Sized(measured) => Some(measured),
        Bare::Product(_) => None,
        Bare::Other => None,
        Bare::Unlevelled => None,
    }
}

/// Where a `sizeof` stands among the operands of a product.
#[derive(Clone, Copy)]
pub enum Factors<'t> {
    /// The last operand, after this `*`.
    Last(&'t Leaf, Measured<'t>),
    /// The first of two operands, of which the second is none, with the `*` between them.
    First(Measured<'t>, &'t Leaf, &'t Unary),
    /// In no such place.
    Neither,
}

/// Where a `sizeof` stands in a product whose last operator is `*`.
pub fn factors_of(e: &Product) -> Factors<'_>
    requires { EndsInStar e.now }
    ensures form { AreFactors e.now result }
    ensures within { AreWithin (size-Product e.now) result }
{
    let Some((last, before)) = e.0.rest.as_slice().split_last() else {
        return Factors::Neither;
    };
    if let Some(measured) = sized(&last.operand) {
        return Factors::Last(&last.operator, measured);
    }
    if !before.is_empty() {
        return Factors::Neither;
    }
    match sized(&e.0.first) {
        Some(measured) => Factors::First(measured, &last.operator, &last.operand),
        None => Factors::Neither,
    }
}
