//! Expressions. Each rule is a method that has the parsers of what nests as function values.

ghost use Rattle.std.specs.Prelude.{◌≡◌, [], length};
ghost use Rattle.c_words.specs.declared.word.Word.TheVariants as w;
ghost use Rattle.c_words.specs.Words.{same as same_word};
ghost use Rattle.std.specs.Result.{result_map_both};
ghost use Rattle.c_words.specs.declared.operators.Operators.TheVariants as o;
ghost use Rattle.c_words.specs.Operators.{has, continues};
ghost use Rattle.c_words.specs.Parsing.{Reads, and_then, pure, links_from, run_at};
ghost use Rattle.c_words.specs.Follows.{Nests};
ghost use Rattle.c_type_names.specs.TypeReading as types;
ghost use Rattle.c_grouping.specs.Grouping as grouping;
ghost use Rattle.c_type_names.specs.Held.{ReadsAfter};
ghost use Rattle.c_grammar.specs.declared.expression.Assign.TheVariants as a;
ghost use Rattle.c_expressions.specs.ExpressionReading as spec;

use c_grammar::expression::{Assign, Choice, Or, Postfix, Primary, Suffix, Unary};
use c_grammar::types::TypeName;
use c_grammar::whole::{Conditional, Expression};
use c_grouping::group::{Flat, boxed_or_of};
use c_type_names::chain::{Operand, Part, chain, links, run};
use c_type_names::held::{instead, then_expect, then_operator, unless_refused};
use c_type_names::types::type_name;
use c_words::chain::{Chain, Link};
use c_words::cursor::{Cursor, same};
use c_words::fault::ParseFault;
use c_words::operators::Operators;
use c_words::word::{Leaf, Word};
use sqlite_items::{Boxed, Items};
use std::alloc::Global;

/// Whether a type begins with the word.
fn begins_type(word: Word) -> bool
    ensures { result ≡ types.begins_type word }
{
    matches!(
        word,
        Word::Void
            | Word::Struct
            | Word::Char
            | Word::Signed
            | Word::Unsigned
            | Word::Short
            | Word::Int
            | Word::Long
    )
}

/// Whether these words begin a type in parentheses.
fn begins_cast(first: Word, second: Word) -> bool
    ensures { result ≡ spec.begins_cast first second }
{
    same(Word::LeftParen, first) && begins_type(second)
}

fn is_suffix(word: Word) -> bool
    ensures { result ≡ spec.is_suffix word }
{
    matches!(
        word,
        Word::LeftBracket | Word::Dot | Word::Arrow | Word::Increment | Word::Decrement
    )
}

/// The parsers of what stands in a position that nests, and how deep that may nest.
#[derive(Clone, Copy)]
pub struct Grammar<A, C, U> {
    pub alloc: Global,
    pub depth: usize,
    pub assign: A,
    pub choice: C,
    pub unary: U,
}

impl<
    A: Fn(Global, &mut Cursor<'_>, usize) -> Result<Assign, ParseFault>,
    C: Fn(Global, &mut Cursor<'_>, usize) -> Result<Choice, ParseFault>,
    U: Fn(Global, &mut Cursor<'_>, usize) -> Result<Unary, ParseFault>,
> Grammar<A, C, U> {
    #[tactic(auto)]
    fn nested_assign(&self, tokens: &mut Cursor<'_>) -> Result<Boxed<Assign>, ParseFault>
        requires { Nests (spec.inner_at self.now.depth).assign self.now.depth (A.pre self.now.assign) (A.post self.now.assign) }
        ensures { Reads ((spec.inner_at self.now.depth).assign tokens.old) result tokens.new }
    {
        let found = (self.assign)(self.alloc, tokens, self.depth)?;
        Ok(Boxed::new(self.alloc, found)?)
    }

    #[tactic(auto)]
    fn nested_choice(&self, tokens: &mut Cursor<'_>) -> Result<Boxed<Choice>, ParseFault>
        requires { Nests (spec.inner_at self.now.depth).choice self.now.depth (C.pre self.now.choice) (C.post self.now.choice) }
        ensures { Reads ((spec.inner_at self.now.depth).choice tokens.old) result tokens.new }
    {
        let found = (self.choice)(self.alloc, tokens, self.depth)?;
        Ok(Boxed::new(self.alloc, found)?)
    }

    #[tactic(auto)]
    fn nested_unary(&self, tokens: &mut Cursor<'_>) -> Result<Boxed<Unary>, ParseFault>
        requires { Nests (spec.inner_at self.now.depth).unary self.now.depth (U.pre self.now.unary) (U.post self.now.unary) }
        ensures { Reads ((spec.inner_at self.now.depth).unary tokens.old) result tokens.new }
    {
        let found = (self.unary)(self.alloc, tokens, self.depth)?;
        Ok(Boxed::new(self.alloc, found)?)
    }

    /// An expression that nests, where `held` was read before.
    fn then_assign<T: Drop>(
        &self,
        held: T,
        tokens: &mut Cursor<'_>,
    ) -> Result<(T, Boxed<Assign>), ParseFault>
        requires { Nests (spec.inner_at self.now.depth).assign self.now.depth (A.pre self.now.assign) (A.post self.now.assign) }
        ensures { ReadsAfter held ((spec.inner_at self.now.depth).assign tokens.old) result tokens.new }
    {
        let found = self.nested_assign(tokens)?;
        Ok((held, found))
    }

    /// A conditional expression that nests, where `held` was read before.
    fn then_choice<T: Drop>(
        &self,
        held: T,
        tokens: &mut Cursor<'_>,
    ) -> Result<(T, Boxed<Choice>), ParseFault>
        requires { Nests (spec.inner_at self.now.depth).choice self.now.depth (C.pre self.now.choice) (C.post self.now.choice) }
        ensures { ReadsAfter held ((spec.inner_at self.now.depth).choice tokens.old) result tokens.new }
    {
        let found = self.nested_choice(tokens)?;
        Ok((held, found))
    }

    /// An operand that nests, where `held` was read before.
    fn then_unary<T: Drop>(
        &self,
        held: T,
        tokens: &mut Cursor<'_>,
    ) -> Result<(T, Boxed<Unary>), ParseFault>
        requires { Nests (spec.inner_at self.now.depth).unary self.now.depth (U.pre self.now.unary) (U.post self.now.unary) }
        ensures { ReadsAfter held ((spec.inner_at self.now.depth).unary tokens.old) result tokens.new }
    {
        let found = self.nested_unary(tokens)?;
        Ok((held, found))
    }

    #[inline(never)]
    #[tactic(auto, unfolding(crate::specs::ExpressionReading::arguments))]
    fn arguments(&self, tokens: &mut Cursor<'_>) -> Result<Option<Boxed<Chain<Assign>>>, ParseFault>
        requires { Nests (spec.inner_at self.now.depth).assign self.now.depth (A.pre self.now.assign) (A.post self.now.assign) }
        ensures { Reads (spec.arguments (spec.inner_at self.now.depth) tokens.old) result tokens.new }
    {
        if same(Word::RightParen, tokens.peek()) {
            return Ok(None);
        }
        let found: Chain<Assign> = chain(self.alloc, tokens, Operators::List, self)?;
        Ok(Some(Boxed::new(self.alloc, found)?))
    }

    #[inline(never)]
    #[tactic(auto, unfolding(crate::specs::ExpressionReading::call))]
    fn call(&self, tokens: &mut Cursor<'_>, name: Leaf) -> Result<Primary, ParseFault>
        requires { Nests (spec.inner_at self.now.depth).assign self.now.depth (A.pre self.now.assign) (A.post self.now.assign) }
        ensures { Reads (spec.call (spec.inner_at self.now.depth) name tokens.old) result tokens.new }
    {
        let opening = tokens.expect(Word::LeftParen)?;
        let found = self.arguments(tokens)?;
        let (found, closing) = then_expect(found, tokens, Word::RightParen)?;
        Ok(Primary::Call(name, opening, found, closing))
    }

    #[tactic(auto, unfolding(crate::specs::ExpressionReading::named))]
    fn named(&self, tokens: &mut Cursor<'_>) -> Result<Primary, ParseFault>
        requires { Nests (spec.inner_at self.now.depth).assign self.now.depth (A.pre self.now.assign) (A.post self.now.assign) }
        ensures { Reads (spec.named (spec.inner_at self.now.depth) tokens.old) result tokens.new }
    {
        let name = tokens.expect(Word::Name)?;
        if same(Word::LeftParen, tokens.peek()) {
            self.call(tokens, name)
        } else {
            Ok(Primary::Name(name))
        }
    }

    #[inline(never)]
    #[tactic(auto, unfolding(crate::specs::ExpressionReading::parenthesized))]
    fn parenthesized(&self, tokens: &mut Cursor<'_>) -> Result<Primary, ParseFault>
        requires { Nests (spec.inner_at self.now.depth).assign self.now.depth (A.pre self.now.assign) (A.post self.now.assign) }
        ensures { Reads (spec.parenthesized (spec.inner_at self.now.depth) tokens.old) result tokens.new }
    {
        let opening = tokens.expect(Word::LeftParen)?;
        let found = self.nested_assign(tokens)?;
        let (found, closing) = then_expect(found, tokens, Word::RightParen)?;
        Ok(Primary::Paren(opening, found, closing))
    }

    #[tactic(auto, using(crate::proofs::Depths::deep_none, crate::proofs::Depths::deep_some))]
    fn deep_parenthesized(&self, tokens: &mut Cursor<'_>) -> Result<Primary, ParseFault>
        requires { Nests (spec.inner_at self.now.depth).assign self.now.depth (A.pre self.now.assign) (A.post self.now.assign) }
        ensures { Reads (spec.deep (spec.inner_at self.now.depth).depth (spec.parenthesized (spec.inner_at self.now.depth)) tokens.old) result tokens.new }
    {
        if self.depth == 0 {
            return Err(tokens.refuse());
        }
        self.parenthesized(tokens)
    }

    #[tactic(auto, unfolding(crate::specs::ExpressionReading::primary))]
    fn primary(&self, tokens: &mut Cursor<'_>) -> Result<Primary, ParseFault>
        requires { Nests (spec.inner_at self.now.depth).assign self.now.depth (A.pre self.now.assign) (A.post self.now.assign) }
        ensures { Reads (spec.primary (spec.inner_at self.now.depth) tokens.old) result tokens.new }
    {
        match tokens.peek() {
            Word::Name => self.named(tokens),
            Word::Number => Ok(Primary::Number(tokens.expect(Word::Number)?)),
            Word::Character => Ok(Primary::Character(tokens.expect(Word::Character)?)),
            Word::LeftParen => self.deep_parenthesized(tokens),
            _ => Err(tokens.refuse()),
        }
    }

    #[inline(never)]
    #[tactic(auto, unfolding(crate::specs::ExpressionReading::index))]
    fn index(&self, tokens: &mut Cursor<'_>) -> Result<Suffix, ParseFault>
        requires { Nests (spec.inner_at self.now.depth).assign self.now.depth (A.pre self.now.assign) (A.post self.now.assign) }
        ensures { Reads (spec.index (spec.inner_at self.now.depth) tokens.old) result tokens.new }
    {
        let opening = tokens.expect(Word::LeftBracket)?;
        let found = self.nested_assign(tokens)?;
        let (found, closing) = then_expect(found, tokens, Word::RightBracket)?;
        Ok(Suffix::Index(opening, found, closing))
    }

    #[tactic(auto, using(crate::proofs::Depths::deep_none, crate::proofs::Depths::deep_some))]
    fn deep_index(&self, tokens: &mut Cursor<'_>) -> Result<Suffix, ParseFault>
        requires { Nests (spec.inner_at self.now.depth).assign self.now.depth (A.pre self.now.assign) (A.post self.now.assign) }
        ensures { Reads (spec.deep (spec.inner_at self.now.depth).depth (spec.index (spec.inner_at self.now.depth)) tokens.old) result tokens.new }
    {
        if self.depth == 0 {
            return Err(tokens.refuse());
        }
        self.index(tokens)
    }

    #[tactic(auto, unfolding(crate::specs::ExpressionReading::suffix))]
    fn suffix(&self, tokens: &mut Cursor<'_>) -> Result<Suffix, ParseFault>
        requires { Nests (spec.inner_at self.now.depth).assign self.now.depth (A.pre self.now.assign) (A.post self.now.assign) }
        ensures { Reads (spec.suffix (spec.inner_at self.now.depth) tokens.old) result tokens.new }
    {
        match tokens.peek() {
            Word::LeftBracket => self.deep_index(tokens),
            Word::Dot => member(tokens),
            Word::Arrow => arrow(tokens),
            Word::Increment => Ok(Suffix::Increment(tokens.expect(Word::Increment)?)),
            Word::Decrement => Ok(Suffix::Decrement(tokens.expect(Word::Decrement)?)),
            _ => Err(tokens.refuse()),
        }
    }

    #[tactic(auto)]
    fn suffixes(&self, tokens: &mut Cursor<'_>) -> Result<Items<Suffix>, ParseFault>
        requires { Nests (spec.inner_at self.now.depth).assign self.now.depth (A.pre self.now.assign) (A.post self.now.assign) }
        ensures { Reads (run_at spec.is_suffix (spec.suffix (spec.inner_at self.now.depth)) tokens.old) result tokens.new }
    {
        run(self.alloc, tokens, self)
    }

    /// Suffixes, where `held` was read before.
    fn then_suffixes<T: Drop>(
        &self,
        held: T,
        tokens: &mut Cursor<'_>,
    ) -> Result<(T, Items<Suffix>), ParseFault>
        requires { Nests (spec.inner_at self.now.depth).assign self.now.depth (A.pre self.now.assign) (A.post self.now.assign) }
        ensures { ReadsAfter held (run_at spec.is_suffix (spec.suffix (spec.inner_at self.now.depth)) tokens.old) result tokens.new }
    {
        let found = self.suffixes(tokens)?;
        Ok((held, found))
    }

    /// The suffixes after what they are written to.
    #[inline(never)]
    fn suffixed(&self, tokens: &mut Cursor<'_>, primary: Primary) -> Result<Postfix, ParseFault>
        requires { Nests (spec.inner_at self.now.depth).assign self.now.depth (A.pre self.now.assign) (A.post self.now.assign) }
        ensures { Reads (spec.suffixed (spec.inner_at self.now.depth) primary tokens.old) result tokens.new }
    {
        let (primary, suffixes) = self.then_suffixes(primary, tokens)?;
        Ok(Postfix { primary, suffixes })
    }

    #[tactic(auto, unfolding(crate::specs::ExpressionReading::postfix))]
    fn postfix(&self, tokens: &mut Cursor<'_>) -> Result<Postfix, ParseFault>
        requires { Nests (spec.inner_at self.now.depth).assign self.now.depth (A.pre self.now.assign) (A.post self.now.assign) }
        ensures { Reads (spec.postfix (spec.inner_at self.now.depth) tokens.old) result tokens.new }
    {
        let primary = self.primary(tokens)?;
        self.suffixed(tokens, primary)
    }

    #[inline(never)]
    #[tactic(auto, unfolding(crate::specs::ExpressionReading::prefix))]
    fn prefix(&self, tokens: &mut Cursor<'_>) -> Result<Unary, ParseFault>
        requires { Nests (spec.inner_at self.now.depth).unary self.now.depth (U.pre self.now.unary) (U.post self.now.unary) }
        ensures { Reads (spec.prefix (spec.inner_at self.now.depth) tokens.old) result tokens.new }
    {
        let operator = tokens.operator(Operators::Prefix)?;
        let operand = self.nested_unary(tokens)?;
        Ok(Unary::Prefix(operator, operand))
    }

    #[tactic(auto, using(crate::proofs::Depths::deep_none, crate::proofs::Depths::deep_some))]
    fn deep_prefix(&self, tokens: &mut Cursor<'_>) -> Result<Unary, ParseFault>
        requires { Nests (spec.inner_at self.now.depth).unary self.now.depth (U.pre self.now.unary) (U.post self.now.unary) }
        ensures { Reads (spec.deep (spec.inner_at self.now.depth).depth (spec.prefix (spec.inner_at self.now.depth)) tokens.old) result tokens.new }
    {
        if self.depth == 0 {
            return Err(tokens.refuse());
        }
        self.prefix(tokens)
    }

    #[inline(never)]
    #[tactic(auto, unfolding(crate::specs::ExpressionReading::cast), using(crate::proofs::Depths::inner_depth))]
    fn cast(&self, tokens: &mut Cursor<'_>) -> Result<Unary, ParseFault>
        requires { Nests (spec.inner_at self.now.depth).unary self.now.depth (U.pre self.now.unary) (U.post self.now.unary) }
        ensures { Reads (spec.cast (spec.inner_at self.now.depth) tokens.old) result tokens.new }
    {
        let opening = tokens.expect(Word::LeftParen)?;
        let kind = boxed_type(self.alloc, tokens, self.depth)?;
        let (kind, closing) = then_expect(kind, tokens, Word::RightParen)?;
        let (kind, operand) = self.then_unary(kind, tokens)?;
        Ok(Unary::Cast(opening, kind, closing, operand))
    }

    #[tactic(auto, using(crate::proofs::Depths::deep_none, crate::proofs::Depths::deep_some))]
    fn deep_cast(&self, tokens: &mut Cursor<'_>) -> Result<Unary, ParseFault>
        requires { Nests (spec.inner_at self.now.depth).unary self.now.depth (U.pre self.now.unary) (U.post self.now.unary) }
        ensures { Reads (spec.deep (spec.inner_at self.now.depth).depth (spec.cast (spec.inner_at self.now.depth)) tokens.old) result tokens.new }
    {
        if self.depth == 0 {
            return Err(tokens.refuse());
        }
        self.cast(tokens)
    }

    #[inline(never)]
    #[tactic(auto, unfolding(crate::specs::ExpressionReading::size_of_type), using(crate::proofs::Depths::inner_depth))]
    fn size_of_type(&self, tokens: &mut Cursor<'_>, first: Leaf) -> Result<Unary, ParseFault>
        ensures { Reads (spec.size_of_type (spec.inner_at self.now.depth) first tokens.old) result tokens.new }
    {
        let opening = tokens.expect(Word::LeftParen)?;
        let kind = boxed_type(self.alloc, tokens, self.depth)?;
        let (kind, closing) = then_expect(kind, tokens, Word::RightParen)?;
        Ok(Unary::SizeOfType(first, opening, kind, closing))
    }

    #[tactic(auto, unfolding(crate::specs::ExpressionReading::size_of_operand))]
    fn size_of_operand(&self, tokens: &mut Cursor<'_>, first: Leaf) -> Result<Unary, ParseFault>
        requires { Nests (spec.inner_at self.now.depth).unary self.now.depth (U.pre self.now.unary) (U.post self.now.unary) }
        ensures { Reads (spec.size_of_operand (spec.inner_at self.now.depth) first tokens.old) result tokens.new }
    {
        let operand = self.nested_unary(tokens)?;
        Ok(Unary::SizeOf(first, operand))
    }

    #[inline(never)]
    #[tactic(auto, unfolding(crate::specs::ExpressionReading::size))]
    fn size(&self, tokens: &mut Cursor<'_>) -> Result<Unary, ParseFault>
        requires { Nests (spec.inner_at self.now.depth).unary self.now.depth (U.pre self.now.unary) (U.post self.now.unary) }
        ensures { Reads (spec.size (spec.inner_at self.now.depth) tokens.old) result tokens.new }
    {
        let first = tokens.expect(Word::SizeOf)?;
        if begins_cast(tokens.peek(), tokens.second()) {
            self.size_of_type(tokens, first)
        } else {
            self.size_of_operand(tokens, first)
        }
    }

    #[tactic(auto, using(crate::proofs::Depths::deep_none, crate::proofs::Depths::deep_some))]
    fn deep_size(&self, tokens: &mut Cursor<'_>) -> Result<Unary, ParseFault>
        requires { Nests (spec.inner_at self.now.depth).unary self.now.depth (U.pre self.now.unary) (U.post self.now.unary) }
        ensures { Reads (spec.deep (spec.inner_at self.now.depth).depth (spec.size (spec.inner_at self.now.depth)) tokens.old) result tokens.new }
    {
        if self.depth == 0 {
            return Err(tokens.refuse());
        }
        self.size(tokens)
    }

    #[tactic(auto, unfolding(crate::specs::ExpressionReading::unary))]
    fn unary(&self, tokens: &mut Cursor<'_>) -> Result<Unary, ParseFault>
        requires assign { Nests (spec.inner_at self.now.depth).assign self.now.depth (A.pre self.now.assign) (A.post self.now.assign) }
        requires unary { Nests (spec.inner_at self.now.depth).unary self.now.depth (U.pre self.now.unary) (U.post self.now.unary) }
        ensures { Reads (spec.unary (spec.inner_at self.now.depth) tokens.old) result tokens.new }
    {
        let first = tokens.peek();
        if Operators::Prefix.has(first) {
            self.deep_prefix(tokens)
        } else if same(Word::SizeOf, first) {
            self.deep_size(tokens)
        } else if begins_cast(first, tokens.second()) {
            self.deep_cast(tokens)
        } else {
            Ok(Unary::Postfix(self.postfix(tokens)?))
        }
    }

    /// Binary operators of all levels, each with the operand after it.
    fn operands(&self, tokens: &mut Cursor<'_>) -> Result<Vec<Link<Unary>>, ParseFault>
        requires assign { Nests (spec.inner_at self.now.depth).assign self.now.depth (A.pre self.now.assign) (A.post self.now.assign) }
        requires unary { Nests (spec.inner_at self.now.depth).unary self.now.depth (U.pre self.now.unary) (U.post self.now.unary) }
        ensures { Reads (links_from (continues o.Binary) (has o.Binary) (spec.unary (spec.inner_at self.now.depth)) (length tokens.old) [] tokens.old)
            (result_map_both (λ v. v.items) (λ e. e) result) tokens.new }
    {
        links(self.alloc, tokens, Operators::Binary, self)
    }

    /// The same, where `held` was read before.
    fn then_operands<T: Drop>(
        &self,
        held: T,
        tokens: &mut Cursor<'_>,
    ) -> Result<(T, Vec<Link<Unary>>), ParseFault>
        requires assign { Nests (spec.inner_at self.now.depth).assign self.now.depth (A.pre self.now.assign) (A.post self.now.assign) }
        requires unary { Nests (spec.inner_at self.now.depth).unary self.now.depth (U.pre self.now.unary) (U.post self.now.unary) }
        ensures { ReadsAfter held (links_from (continues o.Binary) (has o.Binary) (spec.unary (spec.inner_at self.now.depth)) (length tokens.old) [] tokens.old)
            (result_map_both (λ p. (p.0, p.1.items)) (λ e. e) result) tokens.new }
    {
        let found = self.operands(tokens)?;
        Ok((held, found))
    }

    /// The operators and operands after the first operand.
    #[inline(never)]
    fn operated(&self, tokens: &mut Cursor<'_>, first: Unary) -> Result<Flat, ParseFault>
        requires assign { Nests (spec.inner_at self.now.depth).assign self.now.depth (A.pre self.now.assign) (A.post self.now.assign) }
        requires unary { Nests (spec.inner_at self.now.depth).unary self.now.depth (U.pre self.now.unary) (U.post self.now.unary) }
        ensures { Reads (and_then (links_from (continues o.Binary) (has o.Binary) (spec.unary (spec.inner_at self.now.depth)) (length tokens.old) [] tokens.old)
            (λ rest. pure (record { first = first; rest = rest }))) result tokens.new }
    {
        let (first, rest) = self.then_operands(first, tokens)?;
        Ok(Flat { first, rest })
    }

    /// Operands and the binary operators of all levels.
    #[tactic(auto, unfolding(crate::specs::ExpressionReading::flat, c_words::specs::Parsing::chain_by))]
    fn flat(&self, tokens: &mut Cursor<'_>) -> Result<Flat, ParseFault>
        requires assign { Nests (spec.inner_at self.now.depth).assign self.now.depth (A.pre self.now.assign) (A.post self.now.assign) }
        requires unary { Nests (spec.inner_at self.now.depth).unary self.now.depth (U.pre self.now.unary) (U.post self.now.unary) }
        ensures { Reads (spec.flat (spec.inner_at self.now.depth) tokens.old) result tokens.new }
    {
        let first = self.unary(tokens)?;
        self.operated(tokens, first)
    }

    #[inline(never)]
    #[tactic(auto, unfolding(crate::specs::ExpressionReading::choose))]
    fn choose(&self, tokens: &mut Cursor<'_>, test: Boxed<Or>) -> Result<Choice, ParseFault>
        requires assign { Nests (spec.inner_at self.now.depth).assign self.now.depth (A.pre self.now.assign) (A.post self.now.assign) }
        requires choice { Nests (spec.inner_at self.now.depth).choice self.now.depth (C.pre self.now.choice) (C.post self.now.choice) }
        ensures { Reads (spec.choose (spec.inner_at self.now.depth) test tokens.old) result tokens.new }
    {
        let (test, question) = then_expect(test, tokens, Word::Question)?;
        let (test, second) = self.then_assign(test, tokens)?;
        let (held, colon) = then_expect((test, second), tokens, Word::Colon)?;
        let (held, third) = self.then_choice(held, tokens)?;
        let (test, second) = held;
        Ok(Choice::Choose(test, question, second, colon, third))
    }

    #[tactic(auto, using(crate::proofs::Depths::deep_none, crate::proofs::Depths::deep_some))]
    fn deep_choose(&self, tokens: &mut Cursor<'_>, test: Boxed<Or>) -> Result<Choice, ParseFault>
        requires assign { Nests (spec.inner_at self.now.depth).assign self.now.depth (A.pre self.now.assign) (A.post self.now.assign) }
        requires choice { Nests (spec.inner_at self.now.depth).choice self.now.depth (C.pre self.now.choice) (C.post self.now.choice) }
        ensures { Reads (spec.deep (spec.inner_at self.now.depth).depth (spec.choose (spec.inner_at self.now.depth) test) tokens.old) result tokens.new }
    {
        if self.depth == 0 {
            return Err(instead(test, tokens.refuse()));
        }
        self.choose(tokens, test)
    }

    /// A conditional expression after its condition.
    #[tactic(auto, unfolding(crate::specs::ExpressionReading::choice_after))]
    fn choice_after(&self, tokens: &mut Cursor<'_>, test: Boxed<Or>) -> Result<Choice, ParseFault>
        requires assign { Nests (spec.inner_at self.now.depth).assign self.now.depth (A.pre self.now.assign) (A.post self.now.assign) }
        requires choice { Nests (spec.inner_at self.now.depth).choice self.now.depth (C.pre self.now.choice) (C.post self.now.choice) }
        ensures { Reads (spec.choice_after (spec.inner_at self.now.depth) test tokens.old) result tokens.new }
    {
        if same(Word::Question, tokens.peek()) {
            self.deep_choose(tokens, test)
        } else {
            Ok(Choice::Or(test))
        }
    }

    /// A conditional expression after the operands of its condition.
    #[inline(never)]
    fn choice_of(&self, tokens: &mut Cursor<'_>, found: Flat) -> Result<Choice, ParseFault>
        requires assign { Nests (spec.inner_at self.now.depth).assign self.now.depth (A.pre self.now.assign) (A.post self.now.assign) }
        requires choice { Nests (spec.inner_at self.now.depth).choice self.now.depth (C.pre self.now.choice) (C.post self.now.choice) }
        ensures { Reads (spec.choice_after (spec.inner_at self.now.depth) (grouping.or_of found) tokens.old) result tokens.new }
    {
        let test = boxed_or_of(self.alloc, found)?;
        self.choice_after(tokens, test)
    }

    #[tactic(auto, unfolding(crate::specs::ExpressionReading::choice))]
    fn choice(&self, tokens: &mut Cursor<'_>) -> Result<Choice, ParseFault>
        requires assign { Nests (spec.inner_at self.now.depth).assign self.now.depth (A.pre self.now.assign) (A.post self.now.assign) }
        requires choice { Nests (spec.inner_at self.now.depth).choice self.now.depth (C.pre self.now.choice) (C.post self.now.choice) }
        requires unary { Nests (spec.inner_at self.now.depth).unary self.now.depth (U.pre self.now.unary) (U.post self.now.unary) }
        ensures { Reads (spec.choice (spec.inner_at self.now.depth) tokens.old) result tokens.new }
    {
        let found = self.flat(tokens)?;
        self.choice_of(tokens, found)
    }

    #[inline(never)]
    #[tactic(auto, unfolding(crate::specs::ExpressionReading::assigned))]
    fn assigned(&self, tokens: &mut Cursor<'_>, left: Unary) -> Result<Assign, ParseFault>
        requires { Nests (spec.inner_at self.now.depth).assign self.now.depth (A.pre self.now.assign) (A.post self.now.assign) }
        ensures { Reads (spec.assigned (spec.inner_at self.now.depth) left tokens.old) result tokens.new }
    {
        let (left, operator) = then_operator(left, tokens, Operators::Assignment)?;
        let (left, right) = self.then_assign(left, tokens)?;
        Ok(Assign::Assign(left, operator, right))
    }

    #[tactic(auto, using(crate::proofs::Depths::deep_none, crate::proofs::Depths::deep_some))]
    fn deep_assigned(&self, tokens: &mut Cursor<'_>, left: Unary) -> Result<Assign, ParseFault>
        requires { Nests (spec.inner_at self.now.depth).assign self.now.depth (A.pre self.now.assign) (A.post self.now.assign) }
        ensures { Reads (spec.deep (spec.inner_at self.now.depth).depth (spec.assigned (spec.inner_at self.now.depth) left) tokens.old) result tokens.new }
    {
        if self.depth == 0 {
            return Err(instead(left, tokens.refuse()));
        }
        self.assigned(tokens, left)
    }

    /// An assignment to an operand, which stands alone.
    fn assigned_to(&self, tokens: &mut Cursor<'_>, found: Flat) -> Result<Assign, ParseFault>
        requires { Nests (spec.inner_at self.now.depth).assign self.now.depth (A.pre self.now.assign) (A.post self.now.assign) }
        ensures { Reads (spec.assigned_to (spec.inner_at self.now.depth) found tokens.old) result tokens.new }
    {
        let left = lone(found, tokens)?;
        self.deep_assigned(tokens, left)
    }

    fn condition(&self, tokens: &mut Cursor<'_>, found: Flat) -> Result<Assign, ParseFault>
        requires assign { Nests (spec.inner_at self.now.depth).assign self.now.depth (A.pre self.now.assign) (A.post self.now.assign) }
        requires choice { Nests (spec.inner_at self.now.depth).choice self.now.depth (C.pre self.now.choice) (C.post self.now.choice) }
        ensures { Reads (and_then (spec.choice_after (spec.inner_at self.now.depth) (grouping.or_of found) tokens.old) (λ c. pure (a.Choice c))) result tokens.new }
    {
        Ok(Assign::Choice(self.choice_of(tokens, found)?))
    }

    #[inline(never)]
    fn assign_after(&self, tokens: &mut Cursor<'_>, found: Flat) -> Result<Assign, ParseFault>
        requires assign { Nests (spec.inner_at self.now.depth).assign self.now.depth (A.pre self.now.assign) (A.post self.now.assign) }
        requires choice { Nests (spec.inner_at self.now.depth).choice self.now.depth (C.pre self.now.choice) (C.post self.now.choice) }
        ensures { Reads (spec.assign_after (spec.inner_at self.now.depth) found tokens.old) result tokens.new }
    {
        if Operators::Assignment.has(tokens.peek()) {
            self.assigned_to(tokens, found)
        } else {
            self.condition(tokens, found)
        }
    }

    #[tactic(auto, unfolding(crate::specs::ExpressionReading::assign))]
    fn assign(&self, tokens: &mut Cursor<'_>) -> Result<Assign, ParseFault>
        requires assign { Nests (spec.inner_at self.now.depth).assign self.now.depth (A.pre self.now.assign) (A.post self.now.assign) }
        requires choice { Nests (spec.inner_at self.now.depth).choice self.now.depth (C.pre self.now.choice) (C.post self.now.choice) }
        requires unary { Nests (spec.inner_at self.now.depth).unary self.now.depth (U.pre self.now.unary) (U.post self.now.unary) }
        ensures { Reads (spec.assign (spec.inner_at self.now.depth) tokens.old) result tokens.new }
    {
        let found = self.flat(tokens)?;
        self.assign_after(tokens, found)
    }
}

impl<
    A: Fn(Global, &mut Cursor<'_>, usize) -> Result<Assign, ParseFault>,
    C: Fn(Global, &mut Cursor<'_>, usize) -> Result<Choice, ParseFault>,
    U: Fn(Global, &mut Cursor<'_>, usize) -> Result<Unary, ParseFault>,
> Operand<Assign> for Grammar<A, C, U> {
    ghost can_read = { λ g. Nests (spec.inner_at g.depth).assign g.depth (A.pre g.assign) (A.post g.assign) };

    ghost parser = { λ g. (spec.inner_at g.depth).assign };

    fn operand(&self, tokens: &mut Cursor<'_>) -> Result<Assign, ParseFault> {
        (self.assign)(self.alloc, tokens, self.depth)
    }
}

impl<
    A: Fn(Global, &mut Cursor<'_>, usize) -> Result<Assign, ParseFault>,
    C: Fn(Global, &mut Cursor<'_>, usize) -> Result<Choice, ParseFault>,
    U: Fn(Global, &mut Cursor<'_>, usize) -> Result<Unary, ParseFault>,
> Operand<Unary> for Grammar<A, C, U> {
    ghost can_read = { λ g. Nests (spec.inner_at g.depth).assign g.depth (A.pre g.assign) (A.post g.assign) × Nests (spec.inner_at g.depth).unary g.depth (U.pre g.unary) (U.post g.unary) };

    ghost parser = { λ g. spec.unary (spec.inner_at g.depth) };

    fn operand(&self, tokens: &mut Cursor<'_>) -> Result<Unary, ParseFault> {
        self.unary(tokens)
    }
}

impl<
    A: Fn(Global, &mut Cursor<'_>, usize) -> Result<Assign, ParseFault>,
    C: Fn(Global, &mut Cursor<'_>, usize) -> Result<Choice, ParseFault>,
    U: Fn(Global, &mut Cursor<'_>, usize) -> Result<Unary, ParseFault>,
> Part<Suffix> for Grammar<A, C, U> {
    ghost can_read = { λ g. Nests (spec.inner_at g.depth).assign g.depth (A.pre g.assign) (A.post g.assign) };

    ghost begins = { λ _. spec.is_suffix };

    ghost parser = { λ g. spec.suffix (spec.inner_at g.depth) };

    fn begins(&self, word: Word) -> bool {
        is_suffix(word)
    }

    fn part(&self, tokens: &mut Cursor<'_>) -> Result<Suffix, ParseFault> {
        self.suffix(tokens)
    }
}

/// A name of a type, in a box.
fn boxed_type(
    alloc: Global,
    tokens: &mut Cursor<'_>,
    depth: usize,
) -> Result<Boxed<TypeName>, ParseFault>
    ensures { Reads (types.type_name depth tokens.old) result tokens.new }
{
    let found = type_name(alloc, tokens, depth)?;
    Ok(Boxed::new(alloc, found)?)
}

/// The operand, or a fault at the next token where operators follow it.
fn lone(found: Flat, tokens: &Cursor<'_>) -> Result<Unary, ParseFault>
    ensures { Reads (spec.lone found.first found.rest tokens.now) result tokens.now }
{
    let Flat { first, rest } = found;
    let refused = !rest.is_empty();
    let first = instead(rest, first);
    unless_refused(first, tokens, refused)
}

#[tactic(auto, unfolding(crate::specs::ExpressionReading::member))]
fn member(tokens: &mut Cursor<'_>) -> Result<Suffix, ParseFault>
    ensures { Reads (spec.member tokens.old) result tokens.new }
{
    let dot = tokens.expect(Word::Dot)?;
    let name = tokens.expect(Word::Name)?;
    Ok(Suffix::Member(dot, name))
}

#[tactic(auto, unfolding(crate::specs::ExpressionReading::arrow))]
fn arrow(tokens: &mut Cursor<'_>) -> Result<Suffix, ParseFault>
    ensures { Reads (spec.arrow tokens.old) result tokens.new }
{
    let sign = tokens.expect(Word::Arrow)?;
    let name = tokens.expect(Word::Name)?;
    Ok(Suffix::Arrow(sign, name))
}

/// An expression that nests below the number.
#[cycle(level)]
#[tactic(auto, unfolding(crate::specs::ExpressionReading::inner_at))]
pub fn assign(alloc: Global, tokens: &mut Cursor<'_>, depth: usize) -> Result<Assign, ParseFault>
    ensures { Reads ((spec.inner_at depth).assign tokens.old) result tokens.new }
{
    if depth == 0 {
        return Err(tokens.refuse());
    }
    Grammar {
        alloc,
        depth: depth - 1,
        assign,
        choice,
        unary,
    }
    .assign(tokens)
}

/// A conditional expression that nests below the number.
#[cycle(level)]
#[tactic(auto, unfolding(crate::specs::ExpressionReading::inner_at))]
pub fn choice(alloc: Global, tokens: &mut Cursor<'_>, depth: usize) -> Result<Choice, ParseFault>
    ensures { Reads ((spec.inner_at depth).choice tokens.old) result tokens.new }
{
    if depth == 0 {
        return Err(tokens.refuse());
    }
    Grammar {
        alloc,
        depth: depth - 1,
        assign,
        choice,
        unary,
    }
    .choice(tokens)
}

/// An operand that nests below the number.
#[cycle(level)]
#[tactic(auto, unfolding(crate::specs::ExpressionReading::inner_at))]
fn unary(alloc: Global, tokens: &mut Cursor<'_>, depth: usize) -> Result<Unary, ParseFault>
    ensures { Reads ((spec.inner_at depth).unary tokens.old) result tokens.new }
{
    if depth == 0 {
        return Err(tokens.refuse());
    }
    Grammar {
        alloc,
        depth: depth - 1,
        assign,
        choice,
        unary,
    }
    .unary(tokens)
}

/// An expression that nests below the number, as other trees hold it.
pub fn whole_expression(
    alloc: Global,
    tokens: &mut Cursor<'_>,
    depth: usize,
) -> Result<Expression, ParseFault>
    ensures { Reads ((spec.inner_at depth).assign tokens.old) result tokens.new }
{
    let found = assign(alloc, tokens, depth)?;
    Ok(Expression::new(alloc, found)?)
}

/// A conditional expression that nests below the number, as other trees hold it.
pub fn whole_conditional(
    alloc: Global,
    tokens: &mut Cursor<'_>,
    depth: usize,
) -> Result<Conditional, ParseFault>
    ensures { Reads ((spec.inner_at depth).choice tokens.old) result tokens.new }
{
    let found = choice(alloc, tokens, depth)?;
    Ok(Conditional::new(alloc, found)?)
}
