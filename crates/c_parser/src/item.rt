//! Items (C11 6.9).

ghost use Rattle.std.specs.Prelude.{◌≡◌, suc};
ghost use Rattle.std.specs.List.{list_all};
ghost use Rattle.c_grammar.specs.Programs as grammar;
ghost use Rattle.c_words.specs.Parsing.{Reads, take_if, run_at};
ghost use Rattle.c_statements.specs.StatementReading.{unless};
ghost use Rattle.c_declarations.specs.DeclaredReading as declared_spec;
ghost use Rattle.c_type_names.specs.Held.{ReadsAfter};
ghost use Rattle.c_parser.specs.ItemReading as spec;

use crate::look::{begins_function, begins_type, is_function_prefix, is_struct};
use c_declarations::declared::{all_declared, then_all_declared, then_declarators};
use c_declarations::parameter::then_params;
use c_grammar::declaration::{Declared, Parameter, Params};
use c_grammar::program::{Body, Item, Member};
use c_grammar::types::Base;
use c_statements::statement::block;
use c_type_names::chain::{Part, run};
use c_type_names::held::{then_base, then_expect, then_stars, unless_refused};
use c_type_names::types::consts;
use c_words::chain::{Chain, Link};
use c_words::cursor::{Cursor, same};
use c_words::fault::ParseFault;
use c_words::word::{Leaf, Word};
use sqlite_items::Items;
use std::alloc::Global;

/// How deep an item and what nests in it may nest.
#[derive(Clone, Copy)]
pub(crate) struct ItemReader {
    pub alloc: Global,
    /// What stands at the top nests below this.
    pub depth: usize,
    /// What stands in braces or parentheses nests below this.
    pub inside: usize,
}

fn begins_member(word: Word) -> bool
    ensures { result ≡ spec.begins_member word }
{
    same(Word::Const, word) || begins_type(word)
}

fn begins_item(word: Word) -> bool
    ensures { result ≡ spec.begins_item word }
{
    matches!(word, Word::Meta | Word::Ghost) || is_function_prefix(word) || begins_type(word)
}

/// One of `static`, `extern` and `const`.
#[tactic(auto, using(crate::proofs::Prefixes::takes_next, crate::proofs::Prefixes::takes_none))]
fn prefix(tokens: &mut Cursor<'_>) -> Result<Leaf, ParseFault>
    ensures { Reads (take_if grammar.is_function_prefix tokens.old) result tokens.new }
{
    let word = tokens.peek();
    if is_function_prefix(word) {
        tokens.expect(word)
    } else {
        Err(tokens.refuse())
    }
}

fn is_named(parameter: &Parameter) -> bool
    ensures { result ≡ grammar.is_named parameter.now }
{
    match parameter {
        Parameter::Named(_, _, _) => true,
        Parameter::Nameless(_, _, _, _) => false,
    }
}

fn rest_named(links: &[Link<Parameter>]) -> bool
    ensures { result ≡ list_all (λ l. grammar.is_named l.operand) links.now }
{
    links.iter().all(|link| is_named(&link.operand))
}

/// Whether each parameter has a name.
#[tactic(auto, unfolding(c_grammar::specs::Programs::all_named))]
fn all_named(params: &Params) -> bool
    ensures { result ≡ grammar.all_named params.now }
{
    match params {
        Params::Empty | Params::Void(_) => true,
        Params::List(all) => is_named(&all.first) && rest_named(all.rest.as_slice()),
    }
}

/// Reads `static`, `extern` and `const`.
struct FunctionPrefix;

impl Part<Leaf> for FunctionPrefix {
    ghost can_read = { λ _. Unit {0} };

    ghost begins = { λ _. grammar.is_function_prefix };

    ghost parser = { λ _. take_if grammar.is_function_prefix };

    fn begins(&self, word: Word) -> bool {
        is_function_prefix(word)
    }

    fn part(&self, tokens: &mut Cursor<'_>) -> Result<Leaf, ParseFault> {
        prefix(tokens)
    }
}

fn prefixes(alloc: Global, tokens: &mut Cursor<'_>) -> Result<Items<Leaf>, ParseFault>
    ensures { Reads (run_at grammar.is_function_prefix (take_if grammar.is_function_prefix) tokens.old) result tokens.new }
{
    run(alloc, tokens, &FunctionPrefix)
}

impl ItemReader {
    #[tactic(auto, unfolding(crate::specs::ItemReading::member))]
    fn member(&self, tokens: &mut Cursor<'_>) -> Result<Member, ParseFault>
        ensures { Reads (spec.member self.now.depth self.now.inside tokens.old) result tokens.new }
    {
        let consts = consts(self.alloc, tokens)?;
        let (consts, base) = then_base(consts, self.alloc, tokens)?;
        let (held, declarators) = then_declarators(
            (consts, base),
            self.alloc,
            tokens,
            self.inside,
        )?;
        let (held, semicolon) = then_expect((held, declarators), tokens, Word::Semicolon)?;
        let (front, declarators) = held;
        let (consts, base) = front;
        Ok(Member {
            consts,
            base,
            declarators,
            semicolon,
        })
    }

    /// Members, as long as the next word can begin one.
    fn some_members(&self, tokens: &mut Cursor<'_>) -> Result<Items<Member>, ParseFault>
        ensures { Reads (run_at spec.begins_member (spec.member self.now.depth self.now.inside) tokens.old) result tokens.new }
    {
        run(self.alloc, tokens, self)
    }

    /// A struct has a member.
    #[tactic(auto, unfolding(crate::specs::ItemReading::members))]
    fn members(&self, tokens: &mut Cursor<'_>) -> Result<Items<Member>, ParseFault>
        ensures { Reads (spec.members self.now.depth self.now.inside tokens.old) result tokens.new }
    {
        let all = self.some_members(tokens)?;
        let refused = all.is_empty();
        unless_refused(all, tokens, refused)
    }

    /// What a struct's declaration declares besides, if anything.
    #[tactic(auto, unfolding(c_statements::specs::StatementReading::unless))]
    fn names(&self, tokens: &mut Cursor<'_>) -> Result<Option<Chain<Declared>>, ParseFault>
        ensures { Reads (unless Word.Semicolon (declared_spec.all_declared self.now.depth) tokens.old) result tokens.new }
    {
        if same(Word::Semicolon, tokens.peek()) {
            Ok(None)
        } else {
            Ok(Some(all_declared(self.alloc, tokens, self.depth)?))
        }
    }

    /// The same, where `held` was read before.
    fn then_names<T: Drop>(
        &self,
        held: T,
        tokens: &mut Cursor<'_>,
    ) -> Result<(T, Option<Chain<Declared>>), ParseFault>
        ensures { ReadsAfter held (unless Word.Semicolon (declared_spec.all_declared self.now.depth) tokens.old) result tokens.new }
    {
        let found = self.names(tokens)?;
        Ok((held, found))
    }

    #[tactic(auto, unfolding(crate::specs::ItemReading::struct_item))]
    fn struct_item(&self, tokens: &mut Cursor<'_>) -> Result<Item, ParseFault>
        ensures { Reads (spec.struct_item self.now.depth self.now.inside tokens.old) result tokens.new }
    {
        let word = tokens.expect(Word::Struct)?;
        let tag = tokens.expect(Word::Name)?;
        let opening = tokens.expect(Word::LeftBrace)?;
        let members = self.members(tokens)?;
        let (members, closing) = then_expect(members, tokens, Word::RightBrace)?;
        let (members, names) = self.then_names(members, tokens)?;
        let (held, semicolon) = then_expect((members, names), tokens, Word::Semicolon)?;
        let (members, names) = held;
        Ok(Item::Struct(word, tag, opening, members, closing, names, semicolon))
    }

    #[tactic(auto, unfolding(crate::specs::ItemReading::variables))]
    fn variables(
        &self,
        tokens: &mut Cursor<'_>,
        prefixes: Items<Leaf>,
        base: Base,
    ) -> Result<Item, ParseFault>
        ensures { Reads (spec.variables self.now.depth self.now.inside prefixes base tokens.old) result tokens.new }
    {
        let (held, names) = then_all_declared((prefixes, base), self.alloc, tokens, self.depth)?;
        let (held, semicolon) = then_expect((held, names), tokens, Word::Semicolon)?;
        let (front, names) = held;
        let (prefixes, base) = front;
        Ok(Item::Variables(prefixes, base, names, semicolon))
    }

    /// The body of a function. It may be a block where each parameter has a name.
    #[tactic(auto, unfolding(crate::specs::ItemReading::body_where))]
    fn body(&self, tokens: &mut Cursor<'_>, complete: bool) -> Result<Body, ParseFault>
        ensures { Reads (spec.body_where self.now.depth self.now.inside complete tokens.old) result tokens.new }
    {
        if same(Word::Semicolon, tokens.peek()) {
            Ok(Body::Absent(tokens.expect(Word::Semicolon)?))
        } else if complete {
            Ok(Body::Block(block(self.alloc, tokens, self.depth)?))
        } else {
            Err(tokens.refuse())
        }
    }

    /// The same, where `held` was read before.
    fn then_body<T: Drop>(
        &self,
        held: T,
        tokens: &mut Cursor<'_>,
        complete: bool,
    ) -> Result<(T, Body), ParseFault>
        ensures { ReadsAfter held (spec.body_where self.now.depth self.now.inside complete tokens.old) result tokens.new }
    {
        let found = self.body(tokens, complete)?;
        Ok((held, found))
    }

    #[tactic(auto, unfolding(crate::specs::ItemReading::function))]
    fn function(
        &self,
        tokens: &mut Cursor<'_>,
        prefixes: Items<Leaf>,
        base: Base,
    ) -> Result<Item, ParseFault>
        ensures { Reads (spec.function self.now.depth self.now.inside prefixes base tokens.old) result tokens.new }
    {
        let (held, stars) = then_stars((prefixes, base), self.alloc, tokens, self.depth)?;
        let (held, name) = then_expect((held, stars), tokens, Word::Name)?;
        let (held, opening) = then_expect(held, tokens, Word::LeftParen)?;
        let (held, inside) = then_params(held, self.alloc, tokens, self.inside)?;
        let complete = all_named(&inside);
        let (held, closing) = then_expect((held, inside), tokens, Word::RightParen)?;
        let (held, body) = self.then_body(held, tokens, complete)?;
        let (front, inside) = held;
        let (front, stars) = front;
        let (prefixes, base) = front;
        Ok(Item::Function(prefixes, base, stars, name, opening, inside, closing, body))
    }

    /// What stands after the prefixes and the base: a function or variables.
    #[tactic(auto, unfolding(crate::specs::ItemReading::after_base))]
    fn after_base(
        &self,
        tokens: &mut Cursor<'_>,
        prefixes: Items<Leaf>,
        base: Base,
    ) -> Result<Item, ParseFault>
        ensures { Reads (spec.after_base self.now.depth self.now.inside prefixes base tokens.old) result tokens.new }
    {
        if begins_function(self.depth, prefixes.as_slice(), tokens) {
            self.function(tokens, prefixes, base)
        } else {
            self.variables(tokens, prefixes, base)
        }
    }

    #[tactic(auto, unfolding(crate::specs::ItemReading::declaration))]
    fn declaration(&self, tokens: &mut Cursor<'_>) -> Result<Item, ParseFault>
        ensures { Reads (spec.declaration self.now.depth self.now.inside tokens.old) result tokens.new }
    {
        let prefixes = prefixes(self.alloc, tokens)?;
        let (prefixes, base) = then_base(prefixes, self.alloc, tokens)?;
        self.after_base(tokens, prefixes, base)
    }

    #[tactic(auto, unfolding(crate::specs::ItemReading::item))]
    pub(crate) fn item(&self, tokens: &mut Cursor<'_>) -> Result<Item, ParseFault>
        ensures { Reads (spec.item self.now.depth self.now.inside tokens.old) result tokens.new }
    {
        if is_struct(tokens) {
            return self.struct_item(tokens);
        }
        match tokens.peek() {
            Word::Meta => Ok(Item::Meta(tokens.expect(Word::Meta)?)),
            Word::Ghost => Ok(Item::Ghost(tokens.expect(Word::Ghost)?)),
            _ => self.declaration(tokens),
        }
    }
}

impl Part<Member> for ItemReader {
    ghost can_read = { λ _. Unit {0} };

    ghost begins = { λ _. spec.begins_member };

    ghost parser = { λ r. spec.member r.depth r.inside };

    fn begins(&self, word: Word) -> bool {
        begins_member(word)
    }

    fn part(&self, tokens: &mut Cursor<'_>) -> Result<Member, ParseFault> {
        self.member(tokens)
    }
}

impl Part<Item> for ItemReader {
    ghost can_read = { λ _. Unit {0} };

    ghost begins = { λ _. spec.begins_item };

    ghost parser = { λ r. spec.item r.depth r.inside };

    fn begins(&self, word: Word) -> bool {
        begins_item(word)
    }

    fn part(&self, tokens: &mut Cursor<'_>) -> Result<Item, ParseFault> {
        self.item(tokens)
    }
}
