//! The reader of the first form.
ghost use Rattle.std.specs.Prelude.{◌≡◌, ◌+◌, ◌<◌, ◌≤◌, ◌^◌, ◌∷◌, ◌++◌, [], ℕ, List, false, true, length, map, IfOk, IfSome, IfNone, OnOk};
ghost use Rattle.std.specs.Option.{option_map};
ghost use Rattle.std.specs.List.{list_any};
ghost use Rattle.std.specs.Str.{bytes_eq};
ghost use Rattle.std.specs.String.{string_bytes};
ghost use Rattle.c_lexer.specs.declared.token.Token.{Token};
ghost use Rattle.c_lexer.specs.FirstForm.Tokens.{AreTokensOf};
ghost use Rattle.c_parser.specs.FirstForm.Program.{Program, function_of, property_of, program_of};
ghost use Rattle.c_parser.specs.FirstForm.Spelling.{names_of};
ghost use Rattle.c_parser.specs.FirstForm.Texts.{is_name, is_free_name, limit as limit_of, Spells};
ghost use Rattle.c_parser.specs.FirstForm.Reading as spec;
ghost use Rattle.c_parser.specs.FirstForm.Reading.{Reads};

use crate::first_form::fault::Fault;
use crate::first_form::fixed::Fixed;
use crate::first_form::names::Names;
use crate::first_form::reader::Reader;
use crate::first_form::scope::Scope;
use crate::first_form::statement::{body, variable};
use crate::first_form::tree::{FirstFunction, FirstProperty, FirstTree};
use c_lexer::Token;
use c_words::word::Mode;
use std::alloc::{AllocError, Global};

/// Whether a variable or a function may have this name.
fn is_free(name: &str) -> bool
    requires { is_name name.now ≡ true }
    ensures { result ≡ is_free_name name.now }
{
    !(name.starts_with("__")
        || name == "main"
        || name == "getchar"
        || name == "putchar"
        || name == "malloc"
        || name == "free")
}

/// Takes a name that may be declared after these.
#[tactic(auto, unfolding(crate::specs::FirstForm::Reading::new_name))]
fn new_name<'a>(reader: &mut Reader<'a>, names: &Names<'a>) -> Result<&'a str, Fault>
    ensures read { Reads (λ x. x.now) (spec.new_name names.now reader.old) result reader.new }
    ensures new { IfOk result (λ x. list_any (bytes_eq x.now) names.now ≡ false) }
{
    let name = reader.name()?;
    if is_free(name) && !names.has(name) {
        Ok(name)
    } else {
        Err(Fault::NotFirstForm)
    }
}

/// Takes `int x;`.
#[tactic(auto, unfolding(crate::specs::FirstForm::Reading::declaration))]
fn declaration<'a>(reader: &mut Reader<'a>, names: &Names<'a>) -> Result<&'a str, Fault>
    ensures read { Reads (λ x. x.now) (spec.declaration names.now reader.old) result reader.new }
    ensures new { IfOk result (λ x. list_any (bytes_eq x.now) names.now ≡ false) }
{
    reader.spend()?;
    reader.expect(Fixed::Int)?;
    let name = new_name(reader, names)?;
    reader.expect(Fixed::Semicolon)?;
    Ok(name)
}

#[tactic(auto, unfolding(crate::specs::FirstForm::Reading::begins_declaration))]
fn begins_declaration(reader: &Reader<'_>) -> bool
    ensures { result ≡ spec.begins_declaration reader.now.words }
{
    reader.is_at(0, Fixed::Int) && reader.is_at(2, Fixed::Semicolon)
}

/// The variables, whose names are then those that are declared.
fn declarations<'a>(
    alloc: Global,
    reader: &mut Reader<'a>,
    names: &mut Names<'a>,
) -> Result<Vec<String>, Fault>
    requires { names.old ≡ [] }
    ensures read { Reads (λ v. map string_bytes v.items) (spec.declarations reader.old) result reader.new }
    ensures names { IfOk result (λ v. names.new ≡ map string_bytes v.items) }
    ensures room { IfOk result (λ _. length names.new + reader.new.budget ≤ reader.old.budget) }
{
    let mut found = Vec::new(alloc);
    while begins_declaration(reader) {
        let name = declaration(reader, names)?;
        found.push(String::from_str(alloc, name)?)?;
        names.push(name)?;
    }
    Ok(found)
}

/// Takes what stands between the property's name and its variable.
#[tactic(auto, unfolding(crate::specs::FirstForm::Reading::property_middle))]
fn property_middle(reader: &mut Reader<'_>) -> Result<(), Fault>
    ensures { Reads (λ _. tt) (spec.property_middle reader.old) result reader.new }
{
    reader.expect_all(&[
        Fixed::RightParen,
        Fixed::Comma,
        Fixed::Targets,
        Fixed::LeftParen,
        Fixed::All,
        Fixed::RightParen,
        Fixed::Comma,
        Fixed::Context,
        Fixed::LeftParen,
        Fixed::Writing,
        Fixed::RightParen,
        Fixed::Comma,
        Fixed::Separated,
        Fixed::LeftParen,
        Fixed::Written,
        Fixed::Comma,
        Fixed::Ampersand,
    ])
}

/// The property's name, up to its variable.
#[tactic(auto, unfolding(crate::specs::FirstForm::Reading::property_head))]
fn property_head<'a>(reader: &mut Reader<'a>) -> Result<&'a str, Fault>
    ensures { Reads (λ x. x.now) (spec.property_head reader.old) result reader.new }
{
    reader.expect_all(&[
        Fixed::Open,
        Fixed::Meta,
        Fixed::Prop,
        Fixed::Comma,
        Fixed::Name,
        Fixed::LeftParen,
    ])?;
    let name = reader.name()?;
    property_middle(reader)?;
    Ok(name)
}

#[tactic(auto, unfolding(crate::specs::FirstForm::Reading::property))]
fn property(
    alloc: Global,
    reader: &mut Reader<'_>,
    scope: &Scope<'_>,
) -> Result<FirstProperty, Fault>
    requires { length scope.now.names < 2 ^ 32 }
    ensures { Reads property_of (spec.property scope.now.variables scope.now.names reader.old) result reader.new }
{
    let name = property_head(reader)?;
    let variable = variable(reader, scope)?;
    reader.expect_all(&[Fixed::RightParen, Fixed::Semicolon, Fixed::Close])?;
    Ok(FirstProperty {
        name: String::from_str(alloc, name)?,
        variable,
    })
}

#[tactic(auto, unfolding(crate::specs::FirstForm::Reading::optional_property))]
fn optional_property(
    alloc: Global,
    reader: &mut Reader<'_>,
    scope: &Scope<'_>,
) -> Result<Option<FirstProperty>, Fault>
    requires { length scope.now.names < 2 ^ 32 }
    ensures { Reads (option_map property_of) (spec.optional_property scope.now.mode scope.now.variables scope.now.names reader.old) result reader.new }
{
    match scope.mode {
        Mode::Source if reader.is_at(0, Fixed::Open) => Ok(Some(property(alloc, reader, scope)?)),
        _ => Ok(None),
    }
}

/// A function from the parenthesis after its name on.
#[tactic(auto, unfolding(crate::specs::FirstForm::Reading::function_rest))]
fn function_rest(
    alloc: Global,
    reader: &mut Reader<'_>,
    scope: &Scope<'_>,
    name: &str,
) -> Result<FirstFunction, Fault>
    requires room { length scope.now.names < 2 ^ 32 }
    requires variables { scope.now.variables ≤ length scope.now.names }
    ensures read { Reads function_of (spec.function_rest scope.now.mode scope.now.variables scope.now.names name.now reader.old) result reader.new }
    ensures named { IfOk result (λ f. string_bytes f.name ≡ name.now) }
{
    reader.expect_all(&[
        Fixed::LeftParen,
        Fixed::Void,
        Fixed::RightParen,
        Fixed::LeftBrace,
    ])?;
    let body = body(alloc, reader, scope)?;
    reader.expect(Fixed::RightBrace)?;
    Ok(FirstFunction {
        name: String::from_str(alloc, name)?,
        body,
    })
}

/// A function, whose name is then the last one declared.
#[tactic(auto, unfolding(crate::specs::FirstForm::Reading::function))]
fn function<'a>(
    alloc: Global,
    reader: &mut Reader<'a>,
    scope: &mut Scope<'a>,
) -> Result<FirstFunction, Fault>
    requires room { length scope.old.names < 2 ^ 32 }
    requires variables { scope.old.variables ≤ length scope.old.names }
    ensures read { Reads function_of (spec.function scope.old.mode scope.old.variables scope.old.names reader.old) result reader.new }
    ensures named { IfOk result (λ f. scope.new.names ≡ scope.old.names ++ string_bytes f.name ∷ []) }
    ensures mode { scope.new.mode ≡ scope.old.mode }
    ensures variables { scope.new.variables ≡ scope.old.variables }
{
    reader.spend()?;
    reader.expect(Fixed::Void)?;
    let name = new_name(reader, &scope.names)?;
    let found = function_rest(alloc, reader, scope, name)?;
    scope.names.push(name)?;
    Ok(found)
}

/// The functions before `main`, whose names are then declared.
fn functions<'a>(
    alloc: Global,
    reader: &mut Reader<'a>,
    scope: &mut Scope<'a>,
) -> Result<Vec<FirstFunction>, Fault>
    requires room { length scope.old.names + reader.old.budget < 2 ^ 32 }
    requires variables { scope.old.variables ≡ length scope.old.names }
    ensures read { Reads (λ v. map function_of v.items) (spec.functions scope.old.mode scope.old.names reader.old) result reader.new }
    ensures names { IfOk result (λ v. scope.new.names ≡ scope.old.names ++ names_of (map function_of v.items)) }
    ensures mode { scope.new.mode ≡ scope.old.mode }
    ensures variables { scope.new.variables ≡ scope.old.variables }
    ensures room { IfOk result (λ _. length scope.new.names < 2 ^ 32) }
{
    let mut found = Vec::new(alloc);
    while reader.is_at(0, Fixed::Void) {
        found.push(function(alloc, reader, scope)?)?;
    }
    Ok(found)
}

#[tactic(auto, unfolding(crate::specs::FirstForm::Reading::main_function))]
fn main_function(
    alloc: Global,
    reader: &mut Reader<'_>,
    scope: &Scope<'_>,
) -> Result<FirstFunction, Fault>
    requires room { length scope.now.names < 2 ^ 32 }
    requires variables { scope.now.variables ≤ length scope.now.names }
    ensures { Reads function_of (spec.main_function scope.now.mode scope.now.variables scope.now.names reader.old) result reader.new }
{
    reader.spend()?;
    reader.expect_all(&[
        Fixed::Int,
        Fixed::Main,
        Fixed::LeftParen,
        Fixed::Void,
        Fixed::RightParen,
        Fixed::LeftBrace,
    ])?;
    let body = body(alloc, reader, scope)?;
    reader.expect_all(&[
        Fixed::Return,
        Fixed::Zero,
        Fixed::Semicolon,
        Fixed::RightBrace,
    ])?;
    Ok(FirstFunction {
        name: String::from_str(alloc, "main")?,
        body,
    })
}

/// The functions and then `main`, which ends the text.
#[tactic(auto, unfolding(crate::specs::FirstForm::Reading::all_functions))]
fn all_functions<'a>(
    alloc: Global,
    reader: &mut Reader<'a>,
    scope: &mut Scope<'a>,
) -> Result<Vec<FirstFunction>, Fault>
    requires room { length scope.old.names + reader.old.budget < 2 ^ 32 }
    requires variables { scope.old.variables ≡ length scope.old.names }
    ensures { Reads (λ v. map function_of v.items) (spec.all_functions scope.old.mode scope.old.names reader.old) result reader.new }
{
    let mut found = functions(alloc, reader, scope)?;
    found.push(main_function(alloc, reader, scope)?)?;
    reader.finish()?;
    Ok(found)
}

fn limit(mode: Mode) -> u32
    ensures { result ≡ limit_of mode }
{
    match mode {
        Mode::Source => 10_000,
        Mode::Woven => 30_000,
    }
}

#[tactic(auto, unfolding(crate::specs::FirstForm::Reading::program))]
fn program(alloc: Global, reader: &mut Reader<'_>, mode: Mode) -> Result<FirstTree, Fault>
    requires { reader.old.budget < 2 ^ 32 }
    ensures { Reads program_of (spec.program mode reader.old) result reader.new }
{
    let mut names = Names::new(alloc);
    let globals = declarations(alloc, reader, &mut names)?;
    let mut scope = Scope {
        mode,
        variables: globals.len(),
        names,
    };
    let property = optional_property(alloc, reader, &scope)?;
    let functions = all_functions(alloc, reader, &mut scope)?;
    Ok(FirstTree {
        globals,
        property,
        functions,
    })
}

/// The tree of a text of the mode's first form, from the text's tokens. `None` where the text isn't of the form.
pub fn first_tree(
    alloc: Global,
    text: &[u8],
    tokens: &[Token],
    mode: Mode,
) -> Result<Option<FirstTree>, AllocError>
    requires tokens { AreTokensOf text.now tokens.now }
    ensures found { IfOk result (λ found. IfSome found (λ tree. Spells mode text.now tokens.now (program_of tree))) }
    ensures none { IfOk result (λ found. IfNone found ((p : Program) → Spells mode text.now tokens.now p → ⊥)) }
{
    let mut reader = Reader::new(text, tokens, limit(mode));
    match program(alloc, &mut reader, mode) {
        Ok(tree) => Ok(Some(tree)),
        Err(Fault::NotFirstForm) => Ok(None),
        Err(Fault::Memory(error)) => Err(error),
    }
}

/// A text spells at most one program of the form.
pub fn one_program()
    ensures { (m : Mode) (text : List ℕ) (tokens : List Token) (p q : Program) → Spells m text tokens p → Spells m text tokens q → p ≡ q }
{}
