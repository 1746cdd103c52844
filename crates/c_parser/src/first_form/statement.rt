//! Statements and bodies.
ghost use Rattle.std.specs.Prelude.{◌≡◌, [], ◌<◌, ◌≤◌, ◌^◌, length};
ghost use Rattle.c_parser.specs.FirstForm.Reading as spec;
ghost use Rattle.c_parser.specs.FirstForm.Reading.{Reads};

use crate::first_form::fault::Fault;
use crate::first_form::fixed::Fixed;
use crate::first_form::reader::Reader;
use crate::first_form::scope::Scope;
use crate::first_form::tree::FirstStmt;
use c_words::word::Mode;
use std::alloc::Global;

#[tactic(auto, unfolding(crate::specs::FirstForm::Reading::variable))]
pub fn variable(reader: &mut Reader<'_>, scope: &Scope<'_>) -> Result<u32, Fault>
    requires { length scope.now.names < 2 ^ 32 }
    ensures { Reads (λ i. i) (spec.variable scope.now.variables scope.now.names reader.old) result reader.new }
{
    let name = reader.name()?;
    scope.variable(name).ok_or(Fault::NotFirstForm)
}

#[tactic(auto, unfolding(crate::specs::FirstForm::Reading::assignment))]
fn assignment(reader: &mut Reader<'_>, scope: &Scope<'_>, name: &str) -> Result<FirstStmt, Fault>
    requires { length scope.now.names < 2 ^ 32 }
    ensures { Reads (λ x. x) (spec.assignment scope.now.variables scope.now.names name.now reader.old) result reader.new }
{
    let variable = scope.variable(name).ok_or(Fault::NotFirstForm)?;
    reader.expect(Fixed::Equals)?;
    let value = reader.number()?;
    reader.expect(Fixed::Semicolon)?;
    Ok(FirstStmt::Assign(variable, value))
}

#[tactic(auto, unfolding(crate::specs::FirstForm::Reading::call))]
fn call(reader: &mut Reader<'_>, scope: &Scope<'_>, name: &str) -> Result<FirstStmt, Fault>
    requires { length scope.now.names < 2 ^ 32 }
    ensures { Reads (λ x. x) (spec.call scope.now.variables scope.now.names name.now reader.old) result reader.new }
{
    let function = scope.function(name).ok_or(Fault::NotFirstForm)?;
    reader.expect_all(&[Fixed::LeftParen, Fixed::RightParen, Fixed::Semicolon])?;
    Ok(FirstStmt::Call(function))
}

#[tactic(auto, unfolding(crate::specs::FirstForm::Reading::named_statement))]
fn named_statement(reader: &mut Reader<'_>, scope: &Scope<'_>) -> Result<FirstStmt, Fault>
    requires { length scope.now.names < 2 ^ 32 }
    ensures { Reads (λ x. x) (spec.named_statement scope.now.variables scope.now.names reader.old) result reader.new }
{
    let name = reader.name()?;
    if reader.is_at(0, Fixed::Equals) {
        assignment(reader, scope, name)
    } else {
        call(reader, scope, name)
    }
}

#[tactic(auto, unfolding(crate::specs::FirstForm::Reading::assertion))]
fn assertion(reader: &mut Reader<'_>, scope: &Scope<'_>) -> Result<FirstStmt, Fault>
    requires { length scope.now.names < 2 ^ 32 }
    ensures { Reads (λ x. x) (spec.assertion scope.now.variables scope.now.names reader.old) result reader.new }
{
    reader.expect_all(&[
        Fixed::Open,
        Fixed::Assert,
        Fixed::Label,
        Fixed::Colon,
        Fixed::Separated,
        Fixed::LeftParen,
        Fixed::Ampersand,
    ])?;
    let written = variable(reader, scope)?;
    reader.expect_all(&[Fixed::Comma, Fixed::Ampersand])?;
    let kept = variable(reader, scope)?;
    reader.expect_all(&[Fixed::RightParen, Fixed::Semicolon, Fixed::Close])?;
    Ok(FirstStmt::Assert(written, kept))
}

#[tactic(auto, unfolding(crate::specs::FirstForm::Reading::empty_statement))]
fn empty_statement(reader: &mut Reader<'_>) -> Result<FirstStmt, Fault>
    ensures { Reads (λ x. x) (spec.empty_statement reader.old) result reader.new }
{
    reader.expect(Fixed::Semicolon)?;
    Ok(FirstStmt::Empty)
}

#[tactic(auto, unfolding(crate::specs::FirstForm::Reading::woven_statement))]
fn woven_statement(reader: &mut Reader<'_>, scope: &Scope<'_>) -> Result<FirstStmt, Fault>
    requires { length scope.now.names < 2 ^ 32 }
    ensures { Reads (λ x. x) (spec.woven_statement scope.now.mode scope.now.variables scope.now.names reader.old) result reader.new }
{
    if scope.mode == Mode::Source {
        return Err(Fault::NotFirstForm);
    }
    if reader.is_at(0, Fixed::Semicolon) {
        empty_statement(reader)
    } else {
        assertion(reader, scope)
    }
}

#[tactic(auto, unfolding(crate::specs::FirstForm::Reading::statement))]
fn statement(reader: &mut Reader<'_>, scope: &Scope<'_>) -> Result<FirstStmt, Fault>
    requires { length scope.now.names < 2 ^ 32 }
    ensures { Reads (λ x. x) (spec.statement scope.now.mode scope.now.variables scope.now.names reader.old) result reader.new }
{
    if reader.is_at(0, Fixed::Semicolon) || reader.is_at(0, Fixed::Open) {
        woven_statement(reader, scope)
    } else {
        named_statement(reader, scope)
    }
}

#[tactic(auto, unfolding(crate::specs::FirstForm::Reading::next_statement))]
fn next_statement(reader: &mut Reader<'_>, scope: &Scope<'_>) -> Result<FirstStmt, Fault>
    requires { length scope.now.names < 2 ^ 32 }
    ensures { Reads (λ x. x) (spec.next_statement scope.now.mode scope.now.variables scope.now.names [] reader.old) result reader.new }
{
    reader.spend()?;
    statement(reader, scope)
}

#[tactic(auto, unfolding(crate::specs::FirstForm::Reading::body_goes_on))]
fn body_goes_on(reader: &Reader<'_>) -> bool
    ensures { result ≡ spec.body_goes_on reader.now.words }
{
    !(reader.is_at(0, Fixed::RightBrace) || reader.is_at(0, Fixed::Return))
}

/// The statements up to the body's end.
pub fn body(
    alloc: Global,
    reader: &mut Reader<'_>,
    scope: &Scope<'_>,
) -> Result<Vec<FirstStmt>, Fault>
    requires room { length scope.now.names < 2 ^ 32 }
    requires variables { scope.now.variables ≤ length scope.now.names }
    ensures { Reads (λ v. v.items) (spec.body scope.now.mode scope.now.variables scope.now.names reader.old) result reader.new }
{
    let mut found = Vec::new(alloc);
    while body_goes_on(reader) {
        found.push(next_statement(reader, scope)?)?;
    }
    Ok(found)
}
