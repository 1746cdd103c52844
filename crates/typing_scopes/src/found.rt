//! What names stand for (C11 6.2.1, 6.5.1).

ghost use Rattle.std.specs.Prelude.{◌≡◌, ◌<◌, length, reverse, is_some, IfSome};
ghost use Rattle.std.specs.Option.{option_map};
ghost use Rattle.typing_rules.specs.Checked.{Gives};
ghost use Rattle.typing_rules.specs.Environment as rules;
ghost use Rattle.typing_rules.specs.FileScope.{file_scope, is_known};
ghost use Rattle.typing_rules.specs.Functions.{function_number};
ghost use Rattle.typing_rules.specs.Statements.{innermost};
ghost use Rattle.typing_scopes.specs.Blocks.{local_entry};
ghost use Rattle.typing_scopes.specs.Found.{found_entry, found_result, global_entry, file_function_entry};
ghost use Rattle.typing_scopes.specs.Known.{known, program, frame};

use crate::block::{Block, BlockLocal};
use crate::known::Known;
use c_words::word::Leaf;
use step_meaning::{CType, Declared, NameKind, Variable};
use typing_rules::fault::TypeFault;

/// What a name stands for.
#[derive(Clone, Copy)]
pub enum Found<'k> {
    /// A variable and its type.
    Variable(Variable, &'k CType),
    /// A function's number, the type of its value, and its parameters.
    Function(u32, &'k CType, &'k [Declared]),
}

/// What the innermost block that has the name says of it; the innermost is the last.
fn found_in_blocks<'k>(blocks: &'k [Block<'_>], name: &[u8]) -> Option<&'k BlockLocal>
    ensures { option_map (λ l. local_entry l.now) result ≡ rules.found (reverse blocks.now) name.now }
{
    match blocks.split_last() {
        None => None,
        Some((inner, outer)) => match inner.find(name) {
            Some(local) => Some(local),
            None => found_in_blocks(outer, name),
        },
    }
}

fn local_found(local: &BlockLocal) -> Found<'_>
    ensures { found_entry result ≡ local_entry local.now }
{
    let variable = Variable {
        kind: NameKind::Local,
        index: local.index,
    };
    Found::Variable(variable, local.ctype.get())
}

impl<'t> Known<'t> {
    /// The function with the name, by its number among the functions.
    pub fn function_number(&self, name: &[u8]) -> Option<u32>
        ensures number { result ≡ function_number (program self.now).functions name.now }
        ensures within { IfSome result (λ n. n < length (program self.now).functions) }
    {
        self.functions.number(name)
    }

    fn global_found(&self, number: u32) -> Found<'_>
        requires { number < length self.now.globals }
        ensures { Some (found_entry result) ≡ global_entry self.now.globals number }
    {
        let declared = &self.globals.as_slice()[number as usize];
        let variable = Variable {
            kind: NameKind::Global,
            index: number,
        };
        Found::Variable(variable, &declared.ctype)
    }

    fn function_found(&self, number: u32) -> Found<'_>
        requires { number < length self.now.functions }
        ensures { Some (found_entry result) ≡ file_function_entry self.now.functions number }
    {
        let function = &self.functions.as_slice()[number as usize];
        let locals = function.locals.as_slice();
        let count = (function.params as usize).min(locals.len());
        Found::Function(number, &function.result, &locals[..count])
    }

    /// What the name stands for at file scope: a variable, or else a function.
    fn found_in_file(&self, name: &[u8]) -> Option<Found<'_>>
        ensures { option_map found_entry result ≡ rules.found_in (file_scope (program self.now)) name.now }
    {
        if let Some(number) = self.globals.number(name) {
            return Some(self.global_found(number));
        }
        match self.functions.number(name) {
            Some(number) => Some(self.function_found(number)),
            None => None,
        }
    }

    /// Whether file scope has the name.
    pub fn is_in_file(&self, name: &[u8]) -> bool
        ensures { result ≡ is_known (program self.now) name.now }
    {
        self.globals.has(name) || self.functions.has(name)
    }

    /// Whether the innermost block has the name.
    pub fn is_in_block(&self, name: &[u8]) -> bool
        ensures { result ≡ is_some (rules.found_in (innermost (frame self.now).scopes) name.now) }
    {
        match self.blocks.as_slice().split_last() {
            None => false,
            Some((block, _)) => block.has(name),
        }
    }

    /// What the name stands for (C11 6.5.1, 2).
    pub fn entry(&self, name: &Leaf) -> Result<Found<'_>, TypeFault>
        ensures { Gives (rules.entry (known self.now) name.now) (found_result result) }
    {
        let bytes = self.bytes(name);
        if let Some(local) = found_in_blocks(self.blocks.as_slice(), bytes) {
            return Ok(local_found(local));
        }
        match self.found_in_file(bytes) {
            Some(found) => Ok(found),
            None => Err(TypeFault::Unknown(name.token.place)),
        }
    }
}
