//! Declarations: what is known from a point of the text on. After an error what is known is no longer used.

ghost use Rattle.std.specs.Prelude.{◌≡◌, ◌<◌, ℕ, get_or, false, [], ◌∷◌, ◌++◌, length, is_some, Ok, None, IfOk, OnOk};
ghost use Rattle.typing_rules.specs.Checked.{Gives};
ghost use Rattle.typing_rules.specs.Environment as rules;
ghost use Rattle.typing_rules.specs.FileScope.{is_known, with_variable, with_values};
ghost use Rattle.typing_rules.specs.Functions.{function_number, replaced};
ghost use Rattle.typing_rules.specs.Statements.{innermost, opened, closed, with_name};
ghost use Rattle.typing_rules.specs.Structs.{with_layout};
ghost use Rattle.typing_scopes.specs.Blocks.{local_variable};
ghost use Rattle.typing_scopes.specs.Known.{state, program, frame};
ghost use Rattle.typing_scopes.specs.States.{named, no_frame, first_frame, with_local, with_parameter};

use crate::block::{Block, BlockLocal};
use crate::known::Known;
use sqlite_items::Items;
use std::alloc::Global;
use std::{mem, str};
use step_meaning::{Declared, Function, Layout, Text, Value};
use typing_operands::part::copied;
use typing_rules::fault::TypeFault;
use typing_rules::operand::TypePart;

/// The name, as a core has it. The names of a text that was lexed are ASCII; bytes that are no UTF-8 find no room.
pub fn text_of(alloc: Global, name: &[u8]) -> Result<Text, TypeFault>
    ensures { Gives (Ok name.now) result }
{
    match str::from_utf8(name) {
        Ok(name) => {
            let name = String::from_str(alloc, name)?;
            Ok(Text::from_string(name))
        }
        Err(_) => Err(TypeFault::Memory),
    }
}

/// A variable, parameter or member with this name and type.
pub fn declared(alloc: Global, name: &[u8], ctype: TypePart) -> Result<Declared, TypeFault>
    ensures { Gives (Ok (named name.now ctype)) result }
{
    let name = text_of(alloc, name)?;
    Ok(Declared {
        name,
        ctype: ctype.into_boxed().into_inner(),
    })
}

impl<'t> Known<'t> {
    // ---- file scope

    /// Notes that the function with the name has a body somewhere in the text.
    pub fn add_body(&mut self, name: &'t [u8]) -> Result<(), TypeFault>
        ensures added { OnOk result (state self.new ≡ record (state self.old) { program = record (program self.old) { bodies = (program self.old).bodies ++ name.now ∷ [] } }) }
        ensures memory { Gives (Ok tt) result }
    {
        self.bodies.push(name)
    }

    /// A variable of file scope, known from here on.
    pub fn add_global(
        &mut self,
        alloc: Global,
        name: &'t [u8],
        ctype: TypePart,
    ) -> Result<(), TypeFault>
        requires { is_known (program self.old) name.now ≡ false }
        ensures added { OnOk result (state self.new ≡ record (state self.old) { program = with_variable (program self.old) name.now ctype }) }
        ensures memory { Gives (Ok tt) result }
    {
        let declared = declared(alloc, name, ctype)?;
        self.globals.push(name, declared)
    }

    /// What the cells of the next variable of file scope start with.
    pub fn add_values(&mut self, values: Items<Value>) -> Result<(), TypeFault>
        ensures added { OnOk result (state self.new ≡ record (state self.old) { program = with_values (program self.old) values }) }
        ensures memory { Gives (Ok tt) result }
    {
        self.initial.push(values)?;
        Ok(())
    }

    /// A function, known from here on.
    pub fn add_function(&mut self, name: &'t [u8], function: Function) -> Result<(), TypeFault>
        requires named { function.name ≡ name.now }
        requires new { function_number (program self.old).functions name.now ≡ None }
        ensures added { OnOk result (state self.new ≡ record (state self.old) { program = record (program self.old) { functions = (program self.old).functions ++ function ∷ [] } }) }
        ensures memory { Gives (Ok tt) result }
    {
        self.functions.push(name, function)
    }

    /// The function with this number, with its body.
    pub fn set_function(&mut self, number: u32, function: Function)
        requires within { number < length (program self.old).functions }
        requires named { function.name ≡ (get_or (program self.old).functions number function).name }
        ensures { state self.new ≡ record (state self.old) { program = record (program self.old) { functions = replaced number function (program self.old).functions } } }
    {
        self.functions.set(number, function);
    }

    // ---- structs

    /// The tag of a struct, known from here on. The struct is complete only later.
    pub fn open_struct(&mut self, tag: &'t [u8]) -> Result<(), TypeFault>
        requires { rules.contains self.old.tags tag.now ≡ false }
        ensures added { OnOk result (state self.new ≡ record (state self.old) { tags = self.old.tags ++ tag.now ∷ [] }) }
        ensures memory { Gives (Ok tt) result }
    {
        self.tags.push(tag)
    }

    /// The struct with the tag is complete, with these members.
    pub fn complete_struct(
        &mut self,
        alloc: Global,
        tag: &[u8],
        members: Items<Declared>,
    ) -> Result<(), TypeFault>
        ensures added { OnOk result (state self.new ≡ record (state self.old) { program = with_layout (program self.old) tag.now members }) }
        ensures memory { Gives (Ok tt) result }
    {
        let tag = text_of(alloc, tag)?;
        self.layouts.push(Layout { tag, members })?;
        Ok(())
    }

    // ---- functions

    /// A function begins, whose parameters are to come: no local is known, and its scope is open.
    pub fn start_function(&mut self, alloc: Global) -> Result<(), TypeFault>
        ensures added { OnOk result (state self.new ≡ record (state self.old) { frame = first_frame }) }
        ensures memory { Gives (Ok tt) result }
    {
        self.locals = Items::new(alloc);
        self.blocks.clear();
        self.open_block(alloc)
    }

    /// The function ends. It had these parameters and locals.
    pub fn end_function(&mut self, alloc: Global) -> Items<Declared>
        ensures locals { result ≡ (frame self.old).locals }
        ensures state { state self.new ≡ record (state self.old) { frame = no_frame } }
    {
        self.blocks.clear();
        mem::replace(&mut self.locals, Items::new(alloc))
    }

    /// A block begins.
    pub fn open_block(&mut self, alloc: Global) -> Result<(), TypeFault>
        ensures added { OnOk result (state self.new ≡ record (state self.old) { frame = opened (frame self.old) }) }
        ensures memory { Gives (Ok tt) result }
    {
        match self.blocks.push(Block::new(alloc)) {
            Ok(()) => Ok(()),
            Err(_) => Err(TypeFault::Memory),
        }
    }

    /// The innermost block ends.
    pub fn close_block(&mut self)
        ensures { state self.new ≡ record (state self.old) { frame = closed (frame self.old) } }
    {
        let _block = self.blocks.pop();
    }

    /// A name of the innermost block.
    fn declare_in_block(&mut self, name: &'t [u8], local: BlockLocal) -> Result<(), TypeFault>
        requires open { 0 < length self.old.blocks.items }
        requires new { is_some (rules.found_in (innermost (frame self.old).scopes) name.now) ≡ false }
        ensures added { OnOk result (state self.new ≡ record (state self.old) { frame = record (frame self.old) { scopes = with_name name.now (local_variable local.index) local.ctype (frame self.old).scopes } }) }
        ensures memory { Gives (Ok tt) result }
    {
        let last = self.blocks.len() - 1;
        self.blocks[last].push(name, local)
    }

    /// A name of a first block.
    fn declare_in_first(
        &mut self,
        alloc: Global,
        name: &'t [u8],
        local: BlockLocal,
    ) -> Result<(), TypeFault>
        requires { length self.old.blocks.items ≡ 0 }
        ensures added { OnOk result (state self.new ≡ record (state self.old) { frame = record (frame self.old) { scopes = with_name name.now (local_variable local.index) local.ctype (frame self.old).scopes } }) }
        ensures memory { Gives (Ok tt) result }
    {
        self.open_block(alloc)?;
        self.declare_in_block(name, local)
    }

    /// A name of the innermost block, or of a first block where there is none.
    fn declare(&mut self, alloc: Global, name: &'t [u8], local: BlockLocal) -> Result<(), TypeFault>
        requires { is_some (rules.found_in (innermost (frame self.old).scopes) name.now) ≡ false }
        ensures added { OnOk result (state self.new ≡ record (state self.old) { frame = record (frame self.old) { scopes = with_name name.now (local_variable local.index) local.ctype (frame self.old).scopes } }) }
        ensures memory { Gives (Ok tt) result }
    {
        if self.blocks.is_empty() {
            self.declare_in_first(alloc, name, local)
        } else {
            self.declare_in_block(name, local)
        }
    }

    /// The number of the next local, and one more local without a name in any scope.
    fn next_local(&mut self, alloc: Global, name: &[u8], ctype: TypePart) -> Result<u32, TypeFault>
        ensures number { Gives (Ok (length (frame self.old).locals)) result }
        ensures added { OnOk result (state self.new ≡ record (state self.old) { frame = record (frame self.old) { locals = (frame self.old).locals ++ named name.now ctype ∷ [] } }) }
    {
        let number = self.locals.len();
        if number > u32::MAX as usize {
            return Err(TypeFault::Memory);
        }
        let declared = declared(alloc, name, ctype)?;
        self.locals.push(declared)?;
        Ok(number as u32)
    }

    /// A local, known from here on, and its number (C11 6.2.1, 7).
    pub fn add_local(
        &mut self,
        alloc: Global,
        name: &'t [u8],
        ctype: TypePart,
    ) -> Result<u32, TypeFault>
        requires { is_some (rules.found_in (innermost (frame self.old).scopes) name.now) ≡ false }
        ensures number { Gives (Ok (length (frame self.old).locals)) result }
        ensures added { OnOk result (state self.new ≡ record (state self.old) { frame = with_local name.now ctype (frame self.old) }) }
    {
        let again = copied(alloc, ctype.get())?;
        let index = self.next_local(alloc, name, ctype)?;
        self.declare(
            alloc,
            name,
            BlockLocal {
                index,
                ctype: again,
            },
        )?;
        Ok(index)
    }

    /// A parameter, known from here on where it has a name; one without a name has no bytes.
    pub fn add_parameter(
        &mut self,
        alloc: Global,
        name: &'t [u8],
        ctype: TypePart,
    ) -> Result<(), TypeFault>
        requires { is_some (rules.found_in (innermost (frame self.old).scopes) name.now) ≡ false }
        ensures added { OnOk result (state self.new ≡ record (state self.old) { frame = with_parameter name.now ctype (frame self.old) }) }
        ensures memory { Gives (Ok tt) result }
    {
        if name.is_empty() {
            self.next_local(alloc, name, ctype)?;
        } else {
            self.add_local(alloc, name, ctype)?;
        }
        Ok(())
    }
}
