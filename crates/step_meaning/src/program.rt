use crate::stmt::Stmt;
use crate::text::Text;
use crate::value::{CType, Value};
use sqlite_items::Items;

/// A declared variable, parameter or member (C11 6.7).
#[derive(Drop)]
pub struct Declared {
    /// Its name; empty for a parameter of a function without body.
    pub name: Text,
    /// Its type.
    pub ctype: CType,
}

/// A function (C11 6.9.1).
pub struct Function {
    /// Its name.
    pub name: Text,
    /// The type of its value.
    pub result: CType,
    /// How many of the locals are parameters; these come first.
    pub params: u32,
    /// Its parameters, then the variables of its blocks in text order.
    pub locals: Items<Declared>,
    /// Its `register` variables.
    pub registers: Items<Declared>,
    /// Its ghost variables.
    pub ghosts: Items<Declared>,
    /// Its statements, or none where it is only declared.
    pub body: Option<Items<Stmt>>,
}

impl Drop for Function {
    fn drop(self) {
        let Function {
            name: _name,
            result: _result,
            params: _params,
            locals: _locals,
            registers: _registers,
            ghosts: _ghosts,
            body: _body,
        } = self;
    }
}

/// A struct's members (C11 6.7.2.1).
pub struct Layout {
    /// Its tag.
    pub tag: Text,
    /// Its members in order.
    pub members: Items<Declared>,
}

impl Drop for Layout {
    fn drop(self) {
        let Layout {
            tag: _tag,
            members: _members,
        } = self;
    }
}

/// A whole program, typed and with all names resolved to numbers.
pub struct Core {
    /// The structs, in order of definition.
    pub layouts: Items<Layout>,
    /// The variables of file scope, in order of first declaration.
    pub globals: Items<Declared>,
    /// The values that the cells of each of them start with.
    pub initial: Items<Items<Value>>,
    /// The ghost variables of file scope.
    pub ghosts: Items<Declared>,
    /// The functions: `getchar`, `putchar`, `malloc`, `free`, then the others in order of first declaration.
    pub functions: Items<Function>,
    /// The number of `main`.
    pub start: u32,
}

impl Drop for Core {
    fn drop(self) {
        let Core {
            layouts: _layouts,
            globals: _globals,
            initial: _initial,
            ghosts: _ghosts,
            functions: _functions,
            start: _start,
        } = self;
    }
}

/// The code that follows one monitor along a run.
pub struct Hooks {
    /// The monitor's number, from 1.
    pub monitor: u32,
    /// The number of the first of `globals` among the ghost variables of file scope.
    pub first: u32,
    /// The ghost variables of file scope that are its own.
    pub globals: Items<Declared>,
    /// The places where code stands.
    pub points: Items<HookPoint>,
}

impl Drop for Hooks {
    fn drop(self) {
        let Hooks {
            monitor: _monitor,
            first: _first,
            globals: _globals,
            points: _points,
        } = self;
    }
}

/// Code at one kind of step of one function.
pub struct HookPoint {
    /// The function's number.
    pub function: u32,
    /// The kind of step.
    pub place: HookPlace,
    /// The ghost variables of the function that are its own.
    pub saves: Items<Declared>,
    /// Ghost code and assertions.
    pub code: Items<Stmt>,
}

impl Drop for HookPoint {
    fn drop(self) {
        let HookPoint {
            function: _function,
            place: _place,
            saves: _saves,
            code: _code,
        } = self;
    }
}

/// The kinds of step before which code may stand.
#[derive(Clone, Copy, PartialEq, Eq)]
pub enum HookPlace {
    /// The function is entered.
    Enter,
    /// The function returns.
    Return,
    /// It reads the memory.
    Read,
    /// It writes the memory.
    Write,
    /// It calls a function, `getchar`, `putchar`, `malloc` and `free` included.
    Call,
    /// Every step of it.
    Changed,
}
