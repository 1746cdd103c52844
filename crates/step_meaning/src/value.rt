use sqlite_items::{Boxed, Items};

/// The integer types (C11 6.2.5), with the widths of LP64. Plain `char` is signed.
#[derive(Clone, Copy, PartialEq, Eq)]
pub enum IntKind {
    /// `char`, 8 bits, signed.
    Char,
    /// `signed char`, 8 bits.
    SChar,
    /// `unsigned char`, 8 bits.
    UChar,
    /// `short`, 16 bits.
    Short,
    /// `unsigned short`, 16 bits.
    UShort,
    /// `int`, 32 bits.
    Int,
    /// `unsigned int`, 32 bits.
    UInt,
    /// `long`, 64 bits.
    Long,
    /// `unsigned long`, 64 bits.
    ULong,
}

/// A type (C11 6.2.5).
#[derive(Drop)]
pub enum CType {
    /// `void`: of a function without a result, and behind a pointer.
    Void,
    /// An integer type.
    Int(IntKind),
    /// A pointer to the type.
    Pointer(Boxed<CType>),
    /// An array of so many elements of the type.
    Array(Boxed<CType>, u32),
    /// A struct, by its number among the core's layouts.
    Struct(u32),
}

/// What a variable is, which says where its cells are kept.
#[derive(Clone, Copy, PartialEq, Eq)]
pub enum NameKind {
    /// A variable of file scope.
    Global,
    /// A parameter or a variable of a function's block.
    Local,
    /// A block of the heap, which `malloc` made (C11 7.22.3). Its number stands in `activation`, and `index` is 0.
    Heap,
    /// A variable declared `register`: no part of the memory.
    Register,
    /// A ghost variable of file scope (ACSL, ghost variables and statements).
    GhostGlobal,
    /// A ghost variable of a function.
    GhostLocal,
}

/// The name of a variable or heap block in a run. A name of file scope has activation 0.
#[derive(Clone, Copy, PartialEq, Eq)]
pub struct Name {
    /// What the variable is.
    pub kind: NameKind,
    /// The number of activations that were made before the variable's own; of a heap block, that of the blocks made before it.
    pub activation: u64,
    /// The variable's number among those of its kind in the program or in its function.
    pub index: u32,
}

/// A scalar value.
#[derive(Clone, Copy, PartialEq, Eq)]
pub enum Value {
    /// An integer.
    Int(i128),
    /// The null pointer (C11 6.3.2.3).
    Null,
    /// A pointer into a variable, at an offset in cells.
    Pointer(Name, u32),
}

/// The content of one scalar of the memory.
#[derive(Clone, Copy, PartialEq, Eq)]
pub enum Cell {
    /// No value yet: indeterminate (C11 6.7.9, 10).
    Nothing,
    /// A value.
    Holds(Value),
}

/// How a run fails: behaviour that C11 leaves undefined, by name.
#[derive(Clone, Copy, PartialEq, Eq)]
pub enum RunFault {
    /// A signed result outside its type (C11 6.5, 5).
    Overflow,
    /// `/` or `%` by 0 (C11 6.5.5).
    ZeroDivisor,
    /// A shift by a negative count, or by the width or more (C11 6.5.7).
    ShiftRange,
    /// A pointer that leaves its variable, or order or difference of pointers that have none (C11 6.5.6, 6.5.8).
    Pointer,
    /// An access that isn't allowed, or an address on a variable whose lifetime has ended (C11 6.2.4, 6.5.3.2).
    Invalid,
    /// The use of a variable that holds no value (C11 6.3.2.1).
    Uninit,
    /// The `}` of a function with a value is reached (C11 6.9.1).
    NoReturn,
    /// `free` of a pointer that is neither null nor the beginning of a live heap block (C11 7.22.3.3).
    BadFree,
}

/// What a step of a run does.
#[derive(Drop)]
pub enum Action {
    /// The activation of the function begins, with these arguments.
    Enter(u32, Items<Value>),
    /// The caller calls the function, its arguments being evaluated.
    Call(u32),
    /// The function returns, with a value where it has one.
    Return(u32, Option<Value>),
    /// A read at the pointer is attempted.
    Read(Value),
    /// A write of the second value at the pointer is attempted.
    Write(Value, Value),
    /// `getchar` is called (C11 7.21.7.6).
    Input,
    /// `putchar` is called with this byte (C11 7.21.7.8).
    Output(u8),
    /// `malloc` is called for so many objects and gives the pointer; the new block has so many cells, and 0 where the pointer is null (C11 7.22.3.4).
    Malloc(u64, Value, u32),
    /// `free` is called with the pointer (C11 7.22.3.3).
    Free(Value),
    /// A turn of a loop begins.
    Turn,
    /// The run ends by the fault.
    Halt(RunFault),
}
