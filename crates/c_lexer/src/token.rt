//! Tokens, their places, and refusals that name a place.

/// A place in a text: its line, and the byte within the line, both counted from 1.
/// A line ends with its line feed. The place `0:0` means no place.
#[derive(Clone, Copy, Debug, PartialEq, Eq)]
pub struct Place {
    pub line: u32,
    pub column: u32,
}

/// A broken rule, by its number, and the place where it is broken.
#[derive(Clone, Copy, Debug, PartialEq, Eq)]
pub struct Refusal {
    pub code: u16,
    pub place: Place,
}

/// The suffix of an integer constant (C11 6.4.4.1): none, `u`, `l`, or both.
#[derive(Clone, Copy, Debug, PartialEq, Eq)]
pub enum IntSuffix {
    Plain,
    U,
    L,
    UL,
}

/// The types of integer constants (C11 6.4.4.1), of which `int` has 32 bits and `long` has 64.
#[derive(Clone, Copy, Debug, PartialEq, Eq)]
pub enum ConstantType {
    Int,
    UnsignedInt,
    Long,
    UnsignedLong,
}

/// The value of an integer constant, and its type (C11 6.4.4.1).
#[derive(Clone, Copy, Debug, PartialEq, Eq)]
pub struct IntegerConstant {
    pub value: u64,
    pub kind: ConstantType,
}

/// What a token is (C11 6.4).
#[derive(Clone, Copy, Debug, PartialEq, Eq)]
pub enum TokenKind {
    /// An identifier that is no keyword.
    Name,
    /// An integer constant.
    Number(IntSuffix),
    /// A character constant.
    Character,
    /// A keyword of C11.
    Keyword,
    Punctuation,
    /// A backslash and a name, a word of ACSL.
    Backslash,
    /// A percent sign and a name, a directive of Ya.
    Percent,
    /// A string, in annotations alone.
    Text,
    /// An annotation that begins with `meta`.
    Meta,
    /// An annotation that begins with `ghost`.
    Ghost,
    /// An annotation that begins with `assert`.
    Assert,
}

/// A token: its text is `text[first..past]`, in bytes from 0. The text of an annotation is its inside.
#[derive(Clone, Copy, Debug, PartialEq, Eq)]
pub struct Token {
    pub kind: TokenKind,
    pub first: u32,
    pub past: u32,
    pub place: Place,
}
