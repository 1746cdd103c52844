//! The trees of the first form.

/// A program of the first form. Variables and functions are named by their places in `globals` and in `functions`, from 0.
#[derive(Drop)]
pub struct FirstTree {
    pub globals: Vec<String>,
    pub property: Option<FirstProperty>,
    /// The functions in the order of the text; `main` is the last.
    pub functions: Vec<FirstFunction>,
}

/// The property that no function writes a variable.
#[derive(Drop)]
pub struct FirstProperty {
    pub name: String,
    pub variable: u32,
}

/// A function without parameters and result, but for `main`, which returns 0 after its body.
#[derive(Drop)]
pub struct FirstFunction {
    pub name: String,
    pub body: Vec<FirstStmt>,
}

#[derive(Clone, Copy, Debug)]
pub enum FirstStmt {
    /// `x = n;`
    Assign(u32, i128),
    /// `f();`
    Call(u32),
    /// `;`
    Empty,
    /// `/*@ assert weave_1: \separated(&y, &x); */`, of y and x
    Assert(u32, u32),
}
