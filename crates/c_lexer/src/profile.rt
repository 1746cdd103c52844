//! The kinds of texts that have tokens.

/// Which blanks, comments and tokens a text has.
#[derive(Clone, Copy, Debug, PartialEq, Eq)]
pub enum Profile {
    /// A C program, with line markers and annotations.
    C,
    /// The inside of an annotation.
    Annotation,
    /// A Ya text.
    Ya,
}

impl Profile {
    ghost use Rattle.std.specs.Prelude.{◌≡◌};
    ghost use Rattle.c_lexer.specs.Lexemes.{is_specification, is_annotation, is_ya};

    pub(crate) fn is_specification(self) -> bool
        ensures { result ≡ is_specification self }
    {
        match self {
            Profile::C => false,
            Profile::Annotation | Profile::Ya => true,
        }
    }

    pub(crate) fn is_annotation(self) -> bool
        ensures { result ≡ is_annotation self }
    {
        match self {
            Profile::Annotation => true,
            Profile::C | Profile::Ya => false,
        }
    }

    pub(crate) fn is_ya(self) -> bool
        ensures { result ≡ is_ya self }
    {
        match self {
            Profile::Ya => true,
            Profile::C | Profile::Annotation => false,
        }
    }
}
