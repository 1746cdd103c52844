//! Classes of bytes, and the keywords of C.

ghost use Rattle.std.specs.Prelude.{◌≡◌};
ghost use Rattle.std.specs.List.{list_any};
ghost use Rattle.std.specs.Str.{bytes_eq};
ghost use Rattle.c_lexer.specs.Bytes.{is_blank, is_digit, is_letter, is_word, is_number_part, is_keyword};

/// Space, horizontal tab, line feed, vertical tab, form feed or carriage return.
pub fn is_blank(byte: u8) -> bool
    ensures { result ≡ is_blank byte }
{
    matches!(byte, b' ' | b'\t'..=b'\r')
}

/// A decimal digit.
pub fn is_digit(byte: u8) -> bool
    ensures { result ≡ is_digit byte }
{
    matches!(byte, b'0'..=b'9')
}

/// A letter or the underscore, which may begin a name (C11 6.4.2.1).
pub fn is_letter(byte: u8) -> bool
    ensures { result ≡ is_letter byte }
{
    matches!(byte, b'a'..=b'z' | b'A'..=b'Z' | b'_')
}

/// A letter, the underscore or a digit.
pub fn is_word(byte: u8) -> bool
    ensures { result ≡ is_word byte }
{
    is_letter(byte) || is_digit(byte)
}

/// A letter, the underscore, a digit or the full stop, which may follow the digit that begins a number.
pub fn is_number_part(byte: u8) -> bool
    ensures { result ≡ is_number_part byte }
{
    is_word(byte) || byte == b'.'
}

static KEYWORDS: [&str; 44] = [
    "auto",
    "break",
    "case",
    "char",
    "const",
    "continue",
    "default",
    "do",
    "double",
    "else",
    "enum",
    "extern",
    "float",
    "for",
    "goto",
    "if",
    "inline",
    "int",
    "long",
    "register",
    "restrict",
    "return",
    "short",
    "signed",
    "sizeof",
    "static",
    "struct",
    "switch",
    "typedef",
    "union",
    "unsigned",
    "void",
    "volatile",
    "while",
    "_Alignas",
    "_Alignof",
    "_Atomic",
    "_Bool",
    "_Complex",
    "_Generic",
    "_Imaginary",
    "_Noreturn",
    "_Static_assert",
    "_Thread_local",
];

pub(crate) fn is_among(words: &[&str], word: &[u8]) -> bool
    ensures { result ≡ list_any (λ known. bytes_eq word.now known.now) words.now }
{
    words.iter().any(|known| word == known.as_bytes())
}

/// Whether the word is a keyword of C11 (6.4.1).
#[tactic(auto, unfolding(crate::specs::Bytes::is_keyword, crate::specs::Bytes::keywords))]
pub fn is_keyword(word: &[u8]) -> bool
    ensures { result ≡ is_keyword word.now }
{
    is_among(&KEYWORDS, word)
}

#[cfg(test)]
mod tests {
    use super::*;

    #[test]
    fn tells_keywords(rt: HostRuntime) {
        let cases = [
            ("auto", true),
            ("while", true),
            ("_Thread_local", true),
            ("sizeof", true),
            ("", false),
            ("main", false),
            ("Int", false),
            ("in", false),
            ("ints", false),
            ("_Static_asserts", false),
            ("asm", false),
        ];
        for (word, want) in cases {
            assert_eq!(rt; is_keyword(word.as_bytes()), want, "at {word}");
        }
    }
}
