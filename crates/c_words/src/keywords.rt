//! Words that are no names.
#![tactic(auto)]

ghost use Rattle.std.specs.Prelude.{◌≡◌, map};
ghost use Rattle.std.specs.Str.{bytes_eq};
ghost use Rattle.c_words.specs.Keywords as tables;

/// The keywords of C (ISO/IEC 9899:2011, 6.4.1), with `_Imaginary` (annex G).
const KEYWORDS: [&str; 44] = [
    "auto",
    "break",
    "case",
    "char",
    "const",
    "continue",
    "default",
    "do",
    "double",
    "else",
    "enum",
    "extern",
    "float",
    "for",
    "goto",
    "if",
    "inline",
    "int",
    "long",
    "register",
    "restrict",
    "return",
    "short",
    "signed",
    "sizeof",
    "static",
    "struct",
    "switch",
    "typedef",
    "union",
    "unsigned",
    "void",
    "volatile",
    "while",
    "_Alignas",
    "_Alignof",
    "_Atomic",
    "_Bool",
    "_Complex",
    "_Generic",
    "_Imaginary",
    "_Noreturn",
    "_Static_assert",
    "_Thread_local",
];

/// The other words with a meaning of their own in a family of programs.
const OTHER_WORDS: [&str; 5] = ["main", "assert", "input", "defined", "NDEBUG"];

/// Whether two texts are equal.
fn is(word: &[u8], text: &str) -> bool
    ensures { result ≡ bytes_eq word.now text.now }
{
    word == text.as_bytes()
}

/// Whether a word is one of these.
pub fn is_among(words: &[&str], word: &[u8]) -> bool
    ensures { result ≡ tables.is_among (map (λ w. w.now) words.now) word.now }
{
    for other in words {
        if is(word, *other) {
            return true;
        }
    }
    false
}

/// A keyword of C.
pub fn is_keyword(word: &[u8]) -> bool
    ensures { result ≡ tables.is_keyword word.now }
{
    is_among(&KEYWORDS, word)
}

/// A keyword of C, or another word with a meaning of its own, which no feature is called.
pub fn is_reserved(word: &[u8]) -> bool
    ensures { result ≡ tables.is_reserved word.now }
{
    is_among(&KEYWORDS, word) || is_among(&OTHER_WORDS, word)
}
