//! Words and signs that a state keeps.
#![tactic(auto)]

ghost use Rattle.std.specs.Prelude.{◌≡◌};
ghost use Rattle.reading_states.specs.Views.{as_words, is_second_word};

use c_grammar::Sign;

/// A prefix of an expression.
#[derive(Clone, Copy, Drop)]
pub enum Prefix {
    Positive,
    Negative,
    Inverse,
}

/// What a compound assignment, as `+=`, makes of a variable and an expression.
#[derive(Clone, Copy, Drop)]
pub enum Update {
    Sum,
    Difference,
    Product,
    Quotient,
    Remainder,
}

/// `++` and `--`.
#[derive(Clone, Copy, Drop)]
pub enum Count {
    Raise,
    Lower,
}

/// What stands before the type of a declaration.
#[derive(Clone, Copy, Drop)]
pub enum Leading {
    NoWord,
    StaticWord,
    ExternWord,
    ConstWord,
}

/// What a declaration declares: variables, constants, or constants that are counted, of which the last one before has this
/// value.
#[derive(Clone, Copy, Drop)]
pub enum Qualifier {
    Unqualified,
    Constant,
    Counted(i64),
}

/// The words of a type so far: `int`, `signed`, or all.
#[derive(Clone, Copy, Drop)]
pub enum TypeWords {
    OneInt,
    OneSigned,
    WholeType,
}

/// What of a static declaration in `main` is read: `static`; `const` behind it; words of its type; what stands before a name;
/// a name; `=`; `-`; and a number.
#[derive(Clone, Copy, Drop)]
pub enum StaticPart {
    BehindStatic,
    BehindStaticConst,
    BehindStaticType { kind: Qualifier, words: TypeWords },
    BeforeStaticName(Qualifier),
    BehindStaticName(Qualifier),
    BehindStaticEquals(Qualifier),
    BehindStaticMinus(Qualifier),
    BehindStaticNumber(Qualifier),
}

/// Whether the sign is the second word of a type that has one word so far.
pub fn is_second_word(sign: Sign, words: TypeWords) -> bool
    ensures { result ≡ is_second_word sign (as_words words) }
{
    matches!(
        (sign, words),
        (Sign::Signed, TypeWords::OneInt) | (Sign::Int, TypeWords::OneSigned)
    )
}
