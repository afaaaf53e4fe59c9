//! The operators of conditions.
#![tactic(auto)]

ghost use Rattle.std.specs.Prelude.{◌≡◌, suc};
ghost use Rattle.cpp_conditions.specs.Grammar.{tighter};

/// An operator between two operands: `*`, `+`, `-`, `<`, `<=`, `>`, `>=`, `==`, `!=`, `&&` and `||`.
#[derive(Clone, Copy, Debug, PartialEq, Eq)]
pub enum Operator {
    Times,
    Plus,
    Minus,
    Less,
    AtMost,
    Greater,
    AtLeast,
    Equal,
    Differs,
    Both,
    Either,
}

/// An operator in front of its operand: `+`, `-` and `!`.
#[derive(Clone, Copy, Debug, PartialEq, Eq)]
pub enum Prefix {
    Positive,
    Negative,
    Inverse,
}

impl Operator {
    /// How loosely it binds: 1 for a product, up to 6 for `||`.
    pub(crate) fn level(self) -> u32
        ensures { result ≡ suc (tighter self) }
    {
        match self {
            Operator::Times => 1,
            Operator::Plus | Operator::Minus => 2,
            Operator::Less | Operator::AtMost | Operator::Greater | Operator::AtLeast => 3,
            Operator::Equal | Operator::Differs => 4,
            Operator::Both => 5,
            Operator::Either => 6,
        }
    }
}
