//! Comparisons, and what one leaves of a range.
#![tactic(auto)]

ghost use Rattle.std.specs.Prelude.{◌≡◌, pos, ◌+ℤ◌, ◌-ℤ◌};
ghost use Rattle.std.specs.Int.{int_min, int_max};
ghost use Rattle.c_tree.specs.Value.{IsInt};
ghost use Rattle.leaf_domain.specs.Ranges.{range_of_ends, IsInInt};
ghost use Rattle.leaf_domain.specs.Compares.{cut_of, cut_of_some, mirror_of, negation_of, without_number, raised_past, lowered_past, CutHolds};

use crate::range::Range;

/// A comparison of two numbers.
#[derive(Clone, Copy, Debug, PartialEq, Eq)]
pub enum Compare {
    Lt,
    Le,
    Gt,
    Ge,
    Eq,
    Ne,
}

/// What may remain of `a` without `c` at its ends.
fn without(a: Range, c: i64) -> Range
    requires { IsInInt a }
    ensures { result ≡ without_number a c }
{
    Range::new(raised(a.low, c), lowered(a.high, c))
}

fn raised(low: i64, c: i64) -> i64
    requires { IsInt low }
    ensures { result ≡ raised_past low c }
{
    if low == c { low + 1 } else { low }
}

fn lowered(high: i64, c: i64) -> i64
    requires { IsInt high }
    ensures { result ≡ lowered_past high c }
{
    if high == c { high - 1 } else { high }
}

/// The range to the lesser of a high and what is below `h`.
fn below(a: Range, h: i64) -> Range
    requires { IsInt h }
    ensures { result ≡ range_of_ends a.low (int_min a.high (h -ℤ pos 1)) }
{
    Range::new(a.low, a.high.min(h - 1))
}

/// The range from the greater of a low and what is above `l`.
fn above(a: Range, l: i64) -> Range
    requires { IsInt l }
    ensures { result ≡ range_of_ends (int_max a.low (l +ℤ pos 1)) a.high }
{
    Range::new(a.low.max(l + 1), a.high)
}

/// What may remain of `a` where `a op b` holds for some values. An empty range has none.
pub fn cut(op: Compare, a: Range, b: Range) -> Range
    requires a { IsInInt a }
    requires b { IsInInt b }
    ensures { result ≡ cut_of op a b }
{
    if a.is_empty() || b.is_empty() {
        Range::EMPTY
    } else {
        cut_some(op, a, b)
    }
}

/// What may remain of `a` where `a op b` holds for some values, where neither is empty.
fn cut_some(op: Compare, a: Range, b: Range) -> Range
    requires a { IsInInt a }
    requires b { IsInInt b }
    ensures { result ≡ cut_of_some op a b }
{
    match op {
        Compare::Lt => below(a, b.high),
        Compare::Le => Range::new(a.low, a.high.min(b.high)),
        Compare::Gt => above(a, b.low),
        Compare::Ge => Range::new(a.low.max(b.low), a.high),
        Compare::Eq => a.meet(b),
        Compare::Ne => {
            if b.low == b.high {
                without(a, b.low)
            } else {
                a
            }
        }
    }
}

/// The law of `cut`: each number of `a` for which the comparison holds with a number of `b` remains.
pub fn cut_is_sound()
    ensures { CutHolds }
{}

/// The comparison of the operands the other way round.
pub fn mirror(op: Compare) -> Compare
    ensures { result ≡ mirror_of op }
{
    match op {
        Compare::Lt => Compare::Gt,
        Compare::Le => Compare::Ge,
        Compare::Gt => Compare::Lt,
        Compare::Ge => Compare::Le,
        Compare::Eq => Compare::Eq,
        Compare::Ne => Compare::Ne,
    }
}

/// The comparison that holds where this one does not.
pub(crate) fn negation(op: Compare) -> Compare
    ensures { result ≡ negation_of op }
{
    match op {
        Compare::Lt => Compare::Ge,
        Compare::Le => Compare::Gt,
        Compare::Gt => Compare::Le,
        Compare::Ge => Compare::Lt,
        Compare::Eq => Compare::Ne,
        Compare::Ne => Compare::Eq,
    }
}
