//! Whether an expression may stop, by the kind of its node.
#![tactic(auto)]

ghost use Rattle.std.specs.Prelude.{◌≡◌, ◌&&◌, ◌||◌, not};
ghost use Rattle.leaf_domain.specs.declared.range.Range as range;
ghost use Rattle.c_tree.specs.declared.tree.Mode as modes;
ghost use Rattle.c_tree.specs.declared.tree.Op.TheVariants.{Div, Rem};
ghost use Rattle.leaf_domain.specs.Ranges.{is_empty_range};
ghost use Rattle.leaf_domain.specs.Stops.{has_number, may_leave, stops_at, either_stops, is_of_value};
ghost use Rattle.leaf_domain.specs.Evaluations.{has_kind, no_stops, stops_where_some, joined_stops, negation_stops, operator_stops};

use crate::evaluation::is_inside;
use crate::leaf::Leaf;
use crate::range::Range;
use c_tree::{Kind, Mode, Op};

/// The kinds with which an expression may stop.
#[derive(Clone, Copy, Debug)]
pub struct Stops {
    pub overflow: bool,
    pub zero_divisor: bool,
}

/// Whether the kind is among them.
pub(crate) fn has_kind(stops: Stops, kind: Kind) -> bool
    ensures { result ≡ has_kind stops kind }
{
    match kind {
        Kind::Overflow => stops.overflow,
        Kind::ZeroDivisor => stops.zero_divisor,
        Kind::Assertion => false,
    }
}

/// Whether expressions stop with the kind.
pub(crate) fn is_of_value(kind: Kind) -> bool
    ensures { result ≡ is_of_value kind }
{
    match kind {
        Kind::Assertion => false,
        _ => true,
    }
}

/// No kind.
pub(crate) fn no_stops() -> Stops
    ensures { result ≡ no_stops }
{
    Stops {
        overflow: false,
        zero_divisor: false,
    }
}

/// These kinds, and none at Nothing.
pub(crate) fn stops_where_some<L: Leaf>(leaf: &L, stops: Stops) -> Stops
    ensures { result ≡ stops_where_some (L.value leaf.now) stops }
{
    if leaf.is_nothing() { no_stops() } else { stops }
}

/// The kinds of both.
pub(crate) fn joined_stops(a: Stops, b: Stops) -> Stops
    ensures { result ≡ joined_stops a b }
{
    Stops {
        overflow: a.overflow || b.overflow,
        zero_divisor: a.zero_divisor || b.zero_divisor,
    }
}

fn has_number(n: i64, a: Range) -> bool
    ensures { result ≡ has_number n a }
{
    a.low <= n && n <= a.high
}

/// Whether a negation, a sum, a difference or a product of this range overflows.
fn may_leave(mode: Mode, kind: Kind, raw: Range) -> bool
    ensures { result ≡ may_leave mode kind raw }
{
    match (mode, kind) {
        (Mode::Stop, Kind::Overflow) => !is_inside(raw),
        _ => false,
    }
}

/// Whether an arithmetic operator itself may stop, by its range before clipping and those of its
/// operands.
fn stops_at(mode: Mode, kind: Kind, op: Op, raw: Range, left: Range, right: Range) -> bool
    ensures { result ≡ stops_at mode kind op raw left right }
{
    match op {
        Op::Add | Op::Sub | Op::Mul => may_leave(mode, kind, raw),
        Op::Div => quotient_stops(kind, raw, right),
        Op::Rem => remainder_stops(kind, left, right),
        _ => false,
    }
}

fn quotient_stops(kind: Kind, raw: Range, right: Range) -> bool
    ensures { (mode : modes.Mode) (left : range.Range) → result ≡ stops_at mode kind Div raw left right }
{
    match kind {
        Kind::Overflow => !is_inside(raw),
        Kind::ZeroDivisor => has_number(0, right),
        Kind::Assertion => false,
    }
}

fn remainder_stops(kind: Kind, left: Range, right: Range) -> bool
    ensures { (mode : modes.Mode) (raw : range.Range) → result ≡ stops_at mode kind Rem raw left right }
{
    match kind {
        Kind::Overflow => has_number(Range::INT.low, left) && has_number(-1, right),
        Kind::ZeroDivisor => has_number(0, right),
        Kind::Assertion => false,
    }
}

/// Whether an operand stops, or the operator where both have a value. The right one is looked at
/// only where the left one has a value.
fn either_stops(left: bool, right: bool, own: bool, r: Range, s: Range) -> bool
    ensures { result ≡ either_stops left right own r s }
{
    left || !r.is_empty() && right || !(r.is_empty() || s.is_empty()) && own
}

/// Whether the operand of a negation stops, or the negation where the operand has a value.
fn negation_stops_with(mode: Mode, kind: Kind, raw: Range, operand: bool, r: Range) -> bool
    ensures { result ≡ (operand || (not (is_empty_range r) && may_leave mode kind raw)) }
{
    operand || !r.is_empty() && may_leave(mode, kind, raw)
}

/// The kinds with which a negation of this range may stop, by those of its operand and its range.
pub(crate) fn negation_stops(mode: Mode, raw: Range, operand: Stops, r: Range) -> Stops
    ensures { result ≡ negation_stops mode raw operand r }
{
    Stops {
        overflow: negation_stops_with(mode, Kind::Overflow, raw, operand.overflow, r),
        zero_divisor: negation_stops_with(mode, Kind::ZeroDivisor, raw, operand.zero_divisor, r),
    }
}

/// The kinds with which an operator of this range may stop, by those of its operands and their
/// ranges.
pub(crate) fn operator_stops(
    mode: Mode,
    op: Op,
    raw: Range,
    left: Stops,
    right: Stops,
    r: Range,
    s: Range,
) -> Stops
    ensures { result ≡ operator_stops mode op raw left right r s }
{
    let overflow = stops_at(mode, Kind::Overflow, op, raw, r, s);
    let zero_divisor = stops_at(mode, Kind::ZeroDivisor, op, raw, r, s);
    Stops {
        overflow: either_stops(left.overflow, right.overflow, overflow, r, s),
        zero_divisor: either_stops(left.zero_divisor, right.zero_divisor, zero_divisor, r, s),
    }
}
