//! The steps of a loop on two leaves: the leaf at its head, and what comes in there with it.
#![tactic(auto)]

ghost use Rattle.std.specs.Prelude.{◌≡◌, ◌≤◌, ◌*◌, IfOk, IfSome, IfNone, true, false};
ghost use Rattle.plain_analysis.specs.Loops.{moved_by, round_by, round_count};

use crate::options::Options;
use fam_outer::NoMemory;
use leaf_domain::{Leaf, Thresholds, leaf_is_valid};
use std::alloc::Global;

/// So many steps of each of so many bounds.
fn steps_of_all(bounds: u32, steps: u32) -> u64
    requires bounds { bounds ≤ 16384 }
    requires steps { steps ≤ 65 }
    ensures value { result ≡ bounds * steps }
    ensures small { result ≤ 1064960 }
{
    u64::from(bounds) * u64::from(steps)
}

/// How many rounds of joining and widening a loop has over so many variables: those of joining, so many of widening as the
/// bounds of a leaf can step through the thresholds and to the type's, and one.
pub fn round_count<L: Leaf>(options: &Options, variables: u32) -> u64
    requires { variables ≤ 48 }
    ensures { result ≡ round_count L.meaning options.now.thresholds options.now.delay variables }
{
    let steps = steps_of_all(L::bound_count(variables), options.thresholds.count() + 1);
    u64::from(options.delay) + steps + 1
}

/// The join of two leaves.
pub fn joined<L: Leaf>(alloc: Global, a: &L, b: &L) -> Result<L, NoMemory>
    requires { (L.value a.now).variables ≡ (L.value b.now).variables }
    ensures value { IfOk result (λ made. L.value made ≡ L.meaning.join (L.value a.now) (L.value b.now)) }
    ensures same { IfOk result (λ made. (L.value made).variables ≡ (L.value a.now).variables) }
{
    leaf_is_valid(a);
    leaf_is_valid(b);
    a.join(alloc, b)
}

/// The candidate of a round of narrowing: the leaf at the head, with each bound that is the type's or that of a threshold put
/// as that of what comes in.
pub fn narrowed_by<L: Leaf>(
    alloc: Global,
    at: &L,
    next: &L,
    thresholds: &Thresholds,
) -> Result<L, NoMemory>
    requires { (L.value at.now).variables ≡ (L.value next.now).variables }
    ensures value { IfOk result (λ made. L.value made
        ≡ L.meaning.narrow thresholds.now (L.value at.now) (L.value next.now)) }
    ensures same { IfOk result (λ made. (L.value made).variables ≡ (L.value at.now).variables) }
{
    leaf_is_valid(at);
    leaf_is_valid(next);
    at.narrow(alloc, next, thresholds)
}

/// The leaf at the head of a loop after one round, or None where what comes in is below it. The two are joined in an early
/// round, and widened to the thresholds in a later one.
pub fn moved<L: Leaf>(
    alloc: Global,
    at: &L,
    next: &L,
    is_early: bool,
    thresholds: &Thresholds,
) -> Result<Option<L>, NoMemory>
    requires { (L.value at.now).variables ≡ (L.value next.now).variables }
    ensures stable { IfOk result (λ made. IfNone made
        (L.meaning.leq (L.value next.now) (L.value at.now) ≡ true)) }
    ensures moved { IfOk result (λ made. IfSome made
        (λ leaf. L.meaning.leq (L.value next.now) (L.value at.now) ≡ false)) }
    ensures value { IfOk result (λ made. IfSome made
        (λ leaf. L.value leaf ≡ moved_by L.meaning thresholds.now is_early (L.value at.now) (L.value next.now))) }
    ensures same { IfOk result (λ made. IfSome made
        (λ leaf. (L.value leaf).variables ≡ (L.value at.now).variables)) }
{
    leaf_is_valid(at);
    leaf_is_valid(next);
    if next.leq(at) {
        return Ok(None);
    }
    if is_early {
        Ok(Some(at.join(alloc, next)?))
    } else {
        Ok(Some(at.widen(alloc, next, thresholds)?))
    }
}

/// The leaf at the head of a loop after one round, where it may stay.
pub fn round<L: Leaf>(
    alloc: Global,
    at: &L,
    next: &L,
    is_early: bool,
    thresholds: &Thresholds,
) -> Result<L, NoMemory>
    requires { (L.value at.now).variables ≡ (L.value next.now).variables }
    ensures value { IfOk result (λ made. L.value made
        ≡ round_by L.meaning thresholds.now is_early (L.value at.now) (L.value next.now)) }
    ensures same { IfOk result (λ made. (L.value made).variables ≡ (L.value at.now).variables) }
{
    match moved(alloc, at, next, is_early, thresholds)? {
        Some(made) => Ok(made),
        None => at.copy(alloc),
    }
}
