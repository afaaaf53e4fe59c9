//! Advice, and which of two is nearer.
#![tactic(auto)]

ghost use Rattle.std.specs.Prelude.{◌≡◌, ◌⊎◌, ℤ, List, true, false, Some, length};
ghost use Rattle.configuration_advice.specs.Searching.{HaveOneLength, IsBeaten, Precedes};

use linear_atoms::Config;
use tree_questions::is_before;

/// A configuration, and how many features differ from a given one.
#[derive(Debug, Drop)]
pub struct Advice {
    pub config: Config,
    pub changed: u32,
}

/// Whether the first advice is nearer than the second: it has fewer changes, or as many, and is before it.
fn is_nearer(first: &Advice, second: &Advice) -> bool
    requires { length first.now.config.values ≡ length second.now.config.values }
    ensures nearer { result ≡ true → Precedes first.now second.now }
    ensures other { result ≡ false →
        ((first.now.changed ≡ second.now.changed) × (second.now.config.values ≡ first.now.config.values))
        ⊎ Precedes second.now first.now }
{
    if first.changed != second.changed {
        return first.changed < second.changed;
    }
    is_before(first.config.values.items(), second.config.values.items())
}

/// The nearer of two.
#[tactic(auto, using(crate::proofs::Compared::beaten_by_nearer, crate::proofs::Compared::beaten_by_best))]
fn nearer_of(best: Advice, found: Advice) -> Advice
    requires { length best.config.values ≡ length found.config.values }
    ensures one { (result ≡ best) ⊎ (result ≡ found) }
    ensures best { (given values : List ℤ) → IsBeaten given values (Some best)
        → IsBeaten given values (Some result) }
    ensures found { (given values : List ℤ) → IsBeaten given values (Some found)
        → IsBeaten given values (Some result) }
{
    if is_nearer(&found, &best) {
        found
    } else {
        best
    }
}

/// The nearer of two, where there are two.
pub(crate) fn nearer(best: Option<Advice>, found: Option<Advice>) -> Option<Advice>
    requires { HaveOneLength best found }
    ensures one { (result ≡ best) ⊎ (result ≡ found) }
    ensures best { (given values : List ℤ) → IsBeaten given values best → IsBeaten given values result }
    ensures found { (given values : List ℤ) → IsBeaten given values found → IsBeaten given values result }
{
    match (best, found) {
        (None, found) => found,
        (best, None) => best,
        (Some(best), Some(found)) => Some(nearer_of(best, found)),
    }
}
