//! Which of two configurations is before the other.
#![tactic(auto)]

ghost use Rattle.std.specs.Prelude.{◌≡◌, ◌⊎◌, ℤ, List, true, false, length, IfSome};
ghost use Rattle.atom_solver.specs.Solutions.{IsBefore};
ghost use Rattle.tree_questions.specs.Least.{IsBehind};

use linear_atoms::Config;
use linear_atoms::slices::cut;

/// Whether values are before others of the same number, by the first in which they differ.
pub fn is_before(values: &[i64], others: &[i64]) -> bool
    requires { length values.now ≡ length others.now }
    ensures before { result ≡ true → IsBefore values.now others.now }
    ensures behind { result ≡ false → (others.now ≡ values.now) ⊎ IsBefore others.now values.now }
{
    match (cut(values), cut(others)) {
        (Some((value, more)), Some((other, rest))) => {
            *value < *other || (*value == *other && is_before(more, rest))
        }
        _ => false,
    }
}

/// Whether a configuration is before the best one so far, if there is one.
pub(crate) fn improves(best: &Option<Config>, config: &Config) -> bool
    requires { IfSome best.now (λ c. length c.values ≡ length config.now.values) }
    ensures yes { result ≡ true → (values : List ℤ) → IsBehind values best.now
        → IsBefore values config.now.values → ⊥ }
    ensures no { result ≡ false → (values : List ℤ)
        → (IsBefore values config.now.values → ⊥) → IsBehind values best.now }
{
    match best {
        None => true,
        Some(best) => is_before(config.values.items(), best.values.items()),
    }
}
