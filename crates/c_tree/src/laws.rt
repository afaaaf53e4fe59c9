//! Laws of values, for the crates above: each function does nothing, and its contract is the law.
#![tactic(auto)]

ghost use Rattle.std.specs.Prelude.{◌≡◌, ℤ, pos, ◌+ℤ◌, ◌*ℤ◌};
ghost use Rattle.c_tree.specs.Value.{IsInt, wrapped};

/// A wrapped result lies in `int`, and differs from the result by a multiple of 2^32.
pub fn wrapping_is_modular()
    ensures int { (n : ℤ) → IsInt (wrapped n) }
    ensures differs { (n : ℤ) → (k : ℤ) × (n ≡ wrapped n +ℤ (pos 4294967296 *ℤ k)) }
{}
