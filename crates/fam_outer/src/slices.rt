//! The front of a slice.
#![tactic(auto)]

ghost use Rattle.std.specs.Prelude.{◌≡◌, [], ◌∷◌, MatchOption};

/// The first item, and those behind it; None where there is none.
pub fn cut<T: Copy>(items: &[T]) -> Option<(T, &[T])>
    ensures { MatchOption result (items.now ≡ []) (λ x. items.now ≡ x.0 ∷ x.1.now) }
{
    match items {
        [] => None,
        [first, behind @ ..] => Some((*first, behind)),
    }
}
