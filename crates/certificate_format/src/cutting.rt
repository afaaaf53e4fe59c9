//! Texts cut at prefixes and separators.
#![tactic(auto)]

ghost use Rattle.std.specs.Prelude.{◌≡◌, ◌≢◌, ℕ, List, ◌++◌, MatchOption};
ghost use Rattle.certificate_format.specs.Cuts.{Lacks, IsCut};

use memchr::memmem;

/// What stands behind a prefix.
pub(crate) fn behind<'a>(text: &'a [u8], prefix: &[u8]) -> Option<&'a [u8]>
    ensures { MatchOption result ((rest : List ℕ) → text.now ≢ prefix.now ++ rest)
        (λ rest. text.now ≡ prefix.now ++ rest.now) }
{
    if text.len() < prefix.len() {
        return None;
    }
    let (front, rest) = text.split_at(prefix.len());
    if front == prefix { Some(rest) } else { None }
}

/// What stands before and behind the first place of a separator.
pub(crate) fn cut_at<'a>(text: &'a [u8], separator: &[u8]) -> Option<(&'a [u8], &'a [u8])>
    ensures { MatchOption result (Lacks separator.now text.now)
        (λ x. IsCut separator.now text.now x.0.now x.1.now) }
{
    let Some(place) = memmem::find(text, separator) else {
        return None;
    };
    let (front, found) = text.split_at(place);
    let (_separator, rest) = found.split_at(separator.len());
    Some((front, rest))
}
