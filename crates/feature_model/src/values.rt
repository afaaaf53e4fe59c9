//! Values as settings spell them.
#![tactic(auto)]

ghost use Rattle.std.specs.Prelude.{◌≡◌, option_map};
ghost use Rattle.feature_model.specs.Settings as settings;

use c_words::{begins_with_zero, decimal};
use fam_outer::{MOST_VALUE, cut};
use linear_atoms::Feature;

/// The number that `0`, or digits that do not begin with 0, spell, if it is at most 2^20.
fn positive(digits: &[u8]) -> Option<i64>
    ensures { settings.Spells result (settings.positive digits.now) }
{
    let size = decimal(digits, MOST_VALUE)?;
    Some(size as i64)
}

/// The number that digits which do not begin with 0 spell behind `-`, if it is at most 2^20 in size.
fn negative(digits: &[u8]) -> Option<i64>
    ensures { settings.Spells result (settings.negative digits.now) }
{
    if begins_with_zero(digits) {
        return None;
    }
    let size = decimal(digits, MOST_VALUE)?;
    Some(-(size as i64))
}

/// The number that a text spells, if it is at most 2^20 in size.
fn spelled(text: &[u8]) -> Option<i64>
    ensures { settings.Spells result (settings.spelled text.now) }
{
    match cut(text) {
        None => None,
        Some((first, behind)) => {
            if first == b'-' {
                negative(behind)
            } else {
                positive(text)
            }
        }
    }
}

/// The value of a setting; a name alone means 1.
pub(crate) fn value_of(text: Option<&str>) -> Option<i64>
    ensures { settings.Spells result (settings.value_of (option_map (λ t. t.now) text.entry)) }
{
    match text {
        None => Some(1),
        Some(text) => spelled(text.as_bytes()),
    }
}

/// Whether there is a value, and it is in the range of the feature.
pub(crate) fn fits(feature: &Feature, value: Option<i64>) -> bool
    ensures { result ≡ settings.fits feature.now value }
{
    match value {
        None => false,
        Some(value) => feature.low <= value && value <= feature.high,
    }
}
