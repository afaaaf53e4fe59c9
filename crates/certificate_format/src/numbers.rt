//! Numbers and places as their texts.
#![tactic(auto)]

ghost use Rattle.std.specs.Prelude.{◌≡◌, ◌≢◌, ◌<◌, ◌^◌, ℕ, ℤ, pos, List, ◌∷◌, ◌++◌, MatchOption};
ghost use Rattle.std.specs.Fmt.{decimal, signed_decimal};
ghost use Rattle.fam_outer.specs.declared.faults.Place.{Place};
ghost use Rattle.c_tree.specs.Value.{IsInt};
ghost use Rattle.alarm_report.specs.Texts.{place_text};
ghost use Rattle.certificate_format.specs.Forms.{is_plain, EndsDigits, EndsNumber};
ghost use Rattle.certificate_format.specs.Lines.{IsPlace};

use crate::cutting::cut_at;
use fam_outer::Place;
use linear_atoms::slices::cut;

/// The greatest size of a negative number of `int`.
const MOST_SIZE: u32 = 2_147_483_648;

/// Whether a text begins without `+`, and with `0` only alone.
fn is_plain(digits: &[u8]) -> bool
    ensures { result ≡ is_plain digits.now }
{
    match digits {
        [] => false,
        [byte] => *byte != b'+',
        [first, ..] => *first != b'+' && *first != b'0',
    }
}

/// The number of 32 binary digits whose decimal digits these are.
fn natural(digits: &[u8]) -> Option<u32>
    ensures { MatchOption result ((n : ℕ) → n < 2 ^ 32 → digits.now ≢ decimal n)
        (λ n. (digits.now ≡ decimal n) × (n < 2 ^ 32)) }
{
    if !is_plain(digits) {
        return None;
    }
    let Ok(text) = std::str::from_utf8(digits) else {
        return None;
    };
    match text.parse::<u32>() {
        Ok(number) => Some(number),
        Err(_) => None,
    }
}

/// The number of `int` whose text is `-` and these digits.
fn negative(digits: &[u8]) -> Option<i64>
    ensures { MatchOption result ((z : ℤ) → IsInt z → 45 ∷ digits.now ≢ signed_decimal z)
        (λ z. (45 ∷ digits.now ≡ signed_decimal z) × IsInt z) }
{
    let Some(size) = natural(digits) else {
        return None;
    };
    if size == 0 {
        return None;
    }
    if size > MOST_SIZE {
        return None;
    }
    Some(-(size as i64))
}

/// The number of `int` from 0 on whose digits these are.
fn positive(digits: &[u8]) -> Option<i64>
    ensures { MatchOption result ((n : ℕ) → IsInt (pos n) → digits.now ≢ decimal n)
        (λ z. (digits.now ≡ signed_decimal z) × IsInt z) }
{
    let Some(size) = natural(digits) else {
        return None;
    };
    if size >= MOST_SIZE {
        return None;
    }
    Some(size as i64)
}

/// The number of `int` whose text this is.
fn integer(text: &[u8]) -> Option<i64>
    ensures { MatchOption result ((z : ℤ) → IsInt z → text.now ≢ signed_decimal z)
        (λ z. (text.now ≡ signed_decimal z) × IsInt z) }
{
    let Some((first, digits)) = cut(text) else {
        return None;
    };
    if *first == b'-' {
        negative(digits)
    } else {
        positive(text)
    }
}

/// The number before a separator, and what stands behind that.
fn natural_before<'a>(text: &'a [u8], separator: &[u8]) -> Option<(u32, &'a [u8])>
    requires { EndsDigits separator.now }
    ensures { MatchOption result ((n : ℕ) (rest : List ℕ) → n < 2 ^ 32
        → text.now ≢ decimal n ++ (separator.now ++ rest))
        (λ x. (text.now ≡ decimal x.0 ++ (separator.now ++ x.1.now)) × (x.0 < 2 ^ 32)) }
{
    let Some((digits, behind)) = cut_at(text, separator) else {
        return None;
    };
    let Some(number) = natural(digits) else {
        return None;
    };
    Some((number, behind))
}

/// The number of `int` before a separator, and what stands behind that.
pub(crate) fn integer_before<'a>(text: &'a [u8], separator: &[u8]) -> Option<(i64, &'a [u8])>
    requires { EndsNumber separator.now }
    ensures { MatchOption result ((z : ℤ) (rest : List ℕ) → IsInt z
        → text.now ≢ signed_decimal z ++ (separator.now ++ rest))
        (λ x. (text.now ≡ signed_decimal x.0 ++ (separator.now ++ x.1.now)) × IsInt x.0) }
{
    let Some((number, behind)) = cut_at(text, separator) else {
        return None;
    };
    let Some(number) = integer(number) else {
        return None;
    };
    Some((number, behind))
}

/// The place `LINE:COLUMN` before a separator, and what stands behind that.
pub(crate) fn place_before<'a>(text: &'a [u8], separator: &[u8]) -> Option<(Place, &'a [u8])>
    requires { EndsDigits separator.now }
    ensures { MatchOption result ((place : Place) (rest : List ℕ) → IsPlace place
        → text.now ≢ place_text place ++ (separator.now ++ rest))
        (λ x. (text.now ≡ place_text x.0 ++ (separator.now ++ x.1.now)) × IsPlace x.0) }
{
    let Some((line, text)) = natural_before(text, b":") else {
        return None;
    };
    let Some((column, behind)) = natural_before(text, separator) else {
        return None;
    };
    if line == 0 {
        return None;
    }
    if column == 0 {
        return None;
    }
    Some((Place { line, column }, behind))
}
