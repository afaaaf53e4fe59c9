//! The texts of advice.
#![tactic(auto)]

ghost use Rattle.std.specs.Prelude.{◌≡◌, ◌++◌, IfOk};
ghost use Rattle.configuration_advice.specs.Texts.{span_text, use_text, use_line, uses_text, changed_text, advice_line, advice_text};

use crate::comparing::Advice;
use crate::feature_uses::FeatureUse;
use fam_outer::{NoMemory, Text};
use linear_atoms::slices::cut;
use linear_atoms::{Feature, config_text};
use std::alloc::Global;

/// `L to H`.
fn span_text(alloc: Global, low: i64, high: i64) -> Result<Vec<u8>, NoMemory>
    ensures { IfOk result (λ text. text.items ≡ span_text low high) }
{
    let text = format!(in alloc; "{low} to {high}")?;
    Ok(text.into_bytes())
}

/// Adds `free`, `dead`, `always` or `L to H`.
fn push_use(alloc: Global, text: &mut Vec<u8>, one: FeatureUse) -> Result<(), NoMemory>
    ensures { IfOk result (λ _. text.new.items ≡ text.old.items ++ use_text one) }
{
    match one {
        FeatureUse::Free => text.extend_from_slice(b"free")?,
        FeatureUse::Dead => text.extend_from_slice(b"dead")?,
        FeatureUse::Always => text.extend_from_slice(b"always")?,
        FeatureUse::Span(low, high) => {
            let span = span_text(alloc, low, high)?;
            text.extend_from_slice(&span)?;
        }
    }
    Ok(())
}

/// Adds the line of a feature.
fn push_line(
    alloc: Global,
    text: &mut Vec<u8>,
    feature: &Feature,
    one: FeatureUse,
) -> Result<(), NoMemory>
    ensures { IfOk result (λ _. text.new.items ≡ text.old.items ++ use_line feature.now one) }
{
    text.extend_from_slice(feature.name.bytes())?;
    text.extend_from_slice(b": ")?;
    push_use(alloc, text, one)?;
    text.push(b'\n')?;
    Ok(())
}

/// The text of what valid configurations make of features: for each a line `NAME: free`, `NAME: dead`, `NAME: always` or
/// `NAME: L to H`. The only refusal is want of memory.
pub fn uses_text(alloc: Global, features: &[Feature], uses: &[FeatureUse]) -> Result<Text, NoMemory>
    ensures { IfOk result (λ text. text ≡ uses_text features.now uses.now) }
{
    let mut text = Vec::new(alloc);
    let mut rest = features;
    let mut others = uses;
    'lines: while let (Some((feature, behind)), Some((one, more))) = (cut(rest), cut(others)) {
        push_line(alloc, &mut text, feature, *one)?;
        rest = behind;
        others = more;
    }
    Ok(Text::from_vec(text))
}

/// `; changed C` and the end of the line.
fn changed_text(alloc: Global, changed: u32) -> Result<Vec<u8>, NoMemory>
    ensures { IfOk result (λ text. text.items ≡ changed_text changed) }
{
    let text = format!(in alloc; "; changed {changed}\n")?;
    Ok(text.into_bytes())
}

/// The line of advice.
fn advice_line(alloc: Global, features: &[Feature], advice: &Advice) -> Result<Text, NoMemory>
    ensures { IfOk result (λ text. text ≡ advice_line features.now advice.now) }
{
    let mut text = Vec::from_slice(alloc, b"advice: ")?;
    let config = config_text(alloc, features, advice.config.values.items())?;
    text.extend_from_slice(config.bytes())?;
    let changed = changed_text(alloc, advice.changed)?;
    text.extend_from_slice(&changed)?;
    Ok(Text::from_vec(text))
}

/// The text of advice: a line `advice: CONFIGURATION; changed C`, or `advice: none` where there is none. The only refusal is want
/// of memory.
pub fn advice_text(
    alloc: Global,
    features: &[Feature],
    advice: &Option<Advice>,
) -> Result<Text, NoMemory>
    ensures { IfOk result (λ text. text ≡ advice_text features.now advice.now) }
{
    match advice {
        None => Text::from_bytes(alloc, b"advice: none\n"),
        Some(advice) => advice_line(alloc, features, advice),
    }
}
