//! Names with their values.
#![tactic(auto)]

ghost use Rattle.std.specs.Prelude.{◌≡◌, ◌++◌, IfOk, map};
ghost use Rattle.linear_atoms.specs.SettingTexts.{setting_text, spaced_settings, config_text};

use crate::atoms::Feature;
use crate::named::Named;
use crate::slices::cut;
use fam_outer::{NoMemory, Text, decimal};
use std::alloc::Global;

/// Adds `NAME=VALUE`.
fn push_setting(alloc: Global, text: &mut Vec<u8>, name: &[u8], value: i64) -> Result<(), NoMemory>
    ensures { IfOk result (λ _. text.new.items ≡ text.old.items ++ setting_text name.now value) }
{
    text.extend_from_slice(name)?;
    text.push(b'=')?;
    let digits = decimal(alloc, value)?;
    text.extend_from_slice(digits.bytes())?;
    Ok(())
}

/// Adds `NAME=VALUE` of each name that has a value, in their order and each behind a space. It answers an error only for
/// want of memory.
pub fn push_settings<N: Named>(
    alloc: Global,
    text: &mut Vec<u8>,
    named: &[N],
    values: &[i64],
) -> Result<(), NoMemory>
    ensures { IfOk result (λ _. text.new.items
        ≡ text.old.items ++ spaced_settings (map N.name_of named.now) values.now) }
{
    let mut names = named;
    let mut rest = values;
    'settings: while let (Some((one, more)), Some((value, others))) = (cut(names), cut(rest)) {
        text.push(b' ')?;
        push_setting(alloc, text, one.name(), *value)?;
        names = more;
        rest = others;
    }
    Ok(())
}

/// The text of a configuration with these values: `NAME=VALUE` of each feature, in their order and joined by spaces;
/// `-` where there is no feature. It answers an error only for want of memory.
pub fn config_text(alloc: Global, features: &[Feature], values: &[i64]) -> Result<Text, NoMemory>
    ensures { IfOk result (λ text. text ≡ config_text features.now values.now) }
{
    let mut text = Vec::new(alloc);
    match (cut(features), cut(values)) {
        (Some((feature, behind)), Some((value, others))) => {
            push_setting(alloc, &mut text, feature.name.bytes(), *value)?;
            push_settings(alloc, &mut text, behind, others)?;
        }
        _ => text.push(b'-')?,
    }
    Ok(Text::from_vec(text))
}
