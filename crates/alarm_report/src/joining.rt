//! Texts one after another.
#![tactic(auto)]

ghost use Rattle.std.specs.Prelude.{◌≡◌, IfOk};
ghost use Rattle.alarm_report.specs.Texts.{joined as joined_by};

use fam_outer::{NoMemory, Text};
use linear_atoms::slices::cut;
use std::alloc::Global;

/// The texts, with one between.
pub fn joined(alloc: Global, between: &str, texts: &[Text]) -> Result<Text, NoMemory>
    ensures { IfOk result (λ text. text ≡ joined_by between.now texts.now) }
{
    let mut whole = Vec::new(alloc);
    if let Some((first, behind)) = cut(texts) {
        whole.extend_from_slice(first.bytes())?;
        for text in behind {
            whole.extend_from_slice(between.as_bytes())?;
            whole.extend_from_slice(text.bytes())?;
        }
    }
    Ok(Text::from_vec(whole))
}
