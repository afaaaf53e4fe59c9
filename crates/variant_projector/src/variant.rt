//! The text of a variant.
#![tactic(auto)]

ghost use Rattle.std.specs.Prelude.{length};
ghost use Rattle.cpp_conditions.specs.Distinct.{HaveFewAtoms};
ghost use Rattle.cpp_conditions.specs.Naming.{AreFeatures};
ghost use Rattle.cpp_conditions.specs.Validity.{plain, AreFit, IsConfig};
ghost use Rattle.variant_projector.specs.Variant.{ReadsVariant};

use crate::truths::{truths_of, vector_of};
use cpp_conditions::Model;
use cpp_lines::{blanked_file, preprocessed_text, read_sections};
use fam_outer::{Dialect, FileRefusal, Text};
use linear_atoms::Config;
use std::alloc::Global;

/// The text of the variant of a file that a configuration selects.
///
/// Its comments are blanked. A line stays as it is where it is code or the definition of a constant, and each group around
/// it is the kept one of its section: the first whose condition is true at the configuration, else that of `#else`. Every
/// other line becomes empty. The newlines stay, and so do all places. Its refusals are those of `blanked_file` and then those of
/// `read_sections`. It answers `NoMemory` for want of memory.
pub fn variant_text(
    alloc: Global,
    dialect: Dialect,
    bytes: &[u8],
    model: &Model,
    config: &Config,
) -> Result<Text, FileRefusal>
    requires features { AreFeatures model.now.features }
    requires fit { AreFit (length model.now.features) model.now.constraints }
    requires few { HaveFewAtoms 64 (plain model.now).constraints }
    requires config { IsConfig model.now.features config.now.values }
    ensures { ReadsVariant dialect (plain model.now) config.now.values bytes.now result }
{
    let blanked = blanked_file(alloc, bytes)?;
    let sections = read_sections(alloc, dialect, model, blanked.bytes())?;
    let vector = vector_of(alloc, sections.atoms.items(), config)?;
    let truths = truths_of(alloc, sections.conditions.items(), &vector)?;
    let lines = sections.lines.items();
    Ok(preprocessed_text(alloc, blanked.bytes(), lines, &truths)?)
}
