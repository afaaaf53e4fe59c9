//! What is asked of the families that are made for measures: `generate`.
#![tactic(auto)]

ghost use Rattle.std.specs.Prelude.{◌≤◌, IfOk};
ghost use Rattle.famlint_families.specs.FamilyAnswers.{IsGenerateDone, PromisedGenerate};
ghost use Rattle.famlint_families.specs.Generated.{IsGeneratedLine};
ghost use Rattle.famlint_loads.specs.ProductLines.{IsUsableLine};

use crate::family::report_by;
use fam_outer::NoMemory;
use family_generator::{GeneratedFamily, generated_family};
use famlint_loads::{Done, ProductLine};
use famlint_requests::{Analysis, FamilyTask};
use linear_atoms::Regions;
use std::alloc::Global;

/// The model and the family that are generated for a number of blocks.
fn generated_line(alloc: Global, number: u32) -> Result<ProductLine, NoMemory>
    requires { number ≤ 2000 }
    ensures line { IfOk result (λ line. IsGeneratedLine number line) }
    ensures usable { IfOk result (λ line. IsUsableLine line) }
{
    let GeneratedFamily {
        dialect,
        model,
        text,
        family,
    } = generated_family(alloc, number)?;
    Ok(ProductLine {
        dialect,
        model,
        family,
        text,
    })
}

/// The work of `generate`. The only refusal is want of memory, since a generated family is accepted.
pub fn generate(
    alloc: Global,
    number: u32,
    analysis: &Analysis,
    regions: Regions,
) -> Result<Done, NoMemory>
    requires { number ≤ 2000 }
    ensures answer { IfOk result (λ done. IsGenerateDone analysis.now regions number done) }
    ensures promise { IfOk result (λ done. PromisedGenerate analysis.now regions number done.status done.text) }
    ensures status { IfOk result (λ done. done.status ≤ 1) }
{
    let line = generated_line(alloc, number)?;
    report_by(alloc, &line, analysis, regions, FamilyTask::Generate)
}
