//! Literals that others imply.
#![tactic(auto)]

ghost use Rattle.std.specs.Prelude.{◌<◌, [], length, IfOk};
ghost use Rattle.linear_atoms.specs.Atoms.{AreLiterals};
ghost use Rattle.alarm_report.specs.Dropping.{IsDroppedAt};
ghost use Rattle.alarm_report.specs.Regions.{AreStanding};

use atom_solver::Prepared;
use fam_outer::NoMemory;
use linear_atoms::Literal;
use std::alloc::Global;

/// Drops the literal at a place where the others imply it. It answers whether it is dropped.
fn drop_implied(
    alloc: Global,
    prepared: &Prepared,
    literals: &mut Vec<Literal>,
    place: usize,
) -> Result<bool, NoMemory>
    requires place { place < length literals.old.items }
    requires fit { AreLiterals (length prepared.now.features) literals.old.items }
    ensures { IfOk result (λ dropped. IsDroppedAt prepared.now place literals.old.items literals.new.items dropped) }
{
    let literal = literals.remove(place);
    if prepared.implied(alloc, literals, &literal)? {
        return Ok(true);
    }
    literals.insert(place, literal)?;
    Ok(false)
}

/// The literals that still stand: from the first to the last, each is dropped that the others still standing imply.
pub fn standing(
    alloc: Global,
    prepared: &Prepared,
    literals: Vec<Literal>,
) -> Result<Vec<Literal>, NoMemory>
    requires { AreLiterals (length prepared.now.features) literals.items }
    ensures { IfOk result (λ made. AreStanding prepared.now [] literals.items made.items) }
{
    let mut left = literals;
    let mut place = 0;
    'literals: while place < left.len() {
        if !drop_implied(alloc, prepared, &mut left, place)? {
            place += 1;
        }
    }
    Ok(left)
}
