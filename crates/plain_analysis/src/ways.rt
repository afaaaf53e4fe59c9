//! The leaf behind what was passed, and those that leave it by a jump.
#![tactic(auto)]

ghost use Rattle.std.specs.Prelude.{◌≡◌, IfOk};
ghost use Rattle.c_tree.specs.Fit.{IsJumpOf};
ghost use Rattle.c_tree.specs.View.{jump_of};
ghost use Rattle.plain_analysis.specs.View.{ways_of, AreOver};
ghost use Rattle.plain_analysis.specs.Ways as spec;

use crate::steps::joined;
use c_tree::{Jump, Mode};
use fam_outer::NoMemory;
use leaf_domain::{Leaf, leaf_is_valid, valued};
use std::alloc::Global;

/// The leaf behind what was passed, and for each jump the join of all that left by it.
#[derive(Debug, Drop)]
pub struct Ways<L> {
    pub behind: L,
    pub broke: L,
    pub continued: L,
    pub returned: L,
}

/// Nothing has left yet.
pub fn enter<L: Leaf>(alloc: Global, leaf: L) -> Result<Ways<L>, NoMemory>
    ensures value { IfOk result (λ made. ways_of L.value made ≡ spec.enter (L.value leaf)) }
    ensures over { IfOk result (λ made. AreOver L.value (L.value leaf).variables made) }
{
    leaf_is_valid(&leaf);
    let count = leaf.variables();
    let broke = L::nothing(alloc, count)?;
    let continued = L::nothing(alloc, count)?;
    let returned = L::nothing(alloc, count)?;
    Ok(Ways {
        behind: leaf,
        broke,
        continued,
        returned,
    })
}

/// The same jumps, and another leaf behind.
pub fn onto<L: Leaf>(ways: Ways<L>, behind: L) -> Ways<L>
    requires over { AreOver L.value (L.value ways.behind).variables ways }
    requires behind { (L.value behind).variables ≡ (L.value ways.behind).variables }
    ensures value { ways_of L.value result ≡ spec.onto (ways_of L.value ways) (L.value behind) }
    ensures over { AreOver L.value (L.value ways.behind).variables result }
{
    Ways {
        behind,
        broke: ways.broke,
        continued: ways.continued,
        returned: ways.returned,
    }
}

/// A leaf, and ways.
#[derive(Drop)]
pub(crate) struct Exchanged<L> {
    pub(crate) before: L,
    pub(crate) ways: Ways<L>,
}

/// The leaf that was behind, and the same jumps with another leaf there.
pub(crate) fn exchange<L: Leaf>(ways: Ways<L>, behind: L) -> Exchanged<L>
    requires over { AreOver L.value (L.value ways.behind).variables ways }
    requires behind { (L.value behind).variables ≡ (L.value ways.behind).variables }
    ensures before { L.value result.before ≡ L.value ways.behind }
    ensures value { ways_of L.value result.ways ≡ spec.onto (ways_of L.value ways) (L.value behind) }
    ensures over { AreOver L.value (L.value ways.behind).variables result.ways }
{
    Exchanged {
        before: ways.behind,
        ways: Ways {
            behind,
            broke: ways.broke,
            continued: ways.continued,
            returned: ways.returned,
        },
    }
}

/// The join of what left with what leaves; Nothing adds nothing.
pub fn joined_with<L: Leaf>(alloc: Global, left: L, leaf: &L) -> Result<L, NoMemory>
    requires { (L.value left).variables ≡ (L.value leaf.now).variables }
    ensures value { IfOk result (λ made. L.value made
        ≡ spec.joined L.meaning (L.value left) (L.value leaf.now)) }
    ensures same { IfOk result (λ made. (L.value made).variables ≡ (L.value left).variables) }
{
    if leaf.is_nothing() {
        Ok(left)
    } else {
        joined(alloc, &left, leaf)
    }
}

/// All that is behind leaves by a jump; of `return e` what has a value of `e`.
pub fn leave<L: Leaf>(
    alloc: Global,
    mode: Mode,
    jump: &Jump,
    ways: Ways<L>,
) -> Result<Ways<L>, NoMemory>
    requires over { AreOver L.value (L.value ways.behind).variables ways }
    requires jump { IsJumpOf (L.value ways.behind).variables (jump_of jump.now) }
    ensures value { IfOk result (λ made. ways_of L.value made
        ≡ spec.leave_by L.meaning mode (jump_of jump.now) (ways_of L.value ways)) }
    ensures over { IfOk result (λ made. AreOver L.value (L.value ways.behind).variables made) }
{
    let Ways {
        behind,
        broke,
        continued,
        returned,
    } = ways;
    leaf_is_valid(&behind);
    let nothing = L::nothing(alloc, behind.variables())?;
    match jump {
        Jump::Break => Ok(Ways {
            behind: nothing,
            broke: joined_with(alloc, broke, &behind)?,
            continued,
            returned,
        }),
        Jump::Continue => Ok(Ways {
            behind: nothing,
            broke,
            continued: joined_with(alloc, continued, &behind)?,
            returned,
        }),
        Jump::Return(value) => {
            let returning = valued(alloc, &behind, value, mode)?;
            Ok(Ways {
                behind: nothing,
                broke,
                continued,
                returned: joined_with(alloc, returned, &returning)?,
            })
        }
    }
}

/// The leaf with which a loop goes on behind its body.
pub fn going_on<L: Leaf>(alloc: Global, body: &Ways<L>) -> Result<L, NoMemory>
    requires { AreOver L.value (L.value body.now.behind).variables body.now }
    ensures value { IfOk result (λ made. L.value made ≡ spec.going_on L.meaning (ways_of L.value body.now)) }
    ensures same { IfOk result (λ made. (L.value made).variables ≡ (L.value body.now.behind).variables) }
{
    if body.continued.is_nothing() {
        body.behind.copy(alloc)
    } else {
        joined(alloc, &body.behind, &body.continued)
    }
}

/// Behind a loop whose test fails with this leaf, and whose body left so.
pub fn behind_loop<L: Leaf>(
    alloc: Global,
    ways: Ways<L>,
    failed: L,
    body: &Ways<L>,
) -> Result<Ways<L>, NoMemory>
    requires over { AreOver L.value (L.value ways.behind).variables ways }
    requires failed { (L.value failed).variables ≡ (L.value ways.behind).variables }
    requires body { AreOver L.value (L.value ways.behind).variables body.now }
    ensures value { IfOk result (λ made. ways_of L.value made
        ≡ spec.behind_loop L.meaning (ways_of L.value ways) (L.value failed) (ways_of L.value body.now)) }
    ensures over { IfOk result (λ made. AreOver L.value (L.value ways.behind).variables made) }
{
    let behind = joined_with(alloc, failed, &body.broke)?;
    let returned = joined_with(alloc, ways.returned, &body.returned)?;
    Ok(Ways {
        behind,
        broke: ways.broke,
        continued: ways.continued,
        returned,
    })
}

/// The leaf at the end of a program, to which each jump outside loops leads.
pub fn end<L: Leaf>(alloc: Global, ways: Ways<L>) -> Result<L, NoMemory>
    requires { AreOver L.value (L.value ways.behind).variables ways }
    ensures value { IfOk result (λ made. L.value made ≡ spec.end_of L.meaning (ways_of L.value ways)) }
    ensures same { IfOk result (λ made. (L.value made).variables ≡ (L.value ways.behind).variables) }
{
    let with_returned = joined_with(alloc, ways.behind, &ways.returned)?;
    let with_broke = joined_with(alloc, with_returned, &ways.broke)?;
    joined_with(alloc, with_broke, &ways.continued)
}
