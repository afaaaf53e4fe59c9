//! Meets of entries, each closed after it.
#![tactic(auto)]

ghost use Rattle.octagon_closure.specs.Best.{IsBest};
ghost use Rattle.octagon_leaf.specs.Octagons.{met_all};
ghost use Rattle.octagon_leaf.specs.Meeting.{AreMeets, AreSmall, IsSettled};

use octagon_closure::{Closed, close_after_one};
use octagon_matrix::Matrix;

/// The least bound that an entry has.
const LEAST: i64 = -17179869184;

/// A bound of term `first` minus term `second`.
#[derive(Clone, Copy, Debug, PartialEq, Eq)]
pub(crate) struct Meet {
    pub(crate) first: u32,
    pub(crate) second: u32,
    pub(crate) bound: i64,
}

/// The best matrix of the stores that meet a best matrix and these bounds; none where no store does. It is
/// closed after each meet by one sweep over the pairs of terms and the rounding.
pub(crate) fn met(mut matrix: Matrix, meets: &[Meet]) -> Option<Matrix>
    requires best { IsBest matrix matrix }
    requires meets { AreMeets matrix.variables meets.now }
    requires small { AreSmall meets.now }
    ensures { IsSettled (met_all matrix meets.now) result }
{
    let _variables = matrix.variables();
    for meet in meets {
        matrix.meet_entry(meet.first, meet.second, meet.bound.max(LEAST));
        match close_after_one(&mut matrix, meet.first, meet.second) {
            Closed::Empty => return None,
            Closed::Closed => {}
        }
    }
    Some(matrix)
}
