//! What is said of the loops of a family.
#![tactic(auto)]

ghost use Rattle.std.specs.Prelude.{◌≡◌};

use cpp_conditions::Formula;
use fam_outer::Place;
use leaf_domain::Range;
use std::marker::Model;

/// Ranges of the variables of a program, one for each, in order.
#[derive(Debug, Drop)]
pub struct Ranges {
    list: Vec<Range>,
}

impl Model for Ranges {
    ghost use Rattle.std.specs.Prelude.{List};
    ghost use Rattle.leaf_domain.specs.declared.range.Range.{Range};

    ghost Value = { List Range };

    ghost view = { λ ranges. ranges.list.items };
}

impl Ranges {
    /// These ranges.
    pub fn from_vec(list: Vec<Range>) -> Ranges
        ensures { result ≡ list.items }
    {
        Ranges { list }
    }

    /// The ranges.
    pub fn items(&self) -> &[Range]
        ensures { result.now ≡ self.now }
    {
        self.list.as_slice()
    }
}

/// What is said of a loop: at its place, where the region holds, each variable lies in its range; or, without ranges, nothing
/// reaches it.
#[derive(Debug, Drop)]
pub struct LoopLine {
    pub place: Place,
    pub region: Formula,
    pub bounds: Option<Ranges>,
}
