//! What an analysis finds.
#![tactic(auto)]

ghost use Rattle.std.specs.Prelude.{◌≡◌};

use crate::alarm::Alarms;
use fam_outer::Place;
use std::marker::Model;

/// The leaf at a place.
#[derive(Debug, Drop)]
pub struct PlaceLeaf<L> {
    pub place: Place,
    pub leaf: L,
}

/// The leaves at the places of a program, in the order of the text.
#[derive(Debug, Drop)]
pub struct PlaceLeaves<L> {
    list: Vec<PlaceLeaf<L>>,
}

impl<L> Model for PlaceLeaves<L> {
    ghost use Rattle.std.specs.Prelude.{List};
    ghost use Rattle.plain_analysis.specs.declared.findings.PlaceLeaf.{PlaceLeaf};

    ghost Value = { List (PlaceLeaf L) };

    ghost view = { λ leaves. leaves.list.items };
}

impl<L> PlaceLeaves<L> {
    /// These leaves.
    pub fn from_vec(list: Vec<PlaceLeaf<L>>) -> PlaceLeaves<L>
        ensures { result ≡ list.items }
    {
        PlaceLeaves { list }
    }

    /// The leaves.
    pub fn items(&self) -> &[PlaceLeaf<L>]
        ensures { result.now ≡ self.now }
    {
        self.list.as_slice()
    }
}

/// What an analysis of one program finds: the leaf at each place, and the alarms.
#[derive(Debug, Drop)]
pub struct Findings<L> {
    pub places: PlaceLeaves<L>,
    pub alarms: Alarms,
}
