//! What the analysis of a family finds.
#![tactic(auto)]

use c_tree::Kind;
use decision_tree::Tree;
use fam_outer::Place;

/// The tree of a place: the leaf with which the statement there is entered, at every vector.
#[derive(Drop)]
pub struct PlaceTree<L> {
    pub place: Place,
    pub tree: Tree<L>,
}

/// The vectors at which the statement at a place may stop with a kind.
#[derive(Drop)]
pub struct AlarmTree {
    pub place: Place,
    pub kind: Kind,
    pub tree: Tree<bool>,
}

/// What the analysis of a family finds: a tree for each place in the order of the text, and for each place three alarm trees
/// in the order of the kinds.
#[derive(Drop)]
pub struct FamilyFindings<L> {
    pub places: Vec<PlaceTree<L>>,
    pub alarms: Vec<AlarmTree>,
}

/// The vectors at which the loop at a place is inductive.
#[derive(Drop)]
pub struct LoopTree {
    pub place: Place,
    pub tree: Tree<bool>,
}

/// What a pass over a family finds: a tree for each place in the order of the text, for each place three alarm trees in the
/// order of the kinds, and a tree for each loop in the order of the text.
#[derive(Drop)]
pub struct PassFindings<L> {
    pub places: Vec<PlaceTree<L>>,
    pub alarms: Vec<AlarmTree>,
    pub loops: Vec<LoopTree>,
}
