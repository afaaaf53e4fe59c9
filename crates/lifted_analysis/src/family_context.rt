//! What an analysis of a family works with.
#![tactic(auto)]

ghost use Rattle.std.specs.Prelude.{◌≡◌, false, List, Bool, slice_index_or};
ghost use Rattle.decision_tree.specs.Plain.{leaf_of};
ghost use Rattle.decision_tree.specs.View.{numbered, plain};
ghost use Rattle.lifted_analysis.specs.States.{IsFamily, IsTruth, truths_in};

use crate::lines::LoopLine;
use c_tree::Program;
use decision_tree::Tree;
use plain_analysis::Options;

/// What is known of a family: its program, the trees of its conditions, that of the vectors that are plausible, that of no
/// vector, what lines say of its loops, how many variables it has, and how it is analysed.
#[derive(Clone, Copy)]
pub(crate) struct FamilyContext<'a> {
    pub(crate) program: &'a Program,
    pub(crate) choices: &'a [Tree<bool>],
    pub(crate) plausible: &'a Tree<bool>,
    pub(crate) never: &'a Tree<bool>,
    pub(crate) lines: &'a [LoopLine],
    pub(crate) variables: u32,
    pub(crate) options: &'a Options,
}

impl FamilyContext<'_> {
    /// The tree of the condition with this number.
    #[tactic(auto, using(crate::proofs::FamilyLemmas::choice_truth, crate::proofs::FamilyLemmas::never_truth, crate::proofs::FamilyLemmas::truth_at, crate::proofs::FamilyLemmas::truth_none, crate::proofs::FamilyLemmas::never_at))]
    pub(crate) fn choice(&self, number: u32) -> &Tree<bool>
        requires { IsFamily self.now }
        ensures truth { IsTruth self.now (numbered result.now) }
        ensures at_each { (v : List Bool)
            → leaf_of (plain result.now) v ≡ slice_index_or (truths_in self.now.choices.now v) number false }
    {
        match self.choices.get(number as usize) {
            Some(choice) => choice,
            None => self.never,
        }
    }
}
