//! Laws of merged trees, for the crates above: each function does nothing, and its contract is the law.
#![tactic(auto)]

ghost use Rattle.std.specs.Prelude.{ℕ, List, Bool};
ghost use Rattle.cpp_conditions.specs.Propositions.{Proposition};
ghost use Rattle.decision_tree.specs.Plain.{Plain};
ghost use Rattle.lifted_analysis.specs.Canon.{IsTreeOf};
ghost use Rattle.merged_findings.specs.Merged.{IsMergedTree, IsTreeWhere};

/// A merged tree leads each vector that is plausible to what the function gives there; its tests are below `m`, and each of its leaves
/// is what the function gives somewhere.
pub fn merged_trees_lead<A>()
    ensures { (m : ℕ) (f : List Bool → A) (plausible : Proposition ℕ) (t : Plain A)
        → IsMergedTree m f plausible t → IsTreeWhere m f plausible t }
{}

/// So it is of the one tree of the function itself.
pub fn one_trees_lead<A>()
    ensures { (m : ℕ) (f : List Bool → A) (plausible : Proposition ℕ) (t : Plain A)
        → IsTreeOf m f t → IsTreeWhere m f plausible t }
{}
