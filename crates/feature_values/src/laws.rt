//! Laws of features that code uses as values: each function does nothing, and its contract is the law.
#![tactic(auto)]

ghost use Rattle.feature_values.specs.Laws as laws;

/// At a configuration within the ranges, the program with values is the one without them, with the features' values as start
/// values of their variables.
pub fn values_are_starts()
    ensures { laws.ValuesAreStarts }
{}

/// The program at the truths of its conditions is that at more truths behind them.
pub fn conditions_are_enough()
    ensures { laws.ConditionsAreEnough }
{}

/// A well-formed program with values is well formed, over as many conditions more as there are tests.
pub fn values_keep_programs()
    ensures program { laws.ValuesKeepPrograms }
    ensures conditions { laws.ValuesAddConditions }
{}

/// There are as many tests as their count, each well formed over the features, and decided by no range.
pub fn tests_are_open()
    ensures count { laws.TestsAreCounted }
    ensures fit { laws.TestsAreFit }
    ensures open { laws.TestsAreOpen }
{}

/// The uses of features in names are of these features and of these names.
pub fn uses_stand()
    ensures { laws.UsesStand }
{}
