//! The formulas of small trees, at every vector.

use cpp_conditions::Formula;
use decision_tree::Forest;
use fam_outer::NoMemory;
use std::alloc::Global;
use std::test::Fail;
use tree_unify::untrue;

/// Whether a formula is true at two truths.
fn truth(part: &Formula, vector: &[bool; 2]) -> bool {
    match part {
        Formula::Const(truth) => *truth,
        Formula::Test(number) => vector.get(*number as usize) == Some(&true),
        Formula::Not(inner) => !truth(inner, vector),
        Formula::And(left, right) => truth(left, vector) && truth(right, vector),
        Formula::Or(left, right) => truth(left, vector) || truth(right, vector),
    }
}

/// The formula that 'the first test, and not the second' is false, at the four vectors.
#[tactic(auto, using(decision_tree::proofs::Numbers::stays))]
fn truths(alloc: Global) -> Result<[bool; 4], NoMemory> {
    let mut forest = Forest::new(alloc);
    let no = forest.leaf(false)?;
    let yes = forest.leaf(true)?;
    let second = forest.node(1, &yes, &no)?;
    let tree = forest.node(0, &no, &second)?;
    let made = untrue(alloc, &tree)?;
    Ok([
        truth(&made, &[false, false]),
        truth(&made, &[false, true]),
        truth(&made, &[true, false]),
        truth(&made, &[true, true]),
    ])
}

#[test]
fn a_tree_is_denied(rt: HostRuntime) -> Result<(), Fail> {
    let answers = match truths(rt.alloc()) {
        Ok(answers) => answers,
        Err(NoMemory) => truths(rt.alloc())?,
    };
    assert!(rt; answers == [true, true, false, true]);
    Ok(())
}
