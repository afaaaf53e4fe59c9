//! Regions of small trees over `A` (Boolean) and `N` (from 0 to 7) with the constraint `A || N >= 3`.

ghost use Rattle.std.specs.Prelude.{◌≡◌, IfOk};
ghost use Rattle.linear_atoms.specs.Atoms.{AreAtoms};

use alarm_report::alarms::alarms_of;
use alarm_report::finding::regions;
use alarm_report::region::Region;
use atom_solver::Prepared;
use c_tree::Kind;
use decision_tree::{Forest, Tree};
use fam_outer::Place;
use lifted_analysis::AlarmTree;
use linear_atoms::Atom;
use std::alloc::Global;
use std::test::Fail;
use test_inputs::models::{at_least, switch_and_number};

/// `A`, `N >= 3` and `N >= 5`.
fn atoms(alloc: Global) -> Result<[Atom; 3], Fail>
    ensures { IfOk result (λ made. AreAtoms 2 made) }
{
    Ok([
        at_least(alloc, 0, 1)?,
        at_least(alloc, 1, 3)?,
        at_least(alloc, 1, 5)?,
    ])
}

/// What a region says: its literals by the bounds of their atoms, and its example.
fn is_region(region: &Region, literals: &[(i64, bool)], example: [i64; 2]) -> bool {
    let found = region.literals.items();
    if found.len() != literals.len() {
        return false;
    }
    for (literal, (bound, positive)) in found.iter().zip(literals) {
        if literal.atom.bound != *bound || literal.positive != *positive {
            return false;
        }
    }
    region.example.values.items() == example.as_slice()
}

#[test]
#[tactic(auto, using(decision_tree::proofs::Numbers::stays))]
fn a_literal_stays(rt: HostRuntime) -> Result<(), Fail> {
    let alloc = rt.alloc();
    let model = switch_and_number(alloc)?;
    let atoms = atoms(alloc)?;
    let mut forest = Forest::new(alloc);
    let yes = forest.leaf(true)?;
    let no = forest.leaf(false)?;
    let tree = forest.node(0, &yes, &no)?;
    let found = regions(alloc, &model, &atoms, &tree)?;
    match found.items() {
        [region] => assert!(rt; is_region(region, &[(1, false)], [0, 3])),
        _ => return Err(Fail::new("one region")),
    }
    let whole = regions(alloc, &model, &atoms, &yes)?;
    match whole.items() {
        [region] => assert!(rt; is_region(region, &[], [0, 3])),
        _ => return Err(Fail::new("one region")),
    }
    assert!(rt; regions(alloc, &model, &atoms, &no)?.items().is_empty());
    Ok(())
}

#[test]
#[tactic(auto, using(decision_tree::proofs::Numbers::stays))]
fn an_implied_literal_goes(rt: HostRuntime) -> Result<(), Fail> {
    let alloc = rt.alloc();
    let model = switch_and_number(alloc)?;
    let atoms = atoms(alloc)?;
    let mut forest = Forest::new(alloc);
    let yes = forest.leaf(true)?;
    let no = forest.leaf(false)?;
    let high = forest.node(2, &no, &yes)?;
    let tree = forest.node(1, &no, &high)?;
    let found = regions(alloc, &model, &atoms, &tree)?;
    match found.items() {
        [region] => assert!(rt; is_region(region, &[(5, true)], [0, 5])),
        _ => return Err(Fail::new("one region")),
    }
    Ok(())
}

#[test]
#[tactic(auto, using(decision_tree::proofs::Numbers::stays))]
fn a_path_without_a_configuration_has_no_region(rt: HostRuntime) -> Result<(), Fail> {
    let alloc = rt.alloc();
    let model = switch_and_number(alloc)?;
    let atoms = atoms(alloc)?;
    let mut forest = Forest::new(alloc);
    let yes = forest.leaf(true)?;
    let no = forest.leaf(false)?;
    let low = forest.node(1, &yes, &no)?;
    let tree = forest.node(0, &low, &yes)?;
    let found = regions(alloc, &model, &atoms, &tree)?;
    match found.items() {
        [region] => assert!(rt; is_region(region, &[(1, true)], [1, 0])),
        _ => return Err(Fail::new("one region")),
    }
    Ok(())
}

/// The vectors at which a statement may stop.
fn stops(line: u32, kind: Kind, tree: Tree<bool>) -> AlarmTree
    ensures { result ≡ record { place = record { line = line; column = 5 }; kind = kind; tree = tree } }
{
    AlarmTree {
        place: Place { line, column: 5 },
        kind,
        tree,
    }
}

// `!A` in both trees, and `A && N >= 3` in the second
#[test]
#[tactic(auto, using(decision_tree::proofs::Numbers::stays))]
fn alarms_with_one_path_have_equal_regions(rt: HostRuntime) -> Result<(), Fail> {
    let alloc = rt.alloc();
    let model = switch_and_number(alloc)?;
    let prepared = Prepared::new(alloc, &model)?;
    let atoms = atoms(alloc)?;
    let mut forest = Forest::new(alloc);
    let yes = forest.leaf(true)?;
    let no = forest.leaf(false)?;
    let high = forest.node(1, &no, &yes)?;
    let off = forest.node(0, &yes, &no)?;
    let either = forest.node(0, &yes, &high)?;
    let trees = [
        stops(4, Kind::Overflow, off),
        stops(6, Kind::ZeroDivisor, either),
    ];
    let found = alarms_of(alloc, &prepared, &atoms, &trees)?;
    match found.items() {
        [first, second, third] => {
            assert!(rt; is_region(&first.region, &[(1, false)], [0, 3]));
            assert!(rt; is_region(&second.region, &[(1, false)], [0, 3]));
            assert!(rt; is_region(&third.region, &[(1, true), (3, true)], [1, 3]));
            assert_eq!(rt; second.place, Place { line: 6, column: 5 });
            assert_eq!(rt; second.kind, Kind::ZeroDivisor);
        }
        _ => return Err(Fail::new("three alarms")),
    }
    Ok(())
}
