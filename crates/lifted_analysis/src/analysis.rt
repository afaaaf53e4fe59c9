//! The analysis of a family.
#![tactic(auto)]

ghost use Rattle.std.specs.Prelude.{◌≡◌, ◌<◌, ◌++◌, ◌∷◌, [], ℕ, map, length, false, IfOk, OnOk, List, Bool, All};
ghost use Rattle.c_tree.specs.View.{whole};
ghost use Rattle.c_tree.specs.Whole.{IsProgram};
ghost use Rattle.c_tree.specs.Places.{program_places};
ghost use Rattle.c_tree.specs.Project.{IsConditioned};
ghost use Rattle.decision_tree.specs.Listed.{IsNumberedTree};
ghost use Rattle.decision_tree.specs.Plain.{HasTest, IsReduced, TestsBelow};
ghost use Rattle.decision_tree.specs.View.{numbered, plain};
ghost use Rattle.plain_analysis.specs.Promises.{LoopsSettle, FinalsAreInductive, RunsForeseen};
ghost use Rattle.lifted_analysis.specs.declared.findings.AlarmTree.{AlarmTree};
ghost use Rattle.lifted_analysis.specs.Canon.{IsTreeOf};
ghost use Rattle.lifted_analysis.specs.Entries.{stop_there, IsReducedTree, AreReducedStops};
ghost use Rattle.lifted_analysis.specs.Findings.{HasEnded, HasNoted, AreFindings};
ghost use Rattle.lifted_analysis.specs.Rules.{chosen_heads};
ghost use Rattle.lifted_analysis.specs.Start.{start_at};
ghost use Rattle.lifted_analysis.specs.States.{IsFamily, IsTruth};
ghost use Rattle.lifted_analysis.specs.Promises.{variant_at, begin_at, leaf_at, stop_at, by_kind, valued, Occurs, AreBelow};

use crate::conditions::family_trees;
use crate::entries::enter_list;
use crate::family_context::FamilyContext;
use crate::finals::Finals;
use crate::findings::{AlarmTree, FamilyFindings, PlaceTree};
use crate::noted::Noted;
use crate::rule::rule_of;
use crate::start::start_tree;
use crate::tables::Tables;
use crate::ways::{end, enter};
use c_tree::{Kind, Program};
use cpp_conditions::Formula;
use decision_tree::Tree;
use fam_outer::{NoMemory, Place};
use indexmap::IndexMap;
use leaf_domain::{Leaf, equality_is_exact, transfer_is_sound};
use plain_analysis::Options;
use std::alloc::Global;
use std::marker::Brand;
use std::sync::ledger::{Blank, Ledger};

/// Adds an alarm tree that is true nowhere.
fn add_never<L: Leaf>(
    noted: &mut Noted<L>,
    family: &FamilyContext,
    place: Place,
    kind: Kind,
) -> Result<(), NoMemory>
    requires { IsFamily family.now }
    ensures stops { OnOk result ((v : List Bool)
        → map (stop_there v) noted.new.alarms.items
        ≡ map (stop_there v) noted.old.alarms.items ++ ((place, kind), false) ∷ []) }
    ensures trees { OnOk result (AreReducedStops family.now noted.old.alarms.items
        → AreReducedStops family.now noted.new.alarms.items) }
    ensures places { noted.new.places.items ≡ noted.old.places.items }
    ensures turns { noted.new.turns.items ≡ noted.old.turns.items }
{
    let tree = family.never.share()?;
    noted.alarms.push(AlarmTree { place, kind, tree })?;
    Ok(())
}

/// Adds the tree of the last place, at which nothing stops.
fn add_end<L: Leaf>(
    noted: &mut Noted<L>,
    family: &FamilyContext,
    place: Place,
    tree: Tree<L>,
) -> Result<(), NoMemory>
    requires family { IsFamily family.now }
    requires tree { IsReducedTree family.now (numbered tree) }
    ensures { OnOk result (HasEnded L.value family.now place (plain tree) noted.old noted.new) }
{
    noted.places.push(PlaceTree { place, tree })?;
    add_never(noted, family, place, Kind::Overflow)?;
    add_never(noted, family, place, Kind::ZeroDivisor)?;
    add_never(noted, family, place, Kind::Assertion)
}

/// What is found of a family's program, where its loops have at their heads what lines give them, or else their final trees.
pub(crate) fn noted_in<L: Leaf, K: Ledger>(
    tables: &mut Tables<L, K>,
    family: &FamilyContext,
    is_given: bool,
) -> Result<Noted<L>, NoMemory>
    requires family { IsFamily family.now }
    requires plausible { IsTruth family.now (numbered family.now.plausible.now) }
    requires program { IsProgram (whole family.now.program.now) }
    requires count { family.now.variables ≡ length family.now.program.now.names }
    ensures { IfOk result (λ f. HasNoted L.value L.meaning family.now (whole family.now.program.now)
        (λ v. chosen_heads L.meaning family.now is_given v
        (start_at L.meaning family.now family.now.program.now.start family.now.program.now.declared v)) f) }
{
    transfer_is_sound::<L>();
    let alloc = tables.alloc;
    let code = family.program;
    let start = start_tree(tables, family, code.start.items(), &code.declared)?;
    let rule = rule_of(alloc, &start, family.lines, is_given)?;
    let mut noted = Noted::new(alloc);
    let mut finals = Finals {
        entries: IndexMap::new(alloc),
    };
    let here = tables.truths.leaf(true)?;
    let entered = enter(tables, family, start)?;
    let ways = enter_list(
        tables,
        &mut finals,
        &mut noted,
        family,
        &rule,
        &here,
        &code.body,
        entered,
    )?;
    let tree = end(tables, family, &ways)?;
    add_end(&mut noted, family, code.end, tree)?;
    Ok(noted)
}

/// The analysis of a family, over these tables.
fn findings_in<L: Leaf, K: Ledger>(
    tables: &mut Tables<L, K>,
    code: &Program,
    conditions: &[Formula],
    plausible: &Formula,
    options: &Options,
) -> Result<FamilyFindings<L>, NoMemory>
    requires program { IsProgram (whole code.now) }
    requires below { AreBelow 320 conditions.now plausible.now }
    ensures { IfOk result (λ f. AreFindings L.value L.meaning options.now
        (whole code.now) conditions.now plausible.now f) }
{
    equality_is_exact::<L>();
    let trees = family_trees(tables, conditions, plausible)?;
    let family = FamilyContext {
        program: code,
        choices: &trees.choices,
        plausible: &trees.plausible,
        never: &trees.never,
        lines: &[],
        variables: code.names.items().len() as u32,
        options,
    };
    let noted = noted_in(tables, &family, false)?;
    Ok(FamilyFindings {
        places: noted.places,
        alarms: noted.alarms,
    })
}

/// The analysis of a family, with a counter of its steps.
fn analyse_counted<L: Leaf, K: Ledger>(
    alloc: Global,
    code: &Program,
    conditions: &[Formula],
    plausible: &Formula,
    options: &Options,
    blank: Blank,
) -> Result<FamilyFindings<L>, NoMemory>
    requires name { blank.name ≡ K.name }
    requires parts { blank.parts ≡ K.parts }
    requires some { 0 < K.parts }
    requires program { IsProgram (whole code.now) }
    requires below { AreBelow 320 conditions.now plausible.now }
    ensures { IfOk result (λ f. AreFindings L.value L.meaning options.now
        (whole code.now) conditions.now plausible.now f) }
{
    let mut tables = Tables::<L, K>::new(alloc, blank);
    findings_in(&mut tables, code, conditions, plausible, options)
}

/// The analysis of all variants of a family at once.
///
/// A vector has a truth for each numbered test of the conditions, of which `conditions` has one formula each, and of
/// `plausible`; all numbers are below 320. The program of a vector is the family's, projected by the truths of the conditions
/// there. Its analysis begins with the leaf of its start values, or with Nothing where `plausible` is false.
///
/// The places are those of the family in the order of the text, that of the closing brace of `main` last. The tree of a place
/// is the one reduced tree (after Bryant) whose leaf at each vector is what the analysis of that vector's program alone, with
/// these options, has at the place, and Nothing where that program lacks the place. For each place there are three alarm
/// trees, in the order of the kinds, which are true at exactly the vectors at which that analysis has an alarm of the kind
/// there. Each test of a tree is a number of the formulas, and its subtrees have numbers that tell them apart. In the mode of the options and from each store that the first leaf
/// of a vector holds, a run of its program is where the leaf holds its store, the rounds of a loop settle, and its final leaf
/// is inductive, as for `analyse_one`. The only refusal is want of memory.
pub fn analyse_family<L: Leaf>(
    alloc: Global,
    code: &Program,
    conditions: &[Formula],
    plausible: &Formula,
    options: &Options,
) -> Result<FamilyFindings<L>, NoMemory>
    requires program { IsProgram (whole code.now) }
    requires conditioned { IsConditioned (length conditions.now) (whole code.now) }
    requires below { AreBelow 320 conditions.now plausible.now }
    ensures places { IfOk result (λ f. map (λ p. p.place) f.places.items ≡ program_places (whole code.now)) }
    ensures trees { IfOk result (λ f. (m : ℕ) → AreBelow m conditions.now plausible.now
        → All (λ p. IsTreeOf m (leaf_at L.meaning options.now
        (whole code.now) conditions.now plausible.now p.place)
        (valued L.value (plain p.tree))) f.places.items) }
    ensures kinds { IfOk result (λ f. map (λ a. (a.place, a.kind)) f.alarms.items
        ≡ by_kind (program_places (whole code.now))) }
    ensures alarms { IfOk result (λ f. (m : ℕ) → AreBelow m conditions.now plausible.now
        → All (λ (a : AlarmTree). IsTreeOf m
        (stop_at L.meaning options.now (whole code.now) conditions.now plausible.now (a.place, a.kind))
        (plain a.tree)) f.alarms.items) }
    ensures places_numbered { IfOk result (λ f. All (λ p. IsNumberedTree 0 320 (numbered p.tree)) f.places.items) }
    ensures alarms_numbered { IfOk result
        (λ f. All (λ (a : AlarmTree). IsNumberedTree 0 320 (numbered a.tree)) f.alarms.items) }
    ensures reduced { IfOk result (λ f. All (λ p. IsReduced (plain p.tree)) f.places.items) }
    ensures below { IfOk result (λ f. (m : ℕ) → AreBelow m conditions.now plausible.now
        → All (λ p. TestsBelow m (plain p.tree)) f.places.items) }
    ensures tests { IfOk result (λ f. All
        (λ p. (k : ℕ) → HasTest k (plain p.tree) → Occurs conditions.now plausible.now k) f.places.items) }
    ensures alarm_tests { IfOk result
        (λ f. All (λ (a : AlarmTree). (k : ℕ) → HasTest k (plain a.tree)
        → Occurs conditions.now plausible.now k) f.alarms.items) }
    ensures runs { (v : List Bool) → RunsForeseen L.meaning options.now
        (variant_at (whole code.now) conditions.now v)
        (begin_at L.meaning (whole code.now) conditions.now plausible.now v) }
    ensures settled { LoopsSettle L.meaning options.now }
    ensures inductive { FinalsAreInductive L.meaning options.now }
{
    transfer_is_sound::<L>();
    analyse_counted::<L, Brand>(alloc, code, conditions, plausible, options, Blank::new(1))
}
