//! One pass over all variants of a family at once.
#![tactic(auto)]

ghost use Rattle.std.specs.Prelude.{◌≡◌, ◌<◌, ℕ, map, length, IfOk, List, Bool, All};
ghost use Rattle.fam_outer.specs.declared.faults.Place.{Place};
ghost use Rattle.c_tree.specs.View.{whole};
ghost use Rattle.c_tree.specs.Whole.{IsProgram};
ghost use Rattle.c_tree.specs.Places.{program_places};
ghost use Rattle.c_tree.specs.Project.{IsConditioned};
ghost use Rattle.decision_tree.specs.Listed.{IsNumberedTree};
ghost use Rattle.decision_tree.specs.View.{numbered, plain};
ghost use Rattle.plain_analysis.specs.Promises.{RunsForeseenBy};
ghost use Rattle.lifted_analysis.specs.declared.noted.TurnTree.{TurnTree};
ghost use Rattle.lifted_analysis.specs.declared.findings.AlarmTree.{AlarmTree};
ghost use Rattle.lifted_analysis.specs.declared.findings.LoopTree.{LoopTree};
ghost use Rattle.lifted_analysis.specs.declared.lines.LoopLine.{LoopLine};
ghost use Rattle.lifted_analysis.specs.Canon.{IsTreeOf};
ghost use Rattle.lifted_analysis.specs.Entries.{turn_there, IsReducedTree, AreSized};
ghost use Rattle.lifted_analysis.specs.Lines.{AreVariableBounds, AreRegionsBelow};
ghost use Rattle.lifted_analysis.specs.Pass.{heads_at, passed_at, pass_stop_at, turns_at_vector, inductive_at, loop_there, ArePassFindings};
ghost use Rattle.lifted_analysis.specs.Promises.{variant_at, begin_at, by_kind, valued, AreBelow};
ghost use Rattle.lifted_analysis.specs.Turns.{AreInductive, is_inductive, loop_places};

use crate::analysis::noted_in;
use crate::conditions::family_trees;
use crate::family_context::FamilyContext;
use crate::findings::{LoopTree, PassFindings};
use crate::lines::LoopLine;
use crate::noted::TurnTree;
use crate::states::{below, within};
use crate::tables::Tables;
use c_tree::{Mode, Program};
use cpp_conditions::Formula;
use fam_outer::NoMemory;
use leaf_domain::{Leaf, Thresholds, equality_is_exact, transfer_is_sound};
use plain_analysis::Options;
use std::alloc::Global;
use std::marker::Brand;
use std::sync::ledger::{Blank, Ledger};

/// The vectors at which each loop is inductive.
fn loop_trees<L: Leaf, K: Ledger>(
    tables: &mut Tables<L, K>,
    family: &FamilyContext,
    turns: &[TurnTree<L>],
) -> Result<Vec<LoopTree>, NoMemory>
    requires { AreSized L.value family.now turns.now }
    ensures at_each { IfOk result (λ made. (v : List Bool)
        → map (loop_there v) made.items
        ≡ map {B = Place × Bool} (λ (t : TurnTree L). (t.place, is_inductive L.meaning (turn_there L.value v t))) turns.now) }
    ensures reduced { IfOk result
        (λ made. All (λ (l : LoopTree). IsReducedTree family.now (numbered l.tree)) made.items) }
{
    let mut made = Vec::new(tables.alloc);
    for turn in turns {
        let entered = below(tables, family, &turn.entered, &turn.head)?;
        let again = below(tables, family, &turn.again, &turn.head)?;
        let tree = within(tables, family, &entered, &again, true)?;
        made.push(LoopTree {
            place: turn.place,
            tree,
        })?;
    }
    Ok(made)
}

/// The pass, over these tables.
fn pass_in<L: Leaf, K: Ledger>(
    tables: &mut Tables<L, K>,
    code: &Program,
    conditions: &[Formula],
    plausible: &Formula,
    mode: Mode,
    lines: &[LoopLine],
) -> Result<PassFindings<L>, NoMemory>
    requires program { IsProgram (whole code.now) }
    requires below { AreBelow 320 conditions.now plausible.now }
    requires regions { AreRegionsBelow 320 lines.now }
    requires bounds { All (λ (l : LoopLine). AreVariableBounds (length code.now.names) l.bounds) lines.now }
    ensures { IfOk result (λ f. ArePassFindings L.value L.meaning mode
        (whole code.now) conditions.now plausible.now lines.now f) }
{
    equality_is_exact::<L>();
    let trees = family_trees(tables, conditions, plausible)?;
    let options = Options {
        delay: 0,
        narrow: 0,
        thresholds: Thresholds::none(tables.alloc),
        mode,
    };
    let family = FamilyContext {
        program: code,
        choices: &trees.choices,
        plausible: &trees.plausible,
        never: &trees.never,
        lines,
        variables: code.names.items().len() as u32,
        options: &options,
    };
    let noted = noted_in(tables, &family, true)?;
    let loops = loop_trees(tables, &family, &noted.turns)?;
    Ok(PassFindings {
        places: noted.places,
        alarms: noted.alarms,
        loops,
    })
}

/// The pass, with a counter of its steps.
fn pass_counted<L: Leaf, K: Ledger>(
    alloc: Global,
    code: &Program,
    conditions: &[Formula],
    plausible: &Formula,
    mode: Mode,
    lines: &[LoopLine],
    blank: Blank,
) -> Result<PassFindings<L>, NoMemory>
    requires name { blank.name ≡ K.name }
    requires parts { blank.parts ≡ K.parts }
    requires some { 0 < K.parts }
    requires program { IsProgram (whole code.now) }
    requires below { AreBelow 320 conditions.now plausible.now }
    requires regions { AreRegionsBelow 320 lines.now }
    requires bounds { All (λ (l : LoopLine). AreVariableBounds (length code.now.names) l.bounds) lines.now }
    ensures { IfOk result (λ f. ArePassFindings L.value L.meaning mode
        (whole code.now) conditions.now plausible.now lines.now f) }
{
    let mut tables = Tables::<L, K>::new(alloc, blank);
    pass_in(&mut tables, code, conditions, plausible, mode, lines)
}

/// One pass over all variants of a family at once, in which each loop has at its head what the lines say.
///
/// Vectors, programs, start values and `plausible` are as for `analyse_family`. At a vector a loop has at its head the start
/// values with each variable set to its range in the first line at its place whose region holds there; it has Nothing where
/// there is no such line, or where that line has no ranges. The loop goes on from there alone, and a lap is passed once. So a pass
/// takes no rounds. Lines at other places say nothing.
///
/// The trees of places and the alarm trees are those of `analyse_family`, of the pass over each vector's program in place of
/// its analysis. For each loop of the family, in the order of the text, there is one reduced tree, which is true at exactly the
/// vectors at which the loop is inductive in that pass: the leaf with which it is entered and the leaf after a lap are below
/// the one at its head; or the vector's program lacks the loop. Where all loops of a vector's program are
/// inductive, the pass foresees each run from each store that the first leaf of the vector holds. All trees of stops and of
/// loops have numbers. The only refusal is want of memory.
pub fn pass_family<L: Leaf>(
    alloc: Global,
    code: &Program,
    conditions: &[Formula],
    plausible: &Formula,
    mode: Mode,
    lines: &[LoopLine],
) -> Result<PassFindings<L>, NoMemory>
    requires program { IsProgram (whole code.now) }
    requires conditioned { IsConditioned (length conditions.now) (whole code.now) }
    requires below { AreBelow 320 conditions.now plausible.now }
    requires regions { AreRegionsBelow 320 lines.now }
    requires bounds { All (λ (l : LoopLine). AreVariableBounds (length code.now.names) l.bounds) lines.now }
    ensures places { IfOk result (λ f. map (λ p. p.place) f.places.items ≡ program_places (whole code.now)) }
    ensures trees { IfOk result (λ f. (m : ℕ) → AreBelow m conditions.now plausible.now
        → AreRegionsBelow m lines.now
        → All (λ p. IsTreeOf m (passed_at L.meaning mode
        (whole code.now) conditions.now plausible.now lines.now p.place)
        (valued L.value (plain p.tree))) f.places.items) }
    ensures kinds { IfOk result (λ f. map (λ a. (a.place, a.kind)) f.alarms.items
        ≡ by_kind (program_places (whole code.now))) }
    ensures alarms { IfOk result (λ f. (m : ℕ) → AreBelow m conditions.now plausible.now
        → AreRegionsBelow m lines.now
        → All (λ (a : AlarmTree). IsTreeOf m (pass_stop_at L.meaning mode
        (whole code.now) conditions.now plausible.now lines.now (a.place, a.kind))
        (plain a.tree)) f.alarms.items) }
    ensures loops { IfOk result (λ f. map (λ l. l.place) f.loops.items ≡ loop_places (whole code.now).body) }
    ensures inductive { IfOk result (λ f. (m : ℕ) → AreBelow m conditions.now plausible.now
        → AreRegionsBelow m lines.now
        → All (λ (l : LoopTree). IsTreeOf m (inductive_at L.meaning mode
        (whole code.now) conditions.now plausible.now lines.now l.place)
        (plain l.tree)) f.loops.items) }
    ensures alarms_numbered { IfOk result
        (λ f. All (λ (a : AlarmTree). IsNumberedTree 0 320 (numbered a.tree)) f.alarms.items) }
    ensures loops_numbered { IfOk result
        (λ f. All (λ (l : LoopTree). IsNumberedTree 0 320 (numbered l.tree)) f.loops.items) }
    ensures runs { (v : List Bool)
        → AreInductive L.meaning (turns_at_vector L.meaning mode
        (whole code.now) conditions.now plausible.now lines.now v)
        → RunsForeseenBy L.meaning mode
        (heads_at L.meaning (whole code.now) conditions.now plausible.now lines.now v)
        (variant_at (whole code.now) conditions.now v)
        (begin_at L.meaning (whole code.now) conditions.now plausible.now v) }
{
    transfer_is_sound::<L>();
    pass_counted::<L, Brand>(
        alloc,
        code,
        conditions,
        plausible,
        mode,
        lines,
        Blank::new(1),
    )
}
