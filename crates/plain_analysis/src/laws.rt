//! A law of passes over programs.
#![tactic(auto)]

ghost use Rattle.std.specs.Prelude.{◌≡◌, length};
ghost use Rattle.c_tree.specs.declared.tree.Mode.{Mode};
ghost use Rattle.c_tree.specs.View.{whole};
ghost use Rattle.c_tree.specs.Whole.{IsProgram, IsPlainProgram};
ghost use Rattle.plain_analysis.specs.Promises.{AreHeld, RunsForeseenBy};
ghost use Rattle.plain_analysis.specs.Statements.{Heads};
ghost use Rattle.plain_analysis.specs.Ways.{enter};

use c_tree::Program;
use leaf_domain::{Leaf, leaf_is_valid, transfer_is_sound};

/// A pass over a program foresees each run, whatever its loops have at their heads, as long as each head holds the stores with
/// which its loop is entered and those that a lap makes of the head's: the loop's body, left at its end or by a `continue`, and
/// then its step, or the test that stands last. It rests on the laws of leaves alone, and on nothing that an analysis does to
/// find such heads.
pub fn passes_foresee_runs<L: Leaf>(program: &Program, start: &L)
    requires program { IsProgram (whole program.now) }
    requires plain { IsPlainProgram (whole program.now) }
    requires variables { (L.value start.now).variables ≡ length program.now.names }
    ensures { (mode : Mode) (heads : Heads)
        → AreHeld L.meaning mode heads (whole program.now).body (enter (L.value start.now))
        → RunsForeseenBy L.meaning mode heads (whole program.now) (L.value start.now) }
{
    transfer_is_sound::<L>();
    leaf_is_valid(start);
}
