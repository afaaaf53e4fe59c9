//! The constants that a file declares, and the names that it changes.
#![tactic(auto)]

ghost use Rattle.std.specs.Prelude.{◌≡◌, ℤ, List, [], ◌∷◌, ◌++◌, length, IfOk, OnOk};
ghost use Rattle.cpp_conditions.specs.Numbering.{vector_at};
ghost use Rattle.cpp_conditions.specs.Propositions.{IsBelow, true_on};
ghost use Rattle.cpp_conditions.specs.View.{formula};
ghost use Rattle.atom_solver.specs.Solutions.{Finds};
ghost use Rattle.c_grammar.specs.declared.items.Item as items;
ghost use Rattle.c_grammar.specs.Scoped.{IsSound, is_inside};
ghost use Rattle.family_names.specs.NameContexts.{plain, IsFit};
ghost use Rattle.family_names.specs.Judging as judging;

use crate::declarations::{Declaration, add_declaration, declaring, follow_blocks, has_one};
use crate::groups::Groups;
use crate::name_context::NameContext;
use crate::questions::keeping;
use crate::seen::Seen;
use c_grammar::{Item, Scoped, Sign, Track};
use cpp_conditions::Formula;
use cpp_conditions::formulas::both;
use fam_outer::{FileCode, NoMemory, Place};
use linear_atoms::Config;
use std::alloc::Global;

/// What is known of constants behind some items: what they tell of the next one, and the declarations of constants whose block is
/// open.
#[derive(Drop)]
pub(crate) struct Constants {
    pub(crate) track: Track,
    pub(crate) declarations: Scoped<Declaration>,
}

/// That what stands in these groups is kept, and one of the declarations of the name, where it is not a value's.
#[tactic(auto, using(crate::proofs::Meeting::kept_value, crate::proofs::Meeting::kept_other))]
fn meeting(
    alloc: Global,
    context: &NameContext<'_>,
    groups: &Groups,
    declarations: &[Declaration],
    name: u32,
) -> Result<Formula, NoMemory>
    requires { IsFit (plain context.now) }
    ensures truth { IfOk result (λ made. (values : List ℤ)
        → judging.is_met_constant (plain context.now) groups.now declarations.now name values
        ≡ true_on (vector_at context.now.atoms.now values) (formula made)) }
    ensures below { IfOk result (λ made. IsBelow (length context.now.atoms.now) (formula made)) }
{
    let kept = keeping(alloc, context.conditions, groups)?;
    if context.is_value(name) {
        return Ok(kept);
    }
    let declared = declaring(alloc, context.conditions, declarations, name)?;
    both(alloc, kept, declared)
}

/// The least valid configuration that keeps what stands in these groups, and one of the declarations of the name, where it is
/// not a value's.
fn first_met(
    alloc: Global,
    context: &NameContext<'_>,
    groups: &Groups,
    declarations: &[Declaration],
    name: u32,
) -> Result<Option<Config>, NoMemory>
    requires { IsFit (plain context.now) }
    ensures { IfOk result (λ found. Finds context.now.model.now
        (judging.is_met_constant (plain context.now) groups.now declarations.now name) found) }
{
    let wanted = meeting(alloc, context, groups, declarations, name)?;
    context.model.least_where(alloc, context.atoms, &wanted)
}

/// The fault of what an item changes, together with the one before it: nothing is asked where no constant has the name, and
/// it is no value's.
pub(crate) fn change_fault(
    alloc: Global,
    context: &NameContext<'_>,
    seen: &Seen,
    constants: &Constants,
    item: Item,
) -> Result<Option<(FileCode, Place)>, NoMemory>
    requires { IsFit (plain context.now) }
    ensures { (before : List items.Item) → judging.IsSeen before seen.now
        → judging.AreHeld before constants.now
        → IfOk result (λ fault. judging.IsChange (plain context.now) before item fault) }
{
    if !seen.in_main {
        return Ok(None);
    }
    let Some((name, place)) = constants.track.change(item) else {
        return Ok(None);
    };
    let declarations = constants.declarations.items();
    if !context.is_value(name) && !has_one(declarations, name) {
        return Ok(None);
    }
    match first_met(alloc, context, &seen.groups, declarations, name)? {
        Some(_config) => Ok(Some((FileCode::ChangedConstant, place))),
        None => Ok(None),
    }
}

/// Goes on behind a sign in these groups: a name that is a constant's is declared.
fn follow_constants(
    alloc: Global,
    declarations: &mut Scoped<Declaration>,
    is_constant: bool,
    groups: &Groups,
    in_main: bool,
    sign: Sign,
) -> Result<(), NoMemory>
    ensures { IsSound declarations.old → is_inside declarations.old ≡ in_main
        → OnOk result (judging.FollowsConstants declarations.old is_constant groups.now in_main sign declarations.new) }
{
    match sign {
        Sign::Name(name) => {
            if is_constant {
                add_declaration(alloc, declarations, groups, name)
            } else {
                Ok(())
            }
        }
        _ => follow_blocks(declarations, in_main, sign),
    }
}

impl Constants {
    /// No constant. It takes no memory.
    pub(crate) fn new(alloc: Global) -> Constants
        ensures { judging.AreHeld [] result }
    {
        Constants {
            track: Track::new(),
            declarations: Scoped::new(alloc),
        }
    }

    /// Goes on behind an item, behind others of which this is seen: a name that is declared, with `const` or `enum`, or by
    /// `#define`, is a constant's.
    pub(crate) fn follow(&mut self, alloc: Global, seen: &Seen, item: Item) -> Result<(), NoMemory>
        ensures { (before : List items.Item) → judging.IsSeen before seen.now
            → judging.AreHeld before self.old
            → OnOk result (judging.AreHeld (before ++ item ∷ []) self.new) }
    {
        let is_used = seen.uses_next(self.track);
        let is_constant = self.track.is_constant() && !is_used;
        follow_constants(
            alloc,
            &mut self.declarations,
            is_constant,
            &seen.groups,
            seen.in_main,
            item.sign,
        )?;
        self.track.follow(item);
        Ok(())
    }
}
