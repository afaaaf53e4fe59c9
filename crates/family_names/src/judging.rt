//! The first fault of a name.
#![tactic(auto)]

ghost use Rattle.std.specs.Prelude.{◌≡◌, Bool, List, length, IfOk, OnOk};
ghost use Rattle.std.specs.List.{All};
ghost use Rattle.linear_atoms.specs.Atoms.{AreAtoms};
ghost use Rattle.cpp_conditions.specs.Propositions.{IsBelow};
ghost use Rattle.cpp_conditions.specs.View.{formula};
ghost use Rattle.cpp_groups.specs.Kept.{sections_after};
ghost use Rattle.c_grammar.specs.declared.items.Item as items;
ghost use Rattle.c_grammar.specs.Changes as changes;
ghost use Rattle.c_grammar.specs.Kept.{directive_of};
ghost use Rattle.c_grammar.specs.Locals.{is_main, is_in_own};
ghost use Rattle.c_grammar.specs.Scoped.{IsSound, is_inside};
ghost use Rattle.family_names.specs.Groups.{sections};
ghost use Rattle.family_names.specs.Names.{IsFirstNameFault};
ghost use Rattle.family_names.specs.NameContexts.{plain, IsFit};
ghost use Rattle.family_names.specs.Judging as judging;

use crate::constants::{Constants, change_fault};
use crate::declarations::{Declaration, follow_blocks};
use crate::faults::{declare, use_fault};
use crate::functions::{call_fault, declare_function};
use crate::groups::Groups;
use crate::name_context::NameContext;
use crate::seen::Seen;
use crate::values::Used;
use c_grammar::{Item, NameClass, Scoped, Sign, Track};
use cpp_groups::GroupDirective;
use fam_outer::{FileCode, NoMemory, Place};
use std::alloc::Global;

/// The group directive of a sign.
fn directive(sign: Sign) -> Option<GroupDirective>
    ensures { result ≡ directive_of sign }
{
    match sign {
        Sign::GroupIf(number) => Some(GroupDirective::If(number)),
        Sign::GroupElif(number) => Some(GroupDirective::Elif(number)),
        Sign::GroupElse => Some(GroupDirective::Else),
        Sign::GroupEnd => Some(GroupDirective::Endif),
        _ => None,
    }
}

/// Goes on behind a sign, which may be a group directive.
fn follow_groups(groups: &mut Groups, sign: Sign) -> Result<(), NoMemory>
    ensures { OnOk result ((truths : List Bool)
        → sections truths groups.new ≡ sections_after truths (sections truths groups.old)
        (directive_of sign)) }
{
    match directive(sign) {
        None => Ok(()),
        Some(directive) => groups.follow(directive),
    }
}

/// Whether the sign is `main`.
fn is_main(sign: Sign) -> bool
    ensures { result ≡ is_main sign }
{
    matches!(sign, Sign::Main)
}

/// Goes on behind a sign that is no name and no function.
fn pass(seen: &mut Seen, settled: &mut Scoped<Declaration>, sign: Sign) -> Result<(), NoMemory>
    ensures { IsSound seen.old.declarations → IsSound settled.old
        → is_inside seen.old.declarations ≡ seen.old.in_main
        → is_inside settled.old ≡ seen.old.in_main
        → OnOk result (judging.Passes seen.old settled.old sign seen.new settled.new) }
{
    follow_blocks(&mut seen.declarations, seen.in_main, sign)?;
    follow_blocks(settled, seen.in_main, sign)?;
    follow_groups(&mut seen.groups, sign)?;
    seen.in_main = seen.in_main || is_main(sign);
    Ok(())
}

/// Whether a name that comes next stands in its own declarator.
fn is_in_own(track: Track, name: u32) -> bool
    ensures { (before : List items.Item) → changes.IsTrack before track
        → result ≡ is_in_own before name }
{
    match track.open() {
        Some(open) => name == open,
        None => false,
    }
}

/// The fault of an item, of which the items before it tell this; without one it is seen.
fn judge(
    alloc: Global,
    context: &NameContext<'_>,
    seen: &mut Seen,
    used: &mut Used,
    settled: &mut Scoped<Declaration>,
    track: Track,
    sign: Sign,
) -> Result<Option<FileCode>, NoMemory>
    requires { IsFit (plain context.now) }
    ensures { (before : List items.Item) → judging.IsSeen before seen.old
        → judging.AreUsed (plain context.now) before used.old
        → judging.AreSettled (plain context.now) seen.old.declarations settled.old
        → changes.IsTrack before track
        → IfOk result (λ fault. judging.Judges (plain context.now) before sign seen.new used.new settled.new fault) }
{
    match sign {
        Sign::Name(number) => {
            if seen.uses_next(track) {
                let is_own = is_in_own(track, number);
                use_fault(alloc, context, seen, used, settled, is_own, number)
            } else {
                let values = used.names.len();
                let class = NameClass::of(seen.in_main, track.is_constant());
                let is_static = track.is_static();
                declare(alloc, context, seen, values, class, is_static, number)
            }
        }
        Sign::Function(number) => {
            let groups = &seen.groups;
            if seen.in_main {
                let wants_value = track.is_behind_equals();
                call_fault(alloc, context, groups, &seen.functions, wants_value, number)
            } else {
                let is_void = track.is_behind_void();
                let functions = &mut seen.functions;
                declare_function(alloc, context, groups, functions, is_void, number)
            }
        }
        _ => {
            pass(seen, settled, sign)?;
            Ok(None)
        }
    }
}

/// The first fault of a name among the items of a file, with its place; at one name it is the first of these.
///
/// - F13: a name is used, and no declaration before it has it; or some valid configuration keeps the name and no declaration
///   of it that is in scope, and then with the values of the least one (ISO/IEC 9899:2011, 6.5.1). So it is of a function that
///   is called, where a declaration with `void` doesn't count if a value is wanted (6.5.2.2).
/// - F14: a name is declared, and some valid configuration keeps it and an earlier declaration of it that is in scope, with
///   the values of the least one (6.7): no name hides another. Where one of the two is static, each earlier one in `main`
///   counts, whatever block it stands in: variables of one name in `main` are one variable, and a static one has its value
///   before the program starts (6.2.4p3). So it is of a function, where only a declaration with another result counts: `void`
///   or a value.
/// - F15: a feature's name is declared, as a name or a function, or a Boolean feature's is used.
/// - F17: a 17th variable is declared before `main`, or a 17th name in it.
/// - F22: an integer feature is used as a value for the first time, and more than 256 tests tell its value and those of the
///   features that are used before it.
/// - F23: a name is assigned, raised, lowered or read from input, and some valid configuration keeps it and a declaration of it
///   in scope with `const` or `enum`, or by `#define`; or keeps it, and it is an integer feature's; no values are told
///   (6.7.2.2, 6.7.3, 6.10.3 and 6.5.16).
/// - F24: a constant is declared before `main`, or an integer feature is used as a value for the first time, and with it there
///   are 17 such constants and values.
///
/// Before `main` each name and function is declared. In `main` a name is declared behind a word of a type, `const` or a comma,
/// each other name is used, and each function is called; F13 is said of no feature's name. A name is of the class of its first
/// declaration, wherever it is declared again: a variable's or a constant's before `main`, or one of `main`, with `const` or
/// without; names of each class are counted once. The scope of a name begins behind its declarator and initialiser, since it
/// has no value before (`int x = x;` is F13). Before `main` it goes on to the end of the file, and in `main` to the end of the
/// block that the declaration stands in (6.2.1), whatever groups the braces stand in; behind it the name may be declared again,
/// where neither is static. A declaration in `main` is static from `static` on to its semicolon.
/// A function is declared with `void` directly behind that word, and a value is wanted of it directly behind `=`; it counts as
/// no variable. A configuration keeps an item where each group around it is the kept one of its section (6.10.1). The
/// formulas' numbers are below the number of atoms, and the atoms are as for `Prepared::least_where`. It answers an error only
/// for want of memory.
///
/// The solver is asked once for each name, list of groups around it and block, and once more for each name and block, unless
/// an answer of the same block or one around it tells; once for each call, each declaration of a name that an earlier one takes
/// in some groups, each use of a name in its own declarator, and each change of a constant or a value. It is not asked of a use
/// or a call where a declaration stands in the outermost of those groups. Otherwise the time is that of the items by the
/// declarations and these answers.
pub fn first_name_fault(
    alloc: Global,
    context: &NameContext<'_>,
    items: &[Item],
) -> Result<Option<(FileCode, Place)>, NoMemory>
    requires atoms { AreAtoms (length context.now.model.now.features) context.now.atoms.now }
    requires conditions { All (λ f. IsBelow (length context.now.atoms.now)
        (formula f)) context.now.conditions.now }
    ensures { IfOk result (λ fault. IsFirstNameFault (plain context.now) items.now fault) }
{
    let mut seen = Seen::new(alloc);
    let mut used = Used::new(alloc);
    let mut settled = Scoped::new(alloc);
    let mut constants = Constants::new(alloc);
    for item in items {
        let change = change_fault(alloc, context, &seen, &constants, *item)?;
        let track = constants.track;
        constants.follow(alloc, &seen, *item)?;
        if let Some(code) = judge(
            alloc,
            context,
            &mut seen,
            &mut used,
            &mut settled,
            track,
            item.sign,
        )? {
            return Ok(Some((code, item.place)));
        }
        if let Some(fault) = change {
            return Ok(Some(fault));
        }
    }
    Ok(None)
}
