//! The first fault of a name.
#![tactic(auto)]

ghost use Rattle.std.specs.Prelude.{◌≡◌, ◌<◌, ◌^◌, nat_eq, false, List, ◌++◌, IfOk, OnOk};
ghost use Rattle.std.specs.List.{list_any};
ghost use Rattle.c_parser.specs.Names as specs;
ghost use Rattle.c_grammar.specs.declared.items.Item as items;
ghost use Rattle.c_grammar.specs.declared.items.Sign.TheVariants as signs;
ghost use Rattle.c_grammar.specs.Changes.{IsTrack};
ghost use Rattle.c_grammar.specs.Constants.{is_name};
ghost use Rattle.c_grammar.specs.Locals.{is_in_own};
ghost use Rattle.c_parser.specs.declared.names.Limits as limits;
ghost use Rattle.c_parser.specs.Judging as judging;
ghost use Rattle.c_parser.specs.Judging.{AreInScope, AreInScopeBehind, IsKnown, Judges, counted};

use crate::constants::{Constants, change_fault};
use crate::locals::Locals;
use crate::prototypes::Prototypes;
use c_grammar::{Item, Scoped, Sign, Track};
use fam_outer::{FileCode, MOST_NAMES, NoMemory, Place};
use std::alloc::Global;

/// Whether a number is among these.
pub(crate) fn contains(numbers: &[u32], number: u32) -> bool
    ensures { result ≡ list_any (nat_eq number) numbers.now }
{
    for other in numbers {
        if number == *other {
            return true;
        }
    }
    false
}

/// What is known behind some items: the names that they declare and whose block is open, those that `main` declares in any block,
/// the functions that they declare, and whether `main` is among them.
#[derive(Drop)]
pub(crate) struct Known {
    declared: Scoped<u32>,
    locals: Locals,
    prototypes: Prototypes,
    pub(crate) in_main: bool,
}

/// How many of the names of a file, the first ones, are variables, how many behind these are those of `main`, and how many
/// behind these constants, where they are to be counted.
#[derive(Clone, Copy)]
pub(crate) struct Limits {
    pub(crate) variables: u32,
    pub(crate) locals: u32,
    pub(crate) constants: u32,
}

/// Whether the name with this number is the 17th of so many, which come behind so many others.
fn is_seventeenth(others: usize, count: u32, number: u32) -> bool
    requires { others < 2 ^ 33 }
    ensures { result ≡ specs.is_seventeenth others count number }
{
    number as usize == others + MOST_NAMES && count as usize > MOST_NAMES
}

/// The fault of a name that is the 17th variable, the 17th of `main` or the 17th constant.
fn limit_fault(limits: Limits, number: u32) -> Option<FileCode>
    ensures { result ≡ specs.limit_fault (counted limits) number }
{
    let variables = limits.variables as usize;
    if is_seventeenth(0, limits.variables, number)
        || is_seventeenth(variables, limits.locals, number)
    {
        return Some(FileCode::TooManyVariables);
    }
    let others = variables + limits.locals as usize;
    if is_seventeenth(others, limits.constants, number) {
        return Some(FileCode::TooManyConstants);
    }
    None
}

/// The fault of a declaration, where these names are in scope, and these are barred besides.
fn declaration_fault(limits: Limits, scope: &[u32], barred: &[u32], number: u32) -> Option<FileCode>
    ensures { result ≡ specs.declaration_fault (counted limits) (scope.now ++ barred.now) number }
{
    if contains(scope, number) || contains(barred, number) {
        return Some(FileCode::Twice(None));
    }
    limit_fault(limits, number)
}

/// The fault of a use, in the name's own declarator or not, where these names are in scope: a name is in scope behind its
/// declarator.
fn use_fault(is_in_own: bool, scope: &[u32], number: u32) -> Option<FileCode>
    ensures { (counts : limits.Limits) → result ≡ specs.use_fault (counted counts) is_in_own scope.now number }
{
    if !is_in_own && contains(scope, number) {
        None
    } else {
        Some(FileCode::Undeclared(None))
    }
}

/// Whether a name that comes next is used: it stands in `main`, and not where a name is declared.
#[tactic(auto, using(crate::proofs::Judging::used_next))]
pub(crate) fn uses_next(in_main: bool, track: &Track) -> bool
    ensures { (before : List items.Item) → in_main ≡ specs.has_main before → IsTrack before track.now
        → result ≡ specs.is_used_behind before }
{
    in_main && !track.declares()
}

/// Whether a name that comes next stands in its own declarator.
fn is_in_own(track: &Track, number: u32) -> bool
    ensures { (before : List items.Item) → IsTrack before track.now → result ≡ is_in_own before number }
{
    match track.open() {
        Some(open) => number == open,
        None => false,
    }
}

/// The fault of a declaration behind items that this tells of; without one the name is known, and in scope.
fn declare(
    limits: Limits,
    known: &mut Known,
    track: &Track,
    number: u32,
) -> Result<Option<FileCode>, NoMemory>
    ensures { (before : List items.Item) → IsKnown before known.old → IsTrack before track.now
        → specs.is_used_behind before ≡ false
        → IfOk result (λ fault. Judges (counted limits) before (signs.Name number) known.new fault) }
{
    let is_static = track.is_static();
    let barred = known.locals.barring(is_static);
    if let Some(fault) = declaration_fault(limits, known.declared.items(), barred, number) {
        return Ok(Some(fault));
    }
    known.locals.add(known.in_main, is_static, number)?;
    known.declared.push(number)?;
    Ok(None)
}

/// Whether a block begins at a sign, in `main` or before it: the outermost one at `main`, and others at the braces in it.
fn begins_block(in_main: bool, sign: Sign) -> bool
    ensures { result ≡ judging.begins_block in_main sign }
{
    match sign {
        Sign::Main => !in_main,
        Sign::LeftBrace => in_main,
        _ => false,
    }
}

/// Goes on behind a sign that is no name, in `main` or before it; at the end of a block its names go out of scope.
pub(crate) fn follow_blocks(
    names: &mut Scoped<u32>,
    in_main: bool,
    sign: Sign,
) -> Result<(), NoMemory>
    ensures { (before : List items.Item) → AreInScope before names.old → in_main ≡ specs.has_main before
        → is_name sign ≡ false → OnOk result (AreInScopeBehind before sign names.new) }
{
    match sign {
        Sign::RightBrace => {
            names.leave();
            Ok(())
        }
        _ => {
            if begins_block(in_main, sign) {
                names.enter()
            } else {
                Ok(())
            }
        }
    }
}

/// The fault of an item behind others that this tells of; without one it is known.
fn judge(
    limits: Limits,
    known: &mut Known,
    track: &Track,
    sign: Sign,
) -> Result<Option<FileCode>, NoMemory>
    ensures { (before : List items.Item) → IsKnown before known.old → IsTrack before track.now
        → IfOk result (λ fault. Judges (counted limits) before sign known.new fault) }
{
    match sign {
        Sign::Main => {
            follow_blocks(&mut known.declared, known.in_main, sign)?;
            known.in_main = true;
            Ok(None)
        }
        Sign::Name(number) => {
            if uses_next(known.in_main, track) {
                let is_in_own = is_in_own(track, number);
                Ok(use_fault(is_in_own, known.declared.items(), number))
            } else {
                declare(limits, known, track, number)
            }
        }
        Sign::Function(number) => known.prototypes.judge(known.in_main, track, number),
        _ => {
            follow_blocks(&mut known.declared, known.in_main, sign)?;
            Ok(None)
        }
    }
}

/// The first fault of a name among the items of a file, with its place, where each `for` that declares variables stands as a
/// block; no name has a value from outside.
#[tactic(auto, unfolding(crate::specs::Names::first_name_fault))]
pub(crate) fn first_name_fault(
    alloc: Global,
    limits: Limits,
    items: &[Item],
) -> Result<Option<(FileCode, Place)>, NoMemory>
    ensures { IfOk result (λ fault. fault ≡ specs.first_name_fault (counted limits) items.now) }
{
    let mut known = Known {
        declared: Scoped::new(alloc),
        locals: Locals::new(alloc),
        prototypes: Prototypes::new(alloc),
        in_main: false,
    };
    let mut constants = Constants::new(alloc);
    for item in items {
        let change = change_fault(&known, &constants, *item);
        let track = constants.track;
        constants.follow(&known, *item)?;
        if let Some(code) = judge(limits, &mut known, &track, item.sign)? {
            return Ok(Some((code, item.place)));
        }
        if let Some(fault) = change {
            return Ok(Some(fault));
        }
    }
    Ok(None)
}
