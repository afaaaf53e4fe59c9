//! The fault of a name, by what is known of the items before it.
#![tactic(auto)]

ghost use Rattle.std.specs.Prelude.{◌≡◌, ℤ, true, List, [], length, None, IfOk};
ghost use Rattle.cpp_conditions.specs.Numbering.{vector_at};
ghost use Rattle.cpp_conditions.specs.Propositions.{IsBelow, true_on};
ghost use Rattle.cpp_conditions.specs.View.{formula};
ghost use Rattle.fam_outer.specs.declared.faults.FileCode.TheVariants.{Undeclared};
ghost use Rattle.atom_solver.specs.Solutions.{Finds};
ghost use Rattle.c_grammar.specs.Scoped.{IsSound, is_inside, still};
ghost use Rattle.family_names.specs.Names.{full_fault, test_count, IsWithFirst};
ghost use Rattle.family_names.specs.NameContexts.{plain, IsFit};
ghost use Rattle.family_names.specs.Judging as judging;

use crate::declarations::{Declaration, add_declaration, declaring, is_clear};
use crate::groups::Groups;
use crate::name_context::NameContext;
use crate::questions::keeping;
use crate::seen::{Seen, contains};
use crate::values::{Used, use_value};
use c_grammar::{NameClass, Scoped};
use cpp_conditions::Formula;
use cpp_conditions::formulas::{both, negation};
use fam_outer::{FileCode, MOST_CONSTANTS, MOST_NAMES, NoMemory};
use linear_atoms::Config;
use std::alloc::Global;

/// What is asked of a valid configuration about a name, and the declarations of it that are in scope where it stands.
#[derive(Clone, Copy)]
pub(crate) enum Question {
    /// Whether it keeps no declaration of the name, wherever the name stands.
    Undeclared,
    /// Whether it keeps the name which stands here, and no declaration of it.
    Missed,
    /// Whether it keeps the name which stands here, and a declaration of it.
    MetAgain,
}

/// The formula of a question.
fn asking(
    alloc: Global,
    context: &NameContext<'_>,
    groups: &Groups,
    declarations: &[Declaration],
    question: Question,
    name: u32,
) -> Result<Formula, NoMemory>
    requires { IsFit (plain context.now) }
    ensures truth { IfOk result (λ made. (values : List ℤ)
        → judging.is_so (plain context.now) groups.now declarations.now question name values
        ≡ true_on (vector_at context.now.atoms.now values) (formula made)) }
    ensures below { IfOk result (λ made. IsBelow (length context.now.atoms.now) (formula made)) }
{
    let declared = declaring(alloc, context.conditions, declarations, name)?;
    match question {
        Question::Undeclared => negation(alloc, declared),
        Question::Missed => {
            let none = negation(alloc, declared)?;
            let kept = keeping(alloc, context.conditions, groups)?;
            both(alloc, kept, none)
        }
        Question::MetAgain => {
            let kept = keeping(alloc, context.conditions, groups)?;
            both(alloc, kept, declared)
        }
    }
}

/// The least valid configuration of which the answer to a question is yes.
pub(crate) fn first_so(
    alloc: Global,
    context: &NameContext<'_>,
    groups: &Groups,
    declarations: &[Declaration],
    question: Question,
    name: u32,
) -> Result<Option<Config>, NoMemory>
    requires { IsFit (plain context.now) }
    ensures { IfOk result (λ found. Finds context.now.model.now
        (judging.is_so (plain context.now) groups.now declarations.now question name) found) }
{
    let wanted = asking(alloc, context, groups, declarations, question, name)?;
    context.model.least_where(alloc, context.atoms, &wanted)
}

/// The same of a name that stands here, and of the declarations of names that are in scope.
fn first_of_name(
    alloc: Global,
    context: &NameContext<'_>,
    seen: &Seen,
    question: Question,
    name: u32,
) -> Result<Option<Config>, NoMemory>
    requires { IsFit (plain context.now) }
    ensures { IfOk result (λ found. Finds context.now.model.now
        (judging.is_so (plain context.now) seen.now.groups (still 0 seen.now.declarations) question name) found) }
{
    first_so(
        alloc,
        context,
        &seen.groups,
        seen.declarations.items(),
        question,
        name,
    )
}

/// Whether the name is settled, in whatever groups.
fn has_settled(settled: &[Declaration], name: u32) -> bool {
    settled.iter().any(|declaration| declaration.name == name)
}

/// The fault of a use of a name that is declared, behind its declarator; without one it is settled, until the block is left, that
/// a declaration in scope is kept wherever the name is. Where that is clear, nothing is asked; and the first question of a
/// name is whether it is so everywhere.
fn missing_fault(
    alloc: Global,
    context: &NameContext<'_>,
    seen: &Seen,
    settled: &mut Scoped<Declaration>,
    name: u32,
) -> Result<Option<FileCode>, NoMemory>
    requires { IsFit (plain context.now) }
    ensures { is_inside seen.now.declarations ≡ true
        → judging.AreSettled (plain context.now) seen.now.declarations settled.old
        → IfOk result (λ fault. judging.Misses (plain context.now) seen.now settled.new name fault) }
{
    let groups = &seen.groups;
    if is_clear(seen.declarations.items(), name, groups)
        || is_clear(settled.items(), name, groups)
    {
        return Ok(None);
    }
    if !has_settled(settled.items(), name)
        && first_of_name(alloc, context, seen, Question::Undeclared, name)?.is_none()
    {
        let everywhere = Groups::new(alloc);
        add_declaration(alloc, settled, &everywhere, name)?;
        return Ok(None);
    }
    match first_of_name(alloc, context, seen, Question::Missed, name)? {
        Some(config) => Ok(Some(FileCode::Undeclared(Some(config.values)))),
        None => {
            add_declaration(alloc, settled, groups, name)?;
            Ok(None)
        }
    }
}

/// The fault of a use of a name in its own declarator, where the scope of no declaration of it has begun.
fn own_fault(
    alloc: Global,
    context: &NameContext<'_>,
    groups: &Groups,
    name: u32,
) -> Result<Option<FileCode>, NoMemory>
    requires { IsFit (plain context.now) }
    ensures { IfOk result (λ fault. IsWithFirst context.now.model.now
        (judging.is_missed (plain context.now) groups.now [] name) Undeclared None fault) }
{
    match first_so(alloc, context, groups, &[], Question::Missed, name)? {
        Some(config) => Ok(Some(FileCode::Undeclared(Some(config.values)))),
        None => Ok(None),
    }
}

/// The fault of a use, in the name's own declarator or not.
pub(crate) fn use_fault(
    alloc: Global,
    context: &NameContext<'_>,
    seen: &Seen,
    used: &mut Used,
    settled: &mut Scoped<Declaration>,
    is_own: bool,
    name: u32,
) -> Result<Option<FileCode>, NoMemory>
    requires { IsFit (plain context.now) }
    ensures { used.old.tests ≡ test_count (plain context.now) used.old.names.items
        → is_inside seen.now.declarations ≡ true
        → judging.AreSettled (plain context.now) seen.now.declarations settled.old
        → IfOk result (λ fault. judging.Uses (plain context.now) seen.now used.old settled.new is_own name used.new fault) }
{
    if context.is_value(name) {
        return use_value(context, seen.constants.len(), used, name);
    }
    if context.is_feature(name) {
        return Ok(Some(FileCode::FeatureInCode));
    }
    if !contains(&seen.names, name) {
        return Ok(Some(FileCode::Undeclared(None)));
    }
    if is_own {
        return own_fault(alloc, context, &seen.groups, name);
    }
    missing_fault(alloc, context, seen, settled, name)
}

/// The fault of one more name of a class, where there are so many of it, and so many features are used as values.
fn full_fault(class: NameClass, names: usize, values: usize) -> Option<FileCode>
    ensures { result ≡ full_fault class names values }
{
    match class {
        NameClass::Constant => {
            if names.saturating_add(values) >= MOST_CONSTANTS {
                Some(FileCode::TooManyConstants)
            } else {
                None
            }
        }
        NameClass::Variable | NameClass::Local => {
            if names >= MOST_NAMES {
                Some(FileCode::TooManyVariables)
            } else {
                None
            }
        }
    }
}

/// The fault of a declaration, of this class if its name is new, whose name no declaration before it has at the same
/// configuration, where so many features are used as values.
fn new_name_fault(
    context: &NameContext<'_>,
    seen: &Seen,
    values: usize,
    class: NameClass,
    name: u32,
) -> Option<FileCode>
    ensures { result ≡ judging.new_fault (plain context.now) seen.now values class name }
{
    if context.is_feature(name) {
        return Some(FileCode::FeatureInCode);
    }
    if contains(&seen.names, name) {
        return None;
    }
    full_fault(class, seen.names_in(class).len(), values)
}

/// That the name which stands here is kept, and a declaration that it may not repeat, as static or not.
fn repeating(
    alloc: Global,
    context: &NameContext<'_>,
    seen: &Seen,
    is_static: bool,
    name: u32,
) -> Result<Formula, NoMemory>
    requires { IsFit (plain context.now) }
    ensures truth { IfOk result (λ made. (values : List ℤ)
        → judging.is_met_again (plain context.now) seen.now.groups (judging.taken_in is_static seen.now) name values
        ≡ true_on (vector_at context.now.atoms.now values) (formula made)) }
    ensures below { IfOk result (λ made. IsBelow (length context.now.atoms.now) (formula made)) }
{
    let kept = keeping(alloc, context.conditions, &seen.groups)?;
    let taken = seen.taking(alloc, context.conditions, is_static, name)?;
    both(alloc, kept, taken)
}

/// The least valid configuration of which this holds.
fn first_repeated(
    alloc: Global,
    context: &NameContext<'_>,
    seen: &Seen,
    is_static: bool,
    name: u32,
) -> Result<Option<Config>, NoMemory>
    requires { IsFit (plain context.now) }
    ensures { IfOk result (λ found. Finds context.now.model.now
        (judging.is_met_again (plain context.now) seen.now.groups (judging.taken_in is_static seen.now) name) found) }
{
    let wanted = repeating(alloc, context, seen, is_static, name)?;
    context.model.least_where(alloc, context.atoms, &wanted)
}

/// The fault of a declaration, as static or not. Nothing is asked where none that it may not repeat has its name.
fn declaration_fault(
    alloc: Global,
    context: &NameContext<'_>,
    seen: &Seen,
    values: usize,
    class: NameClass,
    is_static: bool,
    name: u32,
) -> Result<Option<FileCode>, NoMemory>
    requires { IsFit (plain context.now) }
    ensures { IfOk result (λ fault. judging.IsAgain (plain context.now) seen.now values class is_static name fault) }
{
    if !seen.is_taken(is_static, name) {
        return Ok(new_name_fault(context, seen, values, class, name));
    }
    match first_repeated(alloc, context, seen, is_static, name)? {
        Some(config) => Ok(Some(FileCode::Twice(Some(config.values)))),
        None => Ok(new_name_fault(context, seen, values, class, name)),
    }
}

/// The fault of a declaration, as static or not, and of this class if its name is new, where so many features are used as
/// values; without one it is added.
pub(crate) fn declare(
    alloc: Global,
    context: &NameContext<'_>,
    seen: &mut Seen,
    values: usize,
    class: NameClass,
    is_static: bool,
    name: u32,
) -> Result<Option<FileCode>, NoMemory>
    requires { IsFit (plain context.now) }
    ensures { IsSound seen.old.declarations
        → IfOk result (λ fault. judging.Declares (plain context.now) seen.old values class is_static name seen.new fault) }
{
    let fault = declaration_fault(alloc, context, seen, values, class, is_static, name)?;
    if fault.is_none() {
        seen.add(alloc, class, is_static, name)?;
    }
    Ok(fault)
}
