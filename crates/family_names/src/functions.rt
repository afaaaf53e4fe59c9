//! The functions outside that a file declares, and the faults of declarations and calls of them.
#![tactic(auto)]

ghost use Rattle.std.specs.Prelude.{◌≡◌, [], IfOk, OnOk};
ghost use Rattle.family_names.specs.Names.{function_fault};
ghost use Rattle.family_names.specs.NameContexts.{plain, IsFit};
ghost use Rattle.family_names.specs.Judging as judging;

use crate::declarations::{Declaration, has_one, is_clear};
use crate::faults::{Question, first_so};
use crate::groups::Groups;
use crate::name_context::NameContext;
use fam_outer::{FileCode, NoMemory};
use std::alloc::Global;

/// The declarations of functions behind some items: those with a value, those with `void`, and both.
#[derive(Drop)]
pub(crate) struct Functions {
    values: Vec<Declaration>,
    voids: Vec<Declaration>,
    all: Vec<Declaration>,
}

impl Functions {
    /// No function. It takes no memory.
    pub(crate) fn new(alloc: Global) -> Functions
        ensures { judging.AreFunctions [] result }
    {
        Functions {
            values: Vec::new(alloc),
            voids: Vec::new(alloc),
            all: Vec::new(alloc),
        }
    }

    /// The declarations with `void`, or those with a value.
    fn declared(&self, is_void: bool) -> &[Declaration]
        ensures { result.now ≡ judging.functions_in is_void self.now }
    {
        if is_void {
            self.voids.as_slice()
        } else {
            self.values.as_slice()
        }
    }

    /// The declarations of the functions that may be called: with a value where one is wanted, and else all.
    fn callable(&self, wants_value: bool) -> &[Declaration]
        ensures { result.now ≡ judging.callable_in wants_value self.now }
    {
        if wants_value {
            self.values.as_slice()
        } else {
            self.all.as_slice()
        }
    }

    /// Adds a declaration in these groups, with `void` or with a value.
    fn add(
        &mut self,
        alloc: Global,
        groups: &Groups,
        is_void: bool,
        name: u32,
    ) -> Result<(), NoMemory>
        ensures { OnOk result (judging.AddsFunction self.old groups.now is_void name self.new) }
    {
        let copy = groups.copy(alloc)?;
        let groups = groups.copy(alloc)?;
        self.all.push(Declaration { name, groups: copy })?;
        if is_void {
            self.voids.push(Declaration { name, groups })?;
            Ok(())
        } else {
            self.values.push(Declaration { name, groups })?;
            Ok(())
        }
    }
}

/// The fault of a call in these groups, where a value is wanted or not: a function with `void` has none. Where it is clear that
/// a declaration is kept wherever the call is, nothing is asked.
pub(crate) fn call_fault(
    alloc: Global,
    context: &NameContext<'_>,
    groups: &Groups,
    functions: &Functions,
    wants_value: bool,
    function: u32,
) -> Result<Option<FileCode>, NoMemory>
    requires { IsFit (plain context.now) }
    ensures { IfOk result (λ fault. judging.IsCall (plain context.now) groups.now functions.now wants_value function fault) }
{
    let callable = functions.callable(wants_value);
    if !has_one(callable, function) {
        return Ok(Some(FileCode::Undeclared(None)));
    }
    if is_clear(callable, function, groups) {
        return Ok(None);
    }
    match first_so(alloc, context, groups, callable, Question::Missed, function)? {
        Some(config) => Ok(Some(FileCode::Undeclared(Some(config.values)))),
        None => Ok(None),
    }
}

/// The fault of a declaration that has no unlike one before it at the same configuration.
fn function_fault(context: &NameContext<'_>, function: u32) -> Option<FileCode>
    ensures { result ≡ function_fault (plain context.now) function }
{
    if context.is_feature_function(function) {
        Some(FileCode::FeatureInCode)
    } else {
        None
    }
}

/// The fault of a declaration in these groups, with `void` or with a value.
fn unlike_fault(
    alloc: Global,
    context: &NameContext<'_>,
    groups: &Groups,
    functions: &Functions,
    is_void: bool,
    function: u32,
) -> Result<Option<FileCode>, NoMemory>
    requires { IsFit (plain context.now) }
    ensures { IfOk result (λ fault. judging.IsUnlike (plain context.now) groups.now functions.now is_void function fault) }
{
    let unlike = functions.declared(!is_void);
    if !has_one(unlike, function) {
        return Ok(function_fault(context, function));
    }
    match first_so(alloc, context, groups, unlike, Question::MetAgain, function)? {
        Some(config) => Ok(Some(FileCode::Twice(Some(config.values)))),
        None => Ok(function_fault(context, function)),
    }
}

/// The fault of a declaration in these groups, with `void` or with a value; without one it is added.
pub(crate) fn declare_function(
    alloc: Global,
    context: &NameContext<'_>,
    groups: &Groups,
    functions: &mut Functions,
    is_void: bool,
    function: u32,
) -> Result<Option<FileCode>, NoMemory>
    requires { IsFit (plain context.now) }
    ensures { IfOk result (λ fault. judging.DeclaresFunction (plain context.now) groups.now functions.old is_void function functions.new fault) }
{
    let fault = unlike_fault(alloc, context, groups, functions, is_void, function)?;
    if fault.is_none() {
        functions.add(alloc, groups, is_void, function)?;
    }
    Ok(fault)
}
