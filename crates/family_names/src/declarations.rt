//! Declarations and the groups that they stand in.
#![tactic(auto)]

ghost use Rattle.std.specs.Prelude.{◌≡◌, ℕ, Bool, true, List, ◌++◌, ◌&&◌, ◌||◌, IfOk, OnOk};
ghost use Rattle.std.specs.List.{All};
ghost use Rattle.cpp_conditions.specs.Propositions.{IsBelow, true_on};
ghost use Rattle.cpp_conditions.specs.View.{formula};
ghost use Rattle.c_grammar.specs.Scoped.{IsSound, is_inside};
ghost use Rattle.family_names.specs.Blocks.{AddsDeclaration, FollowsBlocks};
ghost use Rattle.family_names.specs.Groups.{are_kept};
ghost use Rattle.family_names.specs.Names.{truths_on};
ghost use Rattle.family_names.specs.Declarations.{is_kept, is_declared, has_one};

use crate::groups::{Groups, cut_last};
use crate::questions::keeping;
use c_grammar::{Scoped, Sign};
use cpp_conditions::Formula;
use cpp_conditions::formulas::either;
use fam_outer::NoMemory;
use std::alloc::Global;

/// A declaration: the number of its name, and the groups that it stands in.
#[derive(Drop)]
pub(crate) struct Declaration {
    pub(crate) name: u32,
    pub(crate) groups: Groups,
}

/// One of the formulas or both, without one that is false.
fn one_of(alloc: Global, left: Formula, right: Formula) -> Result<Formula, NoMemory>
    ensures truth { IfOk result (λ made. (v : List Bool)
        → (true_on v (formula left) || true_on v (formula right)) ≡ true_on v (formula made)) }
    ensures below { IfOk result (λ made. (count : ℕ) → IsBelow count (formula left)
        → IsBelow count (formula right) → IsBelow count (formula made)) }
{
    match left {
        Formula::Const(false) => Ok(right),
        left => match right {
            Formula::Const(false) => Ok(left),
            right => either(alloc, left, right),
        },
    }
}

/// That the declaration is kept, where it is one of the name.
fn kept(
    alloc: Global,
    conditions: &[Formula],
    declaration: &Declaration,
    name: u32,
) -> Result<Formula, NoMemory>
    ensures truth { IfOk result (λ made. (v : List Bool)
        → is_kept (truths_on conditions.now v) name declaration.now ≡ true_on v (formula made)) }
    ensures below { IfOk result (λ made. (count : ℕ) → All (λ f. IsBelow count (formula f)) conditions.now
        → IsBelow count (formula made)) }
{
    if declaration.name == name {
        keeping(alloc, conditions, &declaration.groups)
    } else {
        Ok(Formula::Const(false))
    }
}

/// That a declaration of the name is kept. It has as few levels as can be, since what reads it is recursive.
pub(crate) fn declaring(
    alloc: Global,
    conditions: &[Formula],
    declarations: &[Declaration],
    name: u32,
) -> Result<Formula, NoMemory>
    ensures truth { IfOk result (λ made. (v : List Bool)
        → is_declared (truths_on conditions.now v) declarations.now name ≡ true_on v (formula made)) }
    ensures below { IfOk result (λ made. (count : ℕ) → All (λ f. IsBelow count (formula f)) conditions.now
        → IsBelow count (formula made)) }
{
    match declarations {
        [] => Ok(Formula::Const(false)),
        [declaration] => kept(alloc, conditions, declaration, name),
        _ => {
            let (front, back) = declarations.split_at(declarations.len() / 2);
            let left = declaring(alloc, conditions, front, name)?;
            let right = declaring(alloc, conditions, back, name)?;
            one_of(alloc, left, right)
        }
    }
}

/// That a declaration of the name is kept, one of these or of those.
pub(crate) fn declaring_any(
    alloc: Global,
    conditions: &[Formula],
    these: &[Declaration],
    those: &[Declaration],
    name: u32,
) -> Result<Formula, NoMemory>
    ensures truth { IfOk result (λ made. (v : List Bool)
        → is_declared (truths_on conditions.now v) (these.now ++ those.now) name ≡ true_on v (formula made)) }
    ensures below { IfOk result (λ made. (count : ℕ) → All (λ f. IsBelow count (formula f)) conditions.now
        → IsBelow count (formula made)) }
{
    let left = declaring(alloc, conditions, these, name)?;
    let right = declaring(alloc, conditions, those, name)?;
    one_of(alloc, left, right)
}

/// Whether one of the declarations has the name.
pub(crate) fn has_one(declarations: &[Declaration], name: u32) -> bool
    ensures { result ≡ has_one declarations.now name }
{
    for declaration in declarations {
        if name == declaration.name {
            return true;
        }
    }
    false
}

/// Whether a declaration of the name stands in the outermost of these groups, so that it is kept wherever what stands in
/// them is. It tries the latest declaration first.
pub(crate) fn is_clear(declarations: &[Declaration], name: u32, groups: &Groups) -> bool
    ensures { result ≡ true → (truths : List Bool) → are_kept truths groups.now ≡ true
        → is_declared truths declarations.now name ≡ true }
{
    let mut rest = declarations;
    'declarations: while let Some((declaration, before)) = cut_last(rest) {
        if declaration.name == name && declaration.groups.begins(groups) {
            return true;
        }
        rest = before;
    }
    false
}

/// Adds a declaration of the name in these groups.
pub(crate) fn add_declaration(
    alloc: Global,
    declarations: &mut Scoped<Declaration>,
    groups: &Groups,
    name: u32,
) -> Result<(), NoMemory>
    ensures { IsSound declarations.old
        → OnOk result (AddsDeclaration declarations.old groups.now name declarations.new) }
{
    let groups = groups.copy(alloc)?;
    declarations.push(Declaration { name, groups })
}

/// Goes on behind a sign, in `main` or before it. A block begins at `main`, and at each brace in it; at its end its
/// declarations are given up.
pub(crate) fn follow_blocks(
    declarations: &mut Scoped<Declaration>,
    in_main: bool,
    sign: Sign,
) -> Result<(), NoMemory>
    ensures { IsSound declarations.old → is_inside declarations.old ≡ in_main
        → OnOk result (FollowsBlocks declarations.old in_main sign declarations.new) }
{
    match sign {
        Sign::Main => {
            if in_main {
                Ok(())
            } else {
                declarations.enter()
            }
        }
        Sign::LeftBrace => {
            if in_main {
                declarations.enter()
            } else {
                Ok(())
            }
        }
        Sign::RightBrace => {
            declarations.leave();
            Ok(())
        }
        _ => Ok(()),
    }
}
