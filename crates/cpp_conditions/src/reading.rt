//! Conditions read from bytes.
#![tactic(auto)]

ghost use Rattle.std.specs.Prelude.{◌≡◌, ℤ, List, length, IfOk};
ghost use Rattle.linear_atoms.specs.Atoms.{IsWithin};
ghost use Rattle.cpp_conditions.specs.Descent.{expression};
ghost use Rattle.cpp_conditions.specs.Expressions as expressions;
ghost use Rattle.cpp_conditions.specs.Forming.{IsOverFeatures};
ghost use Rattle.cpp_conditions.specs.Grammar.{CSpells, judged};
ghost use Rattle.cpp_conditions.specs.Macros.{macros as plain_macros};
ghost use Rattle.cpp_conditions.specs.Naming.{AreFeatures};
ghost use Rattle.cpp_conditions.specs.Propositions.{IsFit, IsOpen, true_at};
ghost use Rattle.cpp_conditions.specs.Reading.{IsConditionRead, Judges};
ghost use Rattle.cpp_conditions.specs.View.{proposition};

use crate::conditions::Condition;
use crate::expression_refusal::ExpressionRefusal;
use crate::expressions::{Expression, parse};
use crate::judging::{count_deep, has_defined, has_reserved, named, unknown_refuses};
use crate::macros::Macros;
use crate::names::Names;
use crate::tokens::scan;
use crate::truths::condition;
use fam_outer::{ConditionFault, MOST_OPERATORS, NoMemory};
use linear_atoms::{Feature, LinearFault};
use std::alloc::Global;

/// Why bytes are read as no condition: want of memory, or a fault.
#[derive(Clone, Copy, Debug, PartialEq, Eq)]
pub enum ConditionRefusal {
    NoMemory,
    Fault(ConditionFault),
}

impl From<NoMemory> for ConditionRefusal {
    ghost use Rattle.std.specs.Prelude.{◌≡◌};
    ghost use Rattle.cpp_conditions.specs.declared.reading.ConditionRefusal.TheVariants as refusals;

    ghost from_gives = { λ _ given. given ≡ refusals.NoMemory };

    fn from(_error: NoMemory) -> ConditionRefusal {
        ConditionRefusal::NoMemory
    }
}

impl From<ExpressionRefusal> for ConditionRefusal {
    ghost use Rattle.std.specs.Prelude.{◌≡◌};
    ghost use Rattle.cpp_conditions.specs.Reading.{condition_refusal};

    ghost from_gives = { λ stop given. given ≡ condition_refusal stop };

    fn from(stop: ExpressionRefusal) -> ConditionRefusal {
        match stop {
            ExpressionRefusal::NoMemory => ConditionRefusal::NoMemory,
            ExpressionRefusal::Wrong => ConditionRefusal::Fault(ConditionFault::Syntax),
        }
    }
}

impl From<LinearFault> for ConditionRefusal {
    ghost use Rattle.std.specs.Prelude.{◌≡◌};
    ghost use Rattle.cpp_conditions.specs.Reading.{linear_refusal};

    ghost from_gives = { λ fault given. given ≡ linear_refusal fault };

    fn from(fault: LinearFault) -> ConditionRefusal {
        match fault {
            LinearFault::NoMemory => ConditionRefusal::NoMemory,
            LinearFault::TooLarge => ConditionRefusal::Fault(ConditionFault::TooLarge),
        }
    }
}

/// The condition that an expression means, or what refuses it: a reserved name before one that is unknown, this before
/// one that is defined above it, this before a truth value that is used as a number or a product of features, and this
/// before a number that is too large.
fn judge(
    alloc: Global,
    macros: Macros<'_>,
    names: &Names<'_>,
    tree: &Expression<'_>,
) -> Result<Condition, ConditionRefusal>
    ensures is { Judges result (judged (plain_macros macros.entry) names.now (expression tree.now)) }
    ensures over { IfOk result (λ made. IsOverFeatures names.now (proposition made)) }
{
    if has_reserved(tree) {
        return Err(ConditionRefusal::Fault(ConditionFault::ReservedName));
    }
    if unknown_refuses(macros, names, tree) {
        return Err(ConditionRefusal::Fault(ConditionFault::UnknownName));
    }
    if has_defined(macros.above, tree) {
        return Err(ConditionRefusal::Fault(ConditionFault::DefinedName));
    }
    match named(names, tree) {
        None => Err(ConditionRefusal::Fault(ConditionFault::NonLinear)),
        Some(_) => Ok(condition(alloc, names, tree)?),
    }
}

/// The condition that the bytes spell, over these features: at most 32, whose ranges are not empty and have ends of
/// at most 2^20 in size.
///
/// It is C's expression of numbers, names, `defined`, parentheses and the operators
/// `! + - * < <= > >= == != && ||` (ISO/IEC 9899:2011, 6.10.1 and 6.5). A feature's name is its value, and any other
/// name is 0, also one that the file defines only below it. `defined` is 1 for an integer feature, the value of a Boolean one, and 0 for any other name. At each
/// configuration within the ranges the condition is true exactly where C's value of the expression is not 0. Its
/// atoms are well formed over these features, and the ranges decide none of them.
///
/// Its refusals, in their order:
/// - `Syntax`, where a byte begins no token, or a run of digits and letters is no decimal number;
/// - `TooDeep`, where more than 64 tokens are operators or opening parentheses, not counting those of `defined`;
/// - `Syntax`, where the tokens are no expression;
/// - `ReservedName`, where a name begins with two underscores;
/// - `UnknownName`, under `Unknown::Refuse` where a name is that of no feature and the file does not define it, under
///   `defined` too;
/// - `DefinedName`, where a name is one that is defined above the condition, under `defined` too;
/// - `NonLinear`, where a truth value (what `!`, a comparison, `&&` or `||` gives) is used as a number, or both sides
///   of a product name a feature, integer features under `defined` aside;
/// - `TooLarge`, where a literal, a number of a subexpression's linear form, or one of a form that is put in normal
///   form passes 2^31 in size.
///
/// It answers `NoMemory` for want of memory.
pub fn read_condition(
    alloc: Global,
    macros: Macros<'_>,
    features: &[Feature],
    bytes: &[u8],
) -> Result<Condition, ConditionRefusal>
    requires { AreFeatures features.now }
    ensures read { IsConditionRead (plain_macros macros.entry) features.now bytes.now result }
    ensures value { IfOk result (λ made. (e : expressions.Expression) (values : List ℤ) → CSpells e bytes.now
        → IsWithin features.now values
        → true_at values (proposition made) ≡ expressions.is_nonzero (expressions.value features.now values e)) }
    ensures fit { IfOk result (λ made. IsFit (length features.now) (proposition made)) }
    ensures undecided { IfOk result (λ made. IsOpen features.now (proposition made)) }
{
    let tokens = scan(alloc, bytes)?;
    if count_deep(&tokens) > MOST_OPERATORS {
        return Err(ConditionRefusal::Fault(ConditionFault::TooDeep));
    }
    let tree = parse(alloc, &tokens)?;
    let names = Names::of(alloc, features)?;
    judge(alloc, macros, &names, &tree)
}
