//! The static variables and constants of `main`, which have their values before the program starts.
#![tactic(auto)]

ghost use Rattle.std.specs.Prelude.{◌≡◌, ◌++◌, true, false, IfOk, IfSome};
ghost use Rattle.c_grammar.specs.Groups as groups;
ghost use Rattle.c_grammar.specs.Items as items;
ghost use Rattle.c_grammar.specs.Statics as statics;
ghost use Rattle.reading_states.specs.Signs.{IsUnsigned, AreUnsigned};
ghost use Rattle.reading_states.specs.Views.{as_sections};

use crate::declarations::with_declared;
use crate::sections::groups_behind;
use c_grammar::{Item, Sign};
use c_tree::{Declared, Op};
use fam_outer::NoMemory;
use reading_states::states::Sections;
use std::alloc::Global;

/// Whether a sign is the name of `main`.
fn is_main(sign: Sign) -> bool
    ensures { result ≡ items.is_main sign }
{
    matches!(sign, Sign::Main)
}

/// The items behind the name of `main`.
fn behind_main(items: &[Item]) -> &[Item]
    ensures { result.now ≡ statics.behind_main items.now }
{
    for (position, item) in items.iter().enumerate() {
        if is_main(item.sign) {
            return &items[position + 1..];
        }
    }
    &items[items.len()..]
}

/// The sign of the item with this number.
fn sign_at(items: &[Item], number: usize) -> Option<Sign>
    ensures { result ≡ statics.sign_at items.now number }
{
    let item = items.get(number).copied()?;
    Some(item.sign)
}

/// The number behind `-`.
fn negated_value(sign: Option<Sign>) -> i64
    requires { IfSome sign IsUnsigned }
    ensures { result ≡ statics.negated_value sign }
{
    match sign {
        Some(Sign::Number(value)) => -value,
        _ => 0,
    }
}

/// The number behind `=`, or behind `-`.
fn started_value(second: Option<Sign>, third: Option<Sign>) -> i64
    requires { IfSome third IsUnsigned }
    ensures { result ≡ statics.started_value second third }
{
    match second {
        Some(Sign::Number(value)) => value,
        Some(Sign::Oper(Op::Sub)) => negated_value(third),
        _ => 0,
    }
}

/// The value that begins with these signs behind a name; 0 where none does.
fn value_of(first: Option<Sign>, second: Option<Sign>, third: Option<Sign>) -> i64
    requires { IfSome third IsUnsigned }
    ensures { result ≡ statics.value_of first second third }
{
    match first {
        Some(Sign::Equals) => started_value(second, third),
        _ => 0,
    }
}

/// The value that begins behind a name; 0 where none does.
fn value_ahead(items: &[Item]) -> i64
    requires { AreUnsigned items.now }
    ensures { result ≡ statics.value_ahead items.now }
{
    let first = sign_at(items, 0);
    let second = sign_at(items, 1);
    let third = sign_at(items, 2);
    value_of(first, second, third)
}

/// The declarators, and one more where a sign in a static declaration is a name.
fn with_name(
    alloc: Global,
    declared: Vec<Declared>,
    sign: Sign,
    ahead: &[Item],
    sections: &Sections,
) -> Result<Vec<Declared>, NoMemory>
    requires { AreUnsigned ahead.now }
    ensures { IfOk result (λ made. made.items
        ≡ declared.items ++ statics.static_at true sign ahead.now (groups.guards_of (as_sections sections.now))) }
{
    match sign {
        Sign::Name(name) => with_declared(alloc, sections, declared, name, value_ahead(ahead)),
        _ => Ok(declared),
    }
}

/// The declarators, and one more where a sign is a name that is declared as static.
fn with_static(
    alloc: Global,
    declared: Vec<Declared>,
    is_static: bool,
    sign: Sign,
    ahead: &[Item],
    sections: &Sections,
) -> Result<Vec<Declared>, NoMemory>
    requires { AreUnsigned ahead.now }
    ensures { IfOk result (λ made. made.items
        ≡ declared.items ++ statics.static_at is_static sign ahead.now (groups.guards_of (as_sections sections.now))) }
{
    if is_static {
        with_name(alloc, declared, sign, ahead, sections)
    } else {
        Ok(declared)
    }
}

/// Whether a static declaration goes on behind a sign.
fn static_behind(is_static: bool, sign: Sign) -> bool
    ensures { result ≡ statics.static_behind is_static sign }
{
    match sign {
        Sign::Static => true,
        Sign::Semicolon => false,
        _ => is_static,
    }
}

/// Whether a name in `main` is declared behind a sign.
fn is_declaring(sign: Sign) -> bool
    ensures { result ≡ items.is_declaring sign }
{
    matches!(
        sign,
        Sign::Int | Sign::Int32 | Sign::Signed | Sign::Const | Sign::Comma
    )
}

/// The declarators, and behind them the static ones among the items behind `main`.
fn with_statics(
    alloc: Global,
    declared: Vec<Declared>,
    items: &[Item],
) -> Result<Vec<Declared>, NoMemory>
    requires { AreUnsigned items.now }
    ensures { IfOk result (λ made. made.items
        ≡ declared.items ++ statics.statics_from false false groups.Outermost items.now) }
{
    let mut made = declared;
    let mut is_static = false;
    let mut declares = false;
    let mut sections = Sections::Outermost;
    for (position, item) in items.iter().enumerate() {
        let ahead = &items[position + 1..];
        let begins = is_static && declares;
        made = with_static(alloc, made, begins, item.sign, ahead, &sections)?;
        sections = groups_behind(alloc, sections, item.sign)?;
        is_static = static_behind(is_static, item.sign);
        declares = is_declaring(item.sign);
    }
    Ok(made)
}

/// The declarators of a program: those of the file, and behind them the static ones of `main`.
pub fn held_of(
    alloc: Global,
    declared: Vec<Declared>,
    items: &[Item],
) -> Result<Vec<Declared>, NoMemory>
    requires { AreUnsigned items.now }
    ensures { IfOk result (λ made. made.items ≡ declared.items ++ statics.statics_by items.now) }
{
    with_statics(alloc, declared, behind_main(items))
}
