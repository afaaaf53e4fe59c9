//! The program of a file.
#![tactic(auto)]

ghost use Rattle.std.specs.Prelude.{◌≡◌, IfOk};
ghost use Rattle.c_tree.specs.View.{whole};
ghost use Rattle.c_grammar.specs.Grammar as grammar;
ghost use Rattle.c_grammar.specs.Grammar.{whole_of, zeros};
ghost use Rattle.reading_states.specs.Signs.{AreUnsigned};
ghost use Rattle.reading_states.specs.Views.{as_file};

use c_grammar::{Item, Sign};
use c_tree::{Declarations, Names, Program, start_values};
use declaration_reader::static_variables::held_of;
use fam_outer::{NoMemory, Values};
use reading_states::states::File;
use std::alloc::Global;

/// Whether a sign is a group directive.
fn is_group(sign: Sign) -> bool
    ensures { result ≡ grammar.is_group sign }
{
    matches!(
        sign,
        Sign::GroupIf(_) | Sign::GroupElif(_) | Sign::GroupElse | Sign::GroupEnd
    )
}

/// Whether there is a group directive.
fn has_groups(items: &[Item]) -> bool
    ensures { result ≡ grammar.has_groups items.now }
{
    items.iter().any(|item| is_group(item.sign))
}

/// One 0 for each name.
fn zeros_of(alloc: Global, names: &Names) -> Result<Vec<i64>, NoMemory>
    ensures { IfOk result (λ made. made.items ≡ zeros names.now) }
{
    let mut made = Vec::new(alloc);
    for _name in names.items() {
        made.push(0)?;
    }
    Ok(made)
}

/// The program of a file over these names. With groups it keeps the declarators, and without them it has their values.
pub(crate) fn program_of(
    alloc: Global,
    names: Names,
    items: &[Item],
    file: File,
) -> Result<Program, NoMemory>
    requires { AreUnsigned items.now }
    ensures { IfOk result (λ p. whole p ≡ whole_of names items.now (as_file file)) }
{
    let File {
        declared,
        body,
        end,
    } = file;
    let zeros = zeros_of(alloc, &names)?;
    let declared = held_of(alloc, declared, items)?;
    let (start, declared) = if has_groups(items) {
        (Values::from_vec(zeros), declared)
    } else {
        let start = start_values(alloc, &zeros, &declared, &[])?;
        (start, Vec::new(alloc))
    };
    Ok(Program {
        names,
        start,
        declared: Declarations::from_vec(declared),
        body,
        end,
    })
}
