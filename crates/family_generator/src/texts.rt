//! The texts of generated families.
#![tactic(auto)]

ghost use Rattle.std.specs.Prelude.{◌≡◌, ◌++◌, ◌≤◌, ◌<◌, string_bytes, IfOk};
ghost use Rattle.family_generator.specs.Texts.{switched_input, bounded_count, checked_choice, block, generated_text};

use fam_outer::{NoMemory, Text};
use std::alloc::Global;

/// The lines before the first block.
const HEADER: &str = "int a;\nint b;\nint main(void) {\n";

/// No text is longer than so many bytes for each block, and these beside them.
const BLOCK_BYTES: usize = 44;

const OTHER_BYTES: usize = 33;

/// Adds an input that only the members with this switch take.
fn push_switched_input(text: &mut String, switch: u32) -> Result<(), NoMemory>
    ensures { IfOk result (λ _. string_bytes text.new ≡ string_bytes text.old ++ switched_input switch) }
{
    write!(text, "#ifdef F{switch}\na = input();\n#endif\n")?;
    Ok(())
}

/// Adds a count up to a limit where `N` is at least a bound.
fn push_bounded_count(text: &mut String, bound: u32, limit: u32) -> Result<(), NoMemory>
    ensures { IfOk result (λ _. string_bytes text.new ≡ string_bytes text.old ++ bounded_count bound limit) }
{
    write!(
        text,
        "#if N >= {bound}\nwhile (b < {limit}) b++;\n#else\nb = 0;\n#endif\n"
    )?;
    Ok(())
}

/// Adds a choice by the input, and an assertion.
fn push_checked_choice(text: &mut String) -> Result<(), NoMemory>
    ensures { IfOk result (λ _. string_bytes text.new ≡ string_bytes text.old ++ checked_choice) }
{
    text.push_str("if (a > 0) b = b + 1; else b = 0;\nassert(b >= 0);\n")?;
    Ok(())
}

/// Adds block `k` of the family of `number` blocks.
fn push_block(text: &mut String, number: u32, k: u32) -> Result<(), NoMemory>
    requires number { number ≤ 2000 }
    requires within { k < number }
    ensures { IfOk result (λ _. string_bytes text.new ≡ string_bytes text.old ++ block number k) }
{
    match k % 3 {
        0 => push_switched_input(text, (5 * k + number) % 8),
        1 => push_bounded_count(text, k % 9 + 1, k % 50 + 10),
        _ => push_checked_choice(text),
    }
}

/// The text of the family of `number` blocks, at most 2000: the lines `int a;`, `int b;` and `int main(void) {`,
/// the blocks from 0 to `number - 1`, and the line `}`. The only refusal is want of memory.
///
/// Block `k` is by the remainder of `k` by 3:
/// - at 0 an input to `a` in the group of the switch with the number `5 * k + number` modulo 8;
/// - at 1 a loop that counts `b` up to `k` modulo 50, plus 10, where `N` is at least `k` modulo 9, plus 1, and
///   elsewhere `b = 0;`;
/// - at 2 a choice by `a` between a greater `b` and 0, and an assertion that `b` is not negative.
pub fn generated_text(alloc: Global, number: u32) -> Result<Text, NoMemory>
    requires { number ≤ 2000 }
    ensures { IfOk result (λ text. text ≡ generated_text number) }
{
    let most = BLOCK_BYTES * number as usize + OTHER_BYTES;
    let mut text = String::with_capacity(alloc, most)?;
    text.push_str(HEADER)?;
    for k in 0..number {
        push_block(&mut text, number, k)?;
    }
    text.push_str("}\n")?;
    Ok(Text::from_vec(text.into_bytes()))
}
