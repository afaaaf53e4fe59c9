//! The texts of leaves, and of invariants.
#![tactic(auto)]

ghost use Rattle.std.specs.Prelude.{◌≡◌, ◌≤◌, ◌<◌, ◌+◌, ◌++◌, ◌∷◌, IsTrue, length, map, take, IfOk};
ghost use Rattle.std.specs.List.{All};
ghost use Rattle.leaf_domain.specs.Ranges.{is_arithmetic};
ghost use Rattle.linear_atoms.specs.Atoms.{AreLiterals};
ghost use Rattle.alarm_report.specs.declared.invariants.FamilyInvariant.{FamilyInvariant};
ghost use Rattle.alarm_report.specs.Invariants.{invariant};
ghost use Rattle.alarm_report.specs.LeafTexts.{within_text, step_text, variable_items, same_range, item_of, pair_form, pair_range, pair_items, items_with, all_pairs, leaf_text as text_of_leaf, known_text, invariant_line, invariant_text};
ghost use Rattle.alarm_report.specs.Forming.{IsSign};

use crate::invariants::FamilyInvariant;
use crate::joining::joined;
use crate::texts::{push_place, push_region};
use c_tree::Op;
use fam_outer::{NoMemory, Text, decimal};
use leaf_domain::{Form, Leaf, Range, Terms, arithmetic};
use linear_atoms::slices::cut;
use linear_atoms::{Feature, Regions};
use smallvec::SmallVec;
use std::alloc::Global;

/// Two variables, by their numbers and names.
#[derive(Clone, Copy)]
struct Pair<'a> {
    x: u32,
    first: &'a Text,
    y: u32,
    second: &'a Text,
}

/// ` in [l,h]`.
fn within_text(alloc: Global, range: Range) -> Result<Text, NoMemory>
    ensures { IfOk result (λ text. text ≡ within_text range) }
{
    let mut text = Vec::from_slice(alloc, " in [".as_bytes())?;
    let low = decimal(alloc, range.low)?;
    text.extend_from_slice(low.bytes())?;
    text.push(b',')?;
    let high = decimal(alloc, range.high)?;
    text.extend_from_slice(high.bytes())?;
    text.push(b']')?;
    Ok(Text::from_vec(text))
}

/// An item: what has the range, and ` in [l,h]`.
fn item(alloc: Global, front: &[u8], range: Range) -> Result<Text, NoMemory>
    ensures { IfOk result (λ text. text ≡ front.now ++ within_text range) }
{
    let within = within_text(alloc, range)?;
    let mut text = Vec::from_slice(alloc, front)?;
    text.extend_from_slice(within.bytes())?;
    Ok(Text::from_vec(text))
}

/// The item of a variable: its name, ` in [l,h]`, and ` step k` where its values are known to lie apart.
fn variable_item(alloc: Global, name: &[u8], range: Range, step: u64) -> Result<Text, NoMemory>
    ensures { IfOk result (λ text. text ≡ (name.now ++ within_text range) ++ step_text step) }
{
    let within = item(alloc, name, range)?;
    let mut text = Vec::from_slice(alloc, within.bytes())?;
    if step > 1 {
        let apart = format!(in alloc; " step {step}")?;
        text.extend_from_slice(apart.as_bytes())?;
    }
    Ok(Text::from_vec(text))
}

/// Adds `x in [l,h]` or `x in [l,h] step k` of each name.
fn push_variables<L: Leaf>(
    alloc: Global,
    names: &[Text],
    leaf: &L,
    items: &mut Vec<Text>,
) -> Result<(), NoMemory>
    requires { length names.now ≤ (L.value leaf.now).variables }
    ensures { IfOk result (λ _. items.new.items
        ≡ items.old.items ++ variable_items L.meaning (L.value leaf.now) 0 names.now) }
{
    let _few = leaf.variables();
    let mut rest = names;
    let mut x = 0;
    'variables: while let Some((name, behind)) = cut(rest) {
        let item = variable_item(alloc, name.bytes(), leaf.bounds_of(x), leaf.step_of(x))?;
        items.push(item)?;
        rest = behind;
        x += 1;
    }
    Ok(())
}

/// Whether the ranges are the same.
fn same_range(a: Range, b: Range) -> bool
    ensures { result ≡ same_range a b }
{
    a.low == b.low && a.high == b.high
}

/// The form of `x - y` or `x + y`.
fn pair_form(alloc: Global, x: u32, y: u32, coefficient: i64) -> Result<Form, NoMemory>
    ensures { IfOk result (λ form. form ≡ pair_form x y coefficient) }
{
    let mut terms = SmallVec::new(alloc);
    terms.push((x, 1))?;
    terms.push((y, coefficient))?;
    Ok(Form {
        terms: Terms::from_vec(terms),
        constant: 0,
    })
}

/// The range of `x - y` or `x + y`, where it is not what arithmetic gives of the two variables' ranges.
#[tactic(auto, using(crate::proofs::Pairing::pair_is_form))]
fn pair_range<L: Leaf>(
    alloc: Global,
    leaf: &L,
    op: Op,
    coefficient: i64,
    x: u32,
    y: u32,
) -> Result<Option<Range>, NoMemory>
    requires op { IsTrue (is_arithmetic op) }
    requires coefficient { IsSign coefficient }
    requires x { x < y }
    requires y { y < (L.value leaf.now).variables }
    ensures { IfOk result (λ range. range ≡ pair_range L.meaning (L.value leaf.now) op coefficient x y) }
{
    let _valid = leaf.variables();
    let form = pair_form(alloc, x, y, coefficient)?;
    let first = leaf.bounds_of(x);
    let second = leaf.bounds_of(y);
    let known = arithmetic(op, first, second);
    match leaf.form_range(&form) {
        None => Ok(None),
        Some(range) => {
            if same_range(range, known) {
                Ok(None)
            } else {
                Ok(Some(range))
            }
        }
    }
}

/// Adds the item of a pair, where there is a range.
fn push_item(
    alloc: Global,
    pair: &Pair,
    sign: u8,
    range: Option<Range>,
    items: &mut Vec<Text>,
) -> Result<(), NoMemory>
    ensures { IfOk result (λ _. items.new.items
        ≡ items.old.items ++ item_of (pair.now.first.now ++ (sign ∷ pair.now.second.now)) range) }
{
    let Some(range) = range else {
        return Ok(());
    };
    let mut front = Vec::from_slice(alloc, pair.first.bytes())?;
    front.push(sign)?;
    front.extend_from_slice(pair.second.bytes())?;
    items.push(item(alloc, front.as_slice(), range)?)?;
    Ok(())
}

/// Adds `x-y in [l,h]` and `x+y in [l,h]`, each where it says more than the two variables' ranges.
fn push_pair<L: Leaf>(
    alloc: Global,
    leaf: &L,
    pair: &Pair,
    items: &mut Vec<Text>,
) -> Result<(), NoMemory>
    requires x { pair.now.x < pair.now.y }
    requires y { pair.now.y < (L.value leaf.now).variables }
    ensures { IfOk result (λ _. items.new.items
        ≡ items.old.items ++ pair_items L.meaning
        (L.value leaf.now) pair.now.x pair.now.first.now pair.now.y pair.now.second.now) }
{
    let Pair { x, y, .. } = *pair;
    let difference = pair_range(alloc, leaf, Op::Sub, -1, x, y)?;
    push_item(alloc, pair, b'-', difference, items)?;
    let sum = pair_range(alloc, leaf, Op::Add, 1, x, y)?;
    push_item(alloc, pair, b'+', sum, items)?;
    Ok(())
}

/// Adds the items of a variable with each of those behind it.
fn push_pairs_of<L: Leaf>(
    alloc: Global,
    leaf: &L,
    x: u32,
    first: &Text,
    names: &[Text],
    items: &mut Vec<Text>,
) -> Result<(), NoMemory>
    requires { x + 1 + length names.now ≤ (L.value leaf.now).variables }
    ensures { IfOk result (λ _. items.new.items
        ≡ items.old.items ++ items_with L.meaning (L.value leaf.now) x first.now (x + 1) names.now) }
{
    let _few = leaf.variables();
    let mut rest = names;
    let mut y = x + 1;
    'pairs: while let Some((second, behind)) = cut(rest) {
        let pair = Pair {
            x,
            first,
            y,
            second,
        };
        push_pair(alloc, leaf, &pair, items)?;
        rest = behind;
        y += 1;
    }
    Ok(())
}

/// Adds the items of all pairs.
fn push_pairs<L: Leaf>(
    alloc: Global,
    names: &[Text],
    leaf: &L,
    items: &mut Vec<Text>,
) -> Result<(), NoMemory>
    requires { length names.now ≤ (L.value leaf.now).variables }
    ensures { IfOk result (λ _. items.new.items
        ≡ items.old.items ++ all_pairs L.meaning (L.value leaf.now) 0 names.now) }
{
    let _few = leaf.variables();
    let mut rest = names;
    let mut x = 0;
    'variables: while let Some((first, behind)) = cut(rest) {
        push_pairs_of(alloc, leaf, x, first, behind, items)?;
        rest = behind;
        x += 1;
    }
    Ok(())
}

/// The names of so many variables.
fn named(names: &[Text], variables: usize) -> &[Text]
    ensures { result.now ≡ take variables names.now }
{
    if names.len() <= variables {
        names
    } else {
        &names[..variables]
    }
}

/// The items of a leaf.
fn items_of<L: Leaf>(alloc: Global, names: &[Text], leaf: &L) -> Result<Vec<Text>, NoMemory>
    requires { length names.now ≤ (L.value leaf.now).variables }
    ensures { IfOk result (λ items. items.items
        ≡ variable_items L.meaning (L.value leaf.now) 0 names.now
        ++ all_pairs L.meaning (L.value leaf.now) 0 names.now) }
{
    let mut items = Vec::new(alloc);
    push_variables(alloc, names, leaf, &mut items)?;
    push_pairs(alloc, names, leaf, &mut items)?;
    Ok(items)
}

/// The text of a leaf, over the names of its variables: `unreachable` where it holds no store, `reachable` where there are no
/// variables. Else an item `x in [l,h]` for each variable, with ` step k` behind it where the kind of leaf tells that its values lie k
/// apart from the low end on (k above 1), then for each pair of variables `x-y in [l,h]` and `x+y in [l,h]` where
/// the leaf has a range of the difference or the sum that is not the one that the two variables' ranges give. The items are joined
/// by `, `. The only refusal is want of memory.
pub fn leaf_text<L: Leaf>(alloc: Global, names: &[Text], leaf: &L) -> Result<Text, NoMemory>
    ensures { IfOk result (λ text. text ≡ text_of_leaf L.meaning names.now (L.value leaf.now)) }
{
    if leaf.is_nothing() {
        return Text::from_bytes(alloc, b"unreachable");
    }
    let names = named(names, leaf.variables() as usize);
    match cut(names) {
        None => Text::from_bytes(alloc, b"reachable"),
        Some((_first, _behind)) => {
            let items = items_of(alloc, names, leaf)?;
            joined(alloc, ", ", &items)
        }
    }
}

/// Adds `REGION: LEAF` and the end of the line.
pub fn push_known<L: Leaf>(
    alloc: Global,
    regions: Regions,
    text: &mut Vec<u8>,
    features: &[Feature],
    names: &[Text],
    one: &FamilyInvariant<L>,
) -> Result<(), NoMemory>
    requires { AreLiterals (length features.now) one.now.region.literals }
    ensures { IfOk result (λ _. text.new.items
        ≡ text.old.items ++ known_text regions L.meaning features.now names.now (invariant L.value one.now)) }
{
    push_region(alloc, regions, text, features, one.region.literals.items())?;
    text.extend_from_slice(": ".as_bytes())?;
    let leaf = leaf_text(alloc, names, &one.leaf.value)?;
    text.extend_from_slice(leaf.bytes())?;
    text.push(b'\n')?;
    Ok(())
}

/// Adds the line of an invariant.
fn push_line<L: Leaf>(
    alloc: Global,
    regions: Regions,
    text: &mut Vec<u8>,
    features: &[Feature],
    names: &[Text],
    one: &FamilyInvariant<L>,
) -> Result<(), NoMemory>
    requires { AreLiterals (length features.now) one.now.region.literals }
    ensures { IfOk result (λ _. text.new.items
        ≡ text.old.items ++ invariant_line regions L.meaning features.now names.now (invariant L.value one.now)) }
{
    push_place(alloc, text, one.place)?;
    text.extend_from_slice(": if ".as_bytes())?;
    push_known(alloc, regions, text, features, names, one)
}

/// The text of invariants: for each a line `LINE:COLUMN: if REGION: LEAF`, with the region as in the report on a family, and
/// the leaf as `leaf_text` has it. The only refusal is want of memory.
///
/// The atoms of all literals are well formed over the features.
pub fn invariant_text<L: Leaf>(
    alloc: Global,
    regions: Regions,
    features: &[Feature],
    names: &[Text],
    invariants: &[FamilyInvariant<L>],
) -> Result<Text, NoMemory>
    requires { All (λ (i : FamilyInvariant L). AreLiterals
        (length features.now) i.region.literals) invariants.now }
    ensures { IfOk result (λ text. text
        ≡ invariant_text regions L.meaning features.now names.now (map (invariant L.value) invariants.now)) }
{
    let mut text = Vec::new(alloc);
    'invariants: for one in invariants {
        push_line(alloc, regions, &mut text, features, names, one)?;
    }
    Ok(Text::from_vec(text))
}
