//! The order of the names of a program: variables, locals, constants, and the features that the code names.
#![tactic(auto)]

ghost use Rattle.std.specs.Prelude.{◌≡◌, ◌<◌, ◌||◌, ℕ, List, [], ◌∷◌, ◌++◌, length, map, IfOk, OnOk, if◌then◌else◌};
ghost use Rattle.std.specs.List.{filter, list_any};
ghost use Rattle.std.specs.Str.{bytes_eq};
ghost use Rattle.c_grammar.specs.Facts.{AreFit, IsFit};
ghost use Rattle.c_grammar.specs.Changes.{IsTrack};
ghost use Rattle.c_grammar.specs.Classes.{is_class, name_as};
ghost use Rattle.c_grammar.specs.Locals.{is_main};
ghost use Rattle.c_grammar.specs.declared.constants.NameClass as classes;
ghost use Rattle.c_grammar.specs.declared.items.Item as items;
ghost use Rattle.c_parser.specs.Names.{has_main, names_at, each_once};
ghost use Rattle.c_parser.specs.Order as specs;
ghost use Rattle.c_parser.specs.Stages.{list};

use crate::names::uses_next;
use c_grammar::{Item, NameClass, Sign, Track};
use c_tree::Names;
use fam_outer::{NoMemory, Text};
use linear_atoms::Feature;
use std::alloc::Global;

/// The names of a text in the order of a program's, and how many of them are variables, how many locals and how many constants.
#[derive(Drop)]
pub(crate) struct Arranged {
    pub names: Names,
    pub variables: usize,
    pub locals: usize,
    pub constants: usize,
}

/// Whether a name is among these.
pub(crate) fn has_name(names: &[Text], name: &Text) -> bool
    ensures { result ≡ list_any (bytes_eq name.now) names.now }
{
    for other in names {
        if *name == *other {
            return true;
        }
    }
    false
}

/// Whether a feature has this name.
fn has_feature(features: &[Feature], name: &Text) -> bool
    ensures { result ≡ list_any (bytes_eq name.now) (map (λ f. f.name) features.now) }
{
    for feature in features {
        if *name == feature.name {
            return true;
        }
    }
    false
}

/// Whether an item behind one with this sign stands in `main`, where this one does or does not.
fn stands_in_main(in_main: bool, sign: Sign) -> bool
    ensures { result ≡ (in_main || is_main sign) }
{
    in_main || matches!(sign, Sign::Main)
}

/// Keeps the class of a name, where the sign is one of which no class is kept.
fn keep_class(kept: &mut Vec<Option<NameClass>>, class: NameClass, sign: Sign)
    requires { IsFit (length kept.old.items) sign }
    ensures count { length kept.new.items ≡ length kept.old.items }
    ensures first { (later : List (ℕ × classes.NameClass)) (x : ℕ) → specs.class_by kept.new.items later x
        ≡ specs.class_by kept.old.items (name_as class sign ++ later) x }
{
    if let Sign::Name(name) = sign {
        let place = name as usize;
        if kept[place].is_none() {
            kept[place] = Some(class);
        }
    }
}

/// Keeps the class of a name that is declared behind items that this tells of, where the sign is one of which no class is
/// kept.
fn keep_declared(kept: &mut Vec<Option<NameClass>>, in_main: bool, track: &Track, sign: Sign)
    requires { IsFit (length kept.old.items) sign }
    ensures count { length kept.new.items ≡ length kept.old.items }
    ensures first { (before : List items.Item) → in_main ≡ has_main before → IsTrack before track.now
        → (later : List (ℕ × classes.NameClass)) (x : ℕ) → specs.class_by kept.new.items later x
        ≡ specs.class_by kept.old.items (specs.declared_as before sign ++ later) x }
{
    if !uses_next(in_main, track) {
        keep_class(kept, NameClass::of(in_main, track.is_constant()), sign);
    }
}

/// For each name the class that its first declaration has, in one pass over the items.
fn first_classes(
    alloc: Global,
    count: usize,
    items: &[Item],
) -> Result<Vec<Option<NameClass>>, NoMemory>
    requires { AreFit count items.now }
    ensures { IfOk result (λ kept. specs.AreClasses count items.now kept.items) }
{
    let mut kept: Vec<Option<NameClass>> = vec![in alloc; None; count]?;
    let mut track = Track::new();
    let mut in_main = false;
    for item in items {
        keep_declared(&mut kept, in_main, &track, item.sign);
        in_main = stands_in_main(in_main, item.sign);
        track.follow(*item);
    }
    Ok(kept)
}

/// Whether the classes are one.
fn is_class(class: NameClass, other: NameClass) -> bool
    ensures { result ≡ is_class class other }
{
    class == other
}

/// The class that is kept for a number.
fn class_at(kept: &[Option<NameClass>], number: usize) -> NameClass
    requires { number < length kept.now }
    ensures { result ≡ specs.class_by kept.now [] number }
{
    kept[number].unwrap_or(NameClass::Variable)
}

/// Whether the name with this number is no feature's, and of the class.
fn is_of_class(
    features: &[Feature],
    names: &[Text],
    kept: &[Option<NameClass>],
    class: NameClass,
    number: usize,
) -> bool
    requires within { number < length names.now }
    requires as_many { length kept.now ≡ length names.now }
    ensures { (items : List items.Item) → specs.AreClasses (length names.now) items kept.now
        → result ≡ specs.is_of_class class (map (λ f. f.name) features.now) (list names.now items) number }
{
    !has_feature(features, &names[number]) && is_class(class, class_at(kept, number))
}

/// Adds the name with this number, if it is to be.
fn add_name(
    alloc: Global,
    out: &mut Vec<Text>,
    names: &[Text],
    number: usize,
    is_added: bool,
) -> Result<(), NoMemory>
    requires { number < length names.now }
    ensures { OnOk result (out.new.items
        ≡ out.old.items ++ names_at names.now (if is_added then number ∷ [] else [])) }
{
    if is_added {
        out.push(names[number].copy(alloc)?)?;
    }
    Ok(())
}

/// The names of a class that are no feature's.
fn names_of_class(
    alloc: Global,
    features: &[Feature],
    names: &[Text],
    kept: &[Option<NameClass>],
    class: NameClass,
) -> Result<Vec<Text>, NoMemory>
    requires { length kept.now ≡ length names.now }
    ensures { IfOk result (λ made. (items : List items.Item) → specs.AreClasses (length names.now) items kept.now
        → made.items ≡ names_at names.now
        (specs.numbers_of class (map (λ f. f.name) features.now) (list names.now items))) }
{
    let mut made: Vec<Text> = Vec::new(alloc);
    for number in 0..names.len() {
        let is_added = is_of_class(features, names, kept, class, number);
        add_name(alloc, &mut made, names, number, is_added)?;
    }
    Ok(made)
}

/// The features that are named, each once.
fn named_features(
    alloc: Global,
    features: &[Feature],
    names: &[Text],
) -> Result<Vec<Text>, NoMemory>
    ensures { IfOk result (λ made. made.items
        ≡ each_once [] (filter (λ f. list_any (bytes_eq f) names.now) (map (λ f. f.name) features.now))) }
{
    let mut named: Vec<Text> = Vec::new(alloc);
    for feature in features {
        if has_name(names, &feature.name) && !has_name(&named, &feature.name) {
            named.push(feature.name.copy(alloc)?)?;
        }
    }
    Ok(named)
}

/// The names of a text in the order of a program's.
pub(crate) fn arrange(
    alloc: Global,
    features: &[Feature],
    names: &[Text],
    items: &[Item],
) -> Result<Arranged, NoMemory>
    requires { AreFit (length names.now) items.now }
    ensures names { IfOk result (λ made. made.names
        ≡ specs.arranged (map (λ f. f.name) features.now) (list names.now items.now)) }
    ensures variables { IfOk result (λ made. made.variables
        ≡ length (specs.variables_of (map (λ f. f.name) features.now) (list names.now items.now))) }
    ensures locals { IfOk result (λ made. made.locals
        ≡ length (specs.locals_of (map (λ f. f.name) features.now) (list names.now items.now))) }
    ensures constants { IfOk result (λ made. made.constants
        ≡ length (specs.constants_of (map (λ f. f.name) features.now) (list names.now items.now))) }
{
    let kept = first_classes(alloc, names.len(), items)?;
    let mut list = names_of_class(alloc, features, names, kept.as_slice(), NameClass::Variable)?;
    let mut own = names_of_class(alloc, features, names, kept.as_slice(), NameClass::Local)?;
    let mut rest = names_of_class(alloc, features, names, kept.as_slice(), NameClass::Constant)?;
    let mut named = named_features(alloc, features, names)?;
    let variables = list.len();
    let locals = own.len();
    let constants = rest.len();
    list.append(&mut own)?;
    list.append(&mut rest)?;
    list.append(&mut named)?;
    Ok(Arranged {
        names: Names::from_vec(list),
        variables,
        locals,
        constants,
    })
}
