//! The shape of a model's JSON value.
#![tactic(auto)]

ghost use Rattle.std.specs.Prelude.{◌≡◌, map, IfOk, option_map};
ghost use Rattle.serde_json.specs.Find.{as_str};
ghost use Rattle.serde_json.specs.View.{view, items_view, members_view};
ghost use Rattle.feature_model.specs.Shapes as shapes;

use c_words::is_among;
use fam_outer::{NoMemory, Text};
use serde_json::{Map, Value};
use std::alloc::Global;

/// What JSON says of a feature: its name, and its range, if it has one.
#[derive(Debug, Drop)]
pub(crate) struct Entry {
    pub(crate) name: Text,
    pub(crate) range: Option<(i64, i64)>,
}

/// Whether each member has one of these names.
fn are_among(names: &[&str], members: &Map<String, Value>) -> bool
    ensures { result ≡ shapes.are_among (map (λ w. w.now) names.now) (members_view members.now.entries) }
{
    for (key, _) in members.iter() {
        if !is_among(names, key.as_bytes()) {
            return false;
        }
    }
    true
}

/// Whether a value is an object whose members all have one of these names.
fn has_only(names: &[&str], value: &Value) -> bool
    ensures { result ≡ shapes.has_only (map (λ w. w.now) names.now) (view value.now) }
{
    match value.as_object() {
        Some(members) => are_among(names, members),
        None => false,
    }
}

/// Both ends.
fn pair_of(low: Option<i64>, high: Option<i64>) -> Option<Option<(i64, i64)>>
    ensures { result ≡ shapes.pair_of low high }
{
    match (low, high) {
        (Some(low), Some(high)) => Some(Some((low, high))),
        _ => None,
    }
}

/// Both ends of a range, or no range.
fn range_of(low: Option<&Value>, high: Option<&Value>) -> Option<Option<(i64, i64)>>
    ensures { result ≡ shapes.range_of (option_map (λ v. view v.now) low.entry)
        (option_map (λ v. view v.now) high.entry) }
{
    match (low, high) {
        (None, None) => Some(None),
        (Some(low), Some(high)) => pair_of(low.as_i64(), high.as_i64()),
        _ => None,
    }
}

/// A feature with this name and range.
fn entry_by(
    alloc: Global,
    name: Option<&str>,
    range: Option<Option<(i64, i64)>>,
) -> Result<Option<Entry>, NoMemory>
    ensures { IfOk result (λ made. made ≡ shapes.entry_by (option_map (λ n. n.now) name.entry) range) }
{
    match (name, range) {
        (Some(name), Some(range)) => {
            let name = Text::from_bytes(alloc, name.as_bytes())?;
            Ok(Some(Entry { name, range }))
        }
        _ => Ok(None),
    }
}

/// The text of a member.
fn text_at(value: Option<&Value>) -> Option<&str>
    ensures { option_map (λ n. n.now) result ≡ shapes.text_at (option_map (λ v. view v.now) value.entry) }
{
    match value {
        Some(value) => value.as_str(),
        None => None,
    }
}

/// A feature: an object with a name, and with both ends of a range or none.
fn entry_of(alloc: Global, value: &Value) -> Result<Option<Entry>, NoMemory>
    ensures { IfOk result (λ made. made ≡ shapes.entry_of (view value.now)) }
{
    if !has_only(&["name", "min", "max"], value) {
        return Ok(None);
    }
    let name = text_at(value.get("name"));
    let range = range_of(value.get("min"), value.get("max"));
    entry_by(alloc, name, range)
}

/// The features that the items of a list say.
fn entries_of(alloc: Global, list: &[Value]) -> Result<Option<Vec<Entry>>, NoMemory>
    ensures { IfOk result (λ made. option_map (λ v. v.items) made
        ≡ shapes.each shapes.entry_of (items_view list.now)) }
{
    let mut entries = Vec::new(alloc);
    for value in list {
        match entry_of(alloc, value)? {
            Some(entry) => entries.push(entry)?,
            None => return Ok(None),
        }
    }
    Ok(Some(entries))
}

/// The texts that the items of a list say.
fn each_text(alloc: Global, list: &[Value]) -> Result<Option<Vec<Text>>, NoMemory>
    ensures { IfOk result (λ made. option_map (λ v. v.items) made
        ≡ shapes.each as_str (items_view list.now)) }
{
    let mut texts = Vec::new(alloc);
    for value in list {
        match value.as_str() {
            Some(text) => texts.push(Text::from_bytes(alloc, text.as_bytes())?)?,
            None => return Ok(None),
        }
    }
    Ok(Some(texts))
}

/// The features of an array.
fn features_of(alloc: Global, value: Option<&Value>) -> Result<Option<Vec<Entry>>, NoMemory>
    ensures { IfOk result (λ made. option_map (λ v. v.items) made
        ≡ shapes.entries_of (option_map (λ v. view v.now) value.entry)) }
{
    let Some(value) = value else {
        return Ok(None);
    };
    match value.as_array() {
        Some(list) => entries_of(alloc, list),
        None => Ok(None),
    }
}

/// The texts of an array, or no texts.
fn texts_of(alloc: Global, value: Option<&Value>) -> Result<Option<Vec<Text>>, NoMemory>
    ensures { IfOk result (λ made. option_map (λ v. v.items) made
        ≡ shapes.texts_of (option_map (λ v. view v.now) value.entry)) }
{
    let Some(value) = value else {
        return Ok(Some(Vec::new(alloc)));
    };
    match value.as_array() {
        Some(list) => each_text(alloc, list),
        None => Ok(None),
    }
}

/// What a value says of features and constraints.
#[derive(Drop)]
pub(crate) struct Outline {
    pub(crate) entries: Vec<Entry>,
    pub(crate) texts: Vec<Text>,
}

/// A model: an object with an array of features, and perhaps one of constraints.
pub(crate) fn outline_of(alloc: Global, value: &Value) -> Result<Option<Outline>, NoMemory>
    ensures { IfOk result (λ made. option_map shapes.outline made ≡ shapes.outline_of (view value.now)) }
{
    if !has_only(&["features", "constraints"], value) {
        return Ok(None);
    }
    let Some(entries) = features_of(alloc, value.get("features"))? else {
        return Ok(None);
    };
    let Some(texts) = texts_of(alloc, value.get("constraints"))? else {
        return Ok(None);
    };
    Ok(Some(Outline { entries, texts }))
}
