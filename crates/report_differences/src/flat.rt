//! A JSON value as a list of its leaves, each after the path that leads to it.

use indexmap::IndexMap;
use serde_json::{Map, Value};
use std::alloc::{AllocError, Global};

/// Members that say which one of a list an item is; of several the first one here does.
const LABELS: [&str; 9] = [
    "name", "object", "part", "door", "file", "line", "priority", "parts", "reason",
];

/// The leaves of a value, by their paths.
pub(crate) type Leaves = IndexMap<String, String>;

/// What is in a list, by name, or by its place from 0.
fn label_of(alloc: Global, item: &Value, place: usize) -> Result<String, AllocError> {
    if let Some(text) = item.as_str() {
        return String::from_str(alloc, text);
    }
    for name in LABELS {
        if let Some(label) = item.get(name) {
            return named(alloc, item, label);
        }
    }
    format!(in alloc; "{place}")
}

/// The label of an item, with the part that may do something with it where it has both.
fn named(alloc: Global, item: &Value, label: &Value) -> Result<String, AllocError> {
    let mut said = plain(alloc, label)?;
    if item.get("object").is_some()
        && let Some(part) = item.get("part")
    {
        said.push_str(", ")?;
        said.push_str(plain(alloc, part)?.as_str())?;
    }
    Ok(said)
}

/// A value as it is read: a text without quotes.
fn plain(alloc: Global, value: &Value) -> Result<String, AllocError> {
    match value.as_str() {
        Some(text) => String::from_str(alloc, text),
        None => format!(in alloc; "{value}"),
    }
}

/// A leaf: where two have one path, as two promises of one door, they are one leaf with both values.
fn add_leaf(leaves: &mut Leaves, path: String, value: String) -> Result<(), AllocError> {
    if let Some(there) = leaves.get_mut(&path) {
        there.push_str(", ")?;
        there.push_str(value.as_str())?;
        return Ok(());
    }
    leaves.insert(path, value)?;
    Ok(())
}

/// A sentence, where an item is one: its text, and its section and what it stands on.
fn sentence_of(alloc: Global, item: &Value) -> Result<Option<(String, String)>, AllocError> {
    let (Some(text), Some(section), Some(ground)) = (
        item.get("text"),
        item.get("section"),
        item.get("ground"),
    ) else {
        return Ok(None);
    };
    let mut said = plain(alloc, section)?;
    said.push_str(", ")?;
    said.push_str(plain(alloc, ground)?.as_str())?;
    Ok(Some((plain(alloc, text)?, said)))
}

/// Adds the leaves of a value to which a path leads.
#[cycle(leaves)]
pub(crate) fn add_leaves(
    alloc: Global,
    leaves: &mut Leaves,
    path: &str,
    value: &Value,
) -> Result<(), AllocError> {
    match value {
        Value::Array(items) => add_items(alloc, leaves, path, items),
        Value::Object(members) => add_members(alloc, leaves, path, members),
        _ => {
            let (path, said) = (String::from_str(alloc, path)?, plain(alloc, value)?);
            add_leaf(leaves, path, said)
        }
    }
}

/// Adds the leaves of a list.
#[cycle(leaves)]
fn add_items(
    alloc: Global,
    leaves: &mut Leaves,
    path: &str,
    items: &Vec<Value>,
) -> Result<(), AllocError> {
    for (place, item) in items.iter().enumerate() {
        if let Some((text, said)) = sentence_of(alloc, item)? {
            add_leaf(leaves, format!(in alloc; "{path}[{text}]")?, said)?;
        } else {
            let label = label_of(alloc, item, place)?;
            let inner = format!(in alloc; "{path}[{label}]")?;
            add_leaves(alloc, leaves, inner.as_str(), item)?;
        }
    }
    Ok(())
}

/// Adds the leaves of an object.
#[cycle(leaves)]
fn add_members(
    alloc: Global,
    leaves: &mut Leaves,
    path: &str,
    members: &Map<String, Value>,
) -> Result<(), AllocError> {
    let between = if path.is_empty() { "" } else { "." };
    for (name, member) in members.iter() {
        let inner = format!(in alloc; "{path}{between}{name}")?;
        add_leaves(alloc, leaves, inner.as_str(), member)?;
    }
    Ok(())
}
