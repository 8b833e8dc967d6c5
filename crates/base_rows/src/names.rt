//! Names of properties.
use crate::values::{props, say_props};
use mapi_values::Props;
use named_props::{read_names, write_names};
use std::alloc::Global;
use std::fmt::Write;
use test_lines::{Trouble, Words};

/// The property whose name is a number under a GUID, and the values with that name.
fn named(alloc: Global, values: &Props, guid: [u8; 16], id: u32) -> Result<(u16, Props), Trouble> {
    let Ok(mut names) = read_names(alloc, values) else {
        return Err(Trouble::Name);
    };
    let Ok(property) = names.lookup_or_add(alloc, guid, id) else {
        return Err(Trouble::Name);
    };
    if !names.has_name(property) || names.has_name(property.saturating_add(1)) {
        return Err(Trouble::Name);
    }
    Ok((property, write_names(alloc, &names)?))
}

/// Adds the property of a name, and the values of the node of names with it.
fn say_named(
    alloc: Global,
    text: &mut String,
    values: &Props,
    guid: [u8; 16],
    id: u32,
) -> Result<(), Trouble> {
    let (property, values) = named(alloc, values, guid, id)?;
    write!(text, "{property:04x} ")?;
    say_props(text, &values)
}

fn guid(alloc: Global, words: &mut Words) -> Result<[u8; 16], Trouble> {
    let bytes = words.bytes(alloc)?;
    let mut guid = [0u8; 16];
    if bytes.len() != 16 {
        return Err(Trouble::Spelling);
    }
    guid.copy_from_slice(bytes.as_slice());
    Ok(guid)
}

/// The property of a name, and the values of the node of names with it.
pub fn ask_names(alloc: Global, text: &mut String, words: &mut Words) -> Result<(), Trouble> {
    let guid = guid(alloc, words)?;
    let id = words.id()?;
    let values = props(alloc, words.rest())?;
    say_named(alloc, text, &values, guid, id)
}
