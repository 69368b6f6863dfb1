//! Names, lists and maps as values of JSON, and how they are put into an object.

ghost use Rattle.std.specs.Prelude.{◌≡◌, IfOk, OnOk, option_map, string_bytes};
ghost use Rattle.serde_json.specs.Data.{no_members, put as put_member, string};
ghost use Rattle.serde_json.specs.View.{members_view, view};
ghost use Rattle.xm_model.specs.TextLines.{name_at};
ghost use Rattle.xm_model.specs.Naming.{texts_of};
ghost use Rattle.xm_netlist.specs.Numbered.{marked_from};
ghost use Rattle.xm_writer.specs.Inner.MemberSteps.{put_if};
ghost use Rattle.xm_writer.specs.Texts.{AreTexts};
ghost use Rattle.xm_writer.specs.Writing as spec;

use serde_json::{Map, Value};
use std::alloc::Global;
use xm_model::{OutOfMemory, Text, name_of};

/// The name with this number.
pub fn name_text(alloc: Global, names: &[Text], i: usize) -> Result<String, OutOfMemory>
    requires { AreTexts (texts_of names.now) }
    ensures { IfOk result (λ text. string_bytes text ≡ name_at (texts_of names.now) i) }
{
    match std::str::from_utf8(name_of(names, i)) {
        Ok(text) => Ok(String::from_str(alloc, text)?),
        Err(_) => unreachable!(),
    }
}

/// The name with this number, as a value.
pub fn name_value(alloc: Global, names: &[Text], i: usize) -> Result<Value, OutOfMemory>
    requires { AreTexts (texts_of names.now) }
    ensures { IfOk result (λ v. view v ≡ spec.name_data (texts_of names.now) i) }
{
    Ok(Value::String(name_text(alloc, names, i)?))
}

/// The names with these numbers.
pub fn names_value(alloc: Global, names: &[Text], numbers: &[u8]) -> Result<Value, OutOfMemory>
    requires { AreTexts (texts_of names.now) }
    ensures { IfOk result (λ v. view v ≡ spec.names_data (texts_of names.now) numbers.now) }
{
    let mut values = Vec::new(alloc);
    for number in numbers {
        let name = name_text(alloc, names, usize::from(*number))?;
        values.push(Value::String(name))?;
    }
    Ok(Value::Array(values))
}

/// The names of those that are marked.
pub fn marked_value(alloc: Global, names: &[Text], marks: &[bool]) -> Result<Value, OutOfMemory>
    requires { AreTexts (texts_of names.now) }
    ensures { IfOk result (λ v. view v ≡ spec.names_data (texts_of names.now) (marked_from 0 marks.now)) }
{
    let mut values = Vec::new(alloc);
    for (i, mark) in marks.iter().enumerate() {
        if *mark {
            let name = name_text(alloc, names, i)?;
            values.push(Value::String(name))?;
        }
    }
    Ok(Value::Array(values))
}

/// Puts a member in, in the place of one with this key.
pub fn put(
    alloc: Global,
    members: &mut Map<String, Value>,
    key: &str,
    value: Value,
) -> Result<(), OutOfMemory>
    ensures { OnOk result (members_view members.new.entries
        ≡ put_member key.now (view value) (members_view members.old.entries)) }
{
    let key = String::from_str(alloc, key)?;
    drop(members.insert(key, value)?);
    Ok(())
}

/// Puts a member in, if there is one.
pub fn put_some(
    alloc: Global,
    members: &mut Map<String, Value>,
    key: &str,
    value: Option<Value>,
) -> Result<(), OutOfMemory>
    ensures { OnOk result (members_view members.new.entries
        ≡ put_if key.now (option_map view value) (members_view members.old.entries)) }
{
    match value {
        Some(value) => put(alloc, members, key, value),
        None => Ok(()),
    }
}

/// Puts a text in.
pub fn put_text(
    alloc: Global,
    members: &mut Map<String, Value>,
    key: &str,
    text: &str,
) -> Result<(), OutOfMemory>
    ensures { OnOk result (members_view members.new.entries
        ≡ put_member key.now (string text.now) (members_view members.old.entries)) }
{
    let text = String::from_str(alloc, text)?;
    put(alloc, members, key, Value::String(text))
}

/// Puts the name with this number in.
pub fn put_name(
    alloc: Global,
    members: &mut Map<String, Value>,
    key: &str,
    names: &[Text],
    i: usize,
) -> Result<(), OutOfMemory>
    requires { AreTexts (texts_of names.now) }
    ensures { OnOk result (members_view members.new.entries
        ≡ put_member key.now (spec.name_data (texts_of names.now) i) (members_view members.old.entries)) }
{
    let name = name_text(alloc, names, i)?;
    put(alloc, members, key, Value::String(name))
}

/// Puts the names with these numbers in.
pub fn put_names(
    alloc: Global,
    members: &mut Map<String, Value>,
    key: &str,
    names: &[Text],
    numbers: &[u8],
) -> Result<(), OutOfMemory>
    requires { AreTexts (texts_of names.now) }
    ensures { OnOk result (members_view members.new.entries
        ≡ put_member key.now (spec.names_data (texts_of names.now) numbers.now) (members_view members.old.entries)) }
{
    let value = names_value(alloc, names, numbers)?;
    put(alloc, members, key, value)
}

/// Puts a value in under the name with this number.
pub fn put_at_name(
    alloc: Global,
    members: &mut Map<String, Value>,
    names: &[Text],
    i: usize,
    value: Value,
) -> Result<(), OutOfMemory>
    requires { AreTexts (texts_of names.now) }
    ensures { OnOk result (members_view members.new.entries
        ≡ put_member (name_at (texts_of names.now) i) (view value) (members_view members.old.entries)) }
{
    let key = name_text(alloc, names, i)?;
    drop(members.insert(key, value)?);
    Ok(())
}

/// The object, or nothing where it has no members.
pub fn object_if(members: Map<String, Value>) -> Option<Value>
    ensures { option_map view result ≡ spec.object_if (members_view members.entries) }
{
    if members.is_empty() {
        None
    } else {
        Some(Value::Object(members))
    }
}

fn changes(
    alloc: Global,
    colours: &[Text],
    images: &[u8],
) -> Result<Map<String, Value>, OutOfMemory>
    requires { AreTexts (texts_of colours.now) }
    ensures { IfOk result (λ m. members_view m.entries ≡ spec.changes (texts_of colours.now) 0 images.now no_members) }
{
    let mut members = Map::new(alloc);
    for (d, image) in images.iter().enumerate() {
        let image = usize::from(*image);
        if d != image {
            let name = name_text(alloc, colours, image)?;
            put_at_name(alloc, &mut members, colours, d, Value::String(name))?;
        }
    }
    Ok(members)
}

/// The members of a map that change a colour, if there are any.
pub fn table_value(
    alloc: Global,
    colours: &[Text],
    images: &[u8],
) -> Result<Option<Value>, OutOfMemory>
    requires { AreTexts (texts_of colours.now) }
    ensures { IfOk result (λ v. option_map view v ≡ spec.table_data (texts_of colours.now) images.now) }
{
    Ok(object_if(changes(alloc, colours, images)?))
}
