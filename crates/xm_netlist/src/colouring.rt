//! The tests of colours: each that a draft names is one of its colours.

ghost use Rattle.std.specs.Prelude.{◌≡◌, ◌∷◌, ◌++◌, [], OnOk, map};
ghost use Rattle.xm_shape.specs.Views.{allow_entry_of, plain_net_of, named_kind_of, map_entry_of, names_of, named_primitive_of, table_of};
ghost use Rattle.xm_json.specs.Path.{member_of, place_of};
ghost use Rattle.xm_shape.specs.Gives.{Gives};
ghost use Rattle.xm_json.specs.Holding.{each_holds};
ghost use Rattle.xm_shape.specs.Names.{is_among};
ghost use Rattle.xm_netlist.specs.Inner.CheckSteps as steps;
ghost use Rattle.xm_netlist.specs.Checks as spec;

use crate::naming::is_new;
use indexmap::IndexSet;
use std::alloc::Global;
use xm_json::{member_path, member_text, place_path, place_text};
use xm_model::Text;
use xm_shape::{AllowEntry, DocFault, MapEntry, NamedKind, NamedNet, NamedPrimitive};

fn is_known(colours: &IndexSet<String>, name: &str) -> bool
    ensures { result ≡ is_among (names_of colours.now.keys) name.now }
{
    colours.contains(name)
}

fn check_known_at_place(
    alloc: Global,
    colours: &IndexSet<String>,
    path: &str,
    place: usize,
    name: &str,
) -> Result<(), DocFault>
    ensures { Gives (λ _. tt) result (spec.check_known (names_of colours.now.keys) (place_of path.now place) name.now) }
{
    if !is_known(colours, name) {
        return Err(DocFault::UnknownColour(place_text(alloc, path, place)?));
    }
    Ok(())
}

fn check_all_known(
    alloc: Global,
    colours: &IndexSet<String>,
    path: &str,
    names: &[String],
) -> Result<(), DocFault>
    ensures { Gives (λ _. tt) result (spec.check_all_known (names_of colours.now.keys) path.now (names_of names.now)) }
{
    for (i, name) in names.iter().enumerate() {
        check_known_at_place(alloc, colours, path, i, name.as_str())?;
    }
    Ok(())
}

/// The colours of a member.
fn check_names_known(
    alloc: Global,
    colours: &IndexSet<String>,
    path: &str,
    key: &str,
    names: &[String],
) -> Result<(), DocFault>
    ensures { Gives (λ _. tt) result (spec.check_all_known (names_of colours.now.keys) (member_of path.now key.now)
        (names_of names.now)) }
{
    let path = member_path(alloc, path, key)?;
    check_all_known(alloc, colours, path.as_str(), names)
}

fn check_offered_at_place(
    alloc: Global,
    colours: &IndexSet<String>,
    path: &str,
    before: &mut IndexSet<String>,
    place: usize,
    name: &str,
) -> Result<(), DocFault>
    ensures named { Gives (λ _. tt) result
        (steps.check_offered_after (names_of colours.now.keys) path.now (names_of before.old.keys) place name.now) }
    ensures kept { OnOk result (names_of before.new.keys ≡ names_of before.old.keys ++ name.now ∷ []) }
{
    check_known_at_place(alloc, colours, path, place, name)?;
    if !is_new(alloc, before, name)? {
        return Err(DocFault::SameName(place_text(alloc, path, place)?));
    }
    Ok(())
}

fn check_all_offered(
    alloc: Global,
    colours: &IndexSet<String>,
    path: &str,
    names: &[String],
) -> Result<(), DocFault>
    ensures { Gives (λ _. tt) result (steps.check_all_offered (names_of colours.now.keys) path.now
        (names_of names.now)) }
{
    let mut before = IndexSet::new(alloc);
    for (i, name) in names.iter().enumerate() {
        check_offered_at_place(alloc, colours, path, &mut before, i, name.as_str())?;
    }
    Ok(())
}

/// The colours of a source, which also differ.
fn check_source_colours(
    alloc: Global,
    colours: &IndexSet<String>,
    path: &str,
    names: &[String],
) -> Result<(), DocFault>
    ensures { Gives (λ _. tt) result (steps.check_source_colours (names_of colours.now.keys) path.now
        (names_of names.now)) }
{
    let path = member_path(alloc, path, "colours")?;
    check_all_offered(alloc, colours, path.as_str(), names)
}

fn check_map_entry(
    alloc: Global,
    colours: &IndexSet<String>,
    path: &str,
    image: &MapEntry,
) -> Result<(), DocFault>
    ensures { Gives (λ _. tt) result (steps.check_map_entry (names_of colours.now.keys) path.now
        (map_entry_of image.now)) }
{
    if !is_known(colours, image.colour.as_str()) {
        return Err(DocFault::UnknownColour(Text::from_bytes(alloc, path.as_bytes())?));
    }
    if !is_known(colours, image.image.as_str()) {
        let text = member_text(alloc, path, image.colour.as_str())?;
        return Err(DocFault::UnknownColour(text));
    }
    Ok(())
}

fn check_table(
    alloc: Global,
    colours: &IndexSet<String>,
    path: &str,
    table: &[MapEntry],
) -> Result<(), DocFault>
    ensures { Gives (λ _. tt) result (spec.check_table (names_of colours.now.keys) path.now (table_of table.now)) }
{
    for image in table {
        check_map_entry(alloc, colours, path, image)?;
    }
    Ok(())
}

/// The colours of a map, which is a member.
fn check_map(
    alloc: Global,
    colours: &IndexSet<String>,
    path: &str,
    key: &str,
    table: &[MapEntry],
) -> Result<(), DocFault>
    ensures { Gives (λ _. tt) result (spec.check_table (names_of colours.now.keys) (member_of path.now key.now)
        (table_of table.now)) }
{
    let path = member_path(alloc, path, key)?;
    check_table(alloc, colours, path.as_str(), table)
}

fn check_fork_colours(
    alloc: Global,
    colours: &IndexSet<String>,
    path: &str,
    table_a: &[MapEntry],
    table_b: &[MapEntry],
) -> Result<(), DocFault>
    ensures { Gives (λ _. tt) result (steps.check_fork_colours (names_of colours.now.keys) path.now
        (table_of table_a.now) (table_of table_b.now)) }
{
    check_map(alloc, colours, path, "map_a", table_a)?;
    check_map(alloc, colours, path, "map_b", table_b)
}

fn check_kind_colours(
    alloc: Global,
    colours: &IndexSet<String>,
    path: &str,
    kind: &NamedKind,
) -> Result<(), DocFault>
    ensures { Gives (λ _. tt) result (spec.check_kind_colours (names_of colours.now.keys) path.now
        (named_kind_of kind.now)) }
{
    match kind {
        NamedKind::Source { colours: names, .. } => check_source_colours(
            alloc, colours, path, names,
        ),
        NamedKind::Sink { .. } => Ok(()),
        NamedKind::Queue { packets, .. } => check_names_known(
            alloc, colours, path, "initial", packets,
        ),
        NamedKind::Function { table, .. } => check_map(alloc, colours, path, "map", table),
        NamedKind::Fork {
            table_a,
            table_b,
            ..
        } => check_fork_colours(alloc, colours, path, table_a, table_b),
        NamedKind::Join { .. } => Ok(()),
        NamedKind::Switch { to_a, .. } => check_names_known(alloc, colours, path, "to_a", to_a),
        NamedKind::Merge { .. } => Ok(()),
    }
}

fn check_primitive_colours(
    alloc: Global,
    colours: &IndexSet<String>,
    place: usize,
    primitive: &NamedPrimitive,
) -> Result<(), DocFault>
    ensures { Gives (λ _. tt) result (spec.check_primitive_colours (names_of colours.now.keys) place
        (named_primitive_of primitive.now)) }
{
    let path = place_path(alloc, "net", place)?;
    check_kind_colours(alloc, colours, path.as_str(), &primitive.kind)
}

fn check_primitives_colours(
    alloc: Global,
    colours: &IndexSet<String>,
    primitives: &[NamedPrimitive],
) -> Result<(), DocFault>
    ensures { Gives (λ _. tt) result (each_holds (spec.check_primitive_colours (names_of colours.now.keys))
        (map named_primitive_of primitives.now)) }
{
    for (i, primitive) in primitives.iter().enumerate() {
        check_primitive_colours(alloc, colours, i, primitive)?;
    }
    Ok(())
}

fn check_entry_colours(
    alloc: Global,
    colours: &IndexSet<String>,
    place: usize,
    entry: &AllowEntry,
) -> Result<(), DocFault>
    ensures { Gives (λ _. tt) result (spec.check_entry_colours (names_of colours.now.keys) place
        (allow_entry_of entry.now)) }
{
    check_names_known(
        alloc,
        colours,
        "allow",
        entry.channel.as_str(),
        &entry.colours,
    )
}

fn check_entries_colours(
    alloc: Global,
    colours: &IndexSet<String>,
    entries: &[AllowEntry],
) -> Result<(), DocFault>
    ensures { Gives (λ _. tt) result (each_holds (spec.check_entry_colours (names_of colours.now.keys))
        (map allow_entry_of entries.now)) }
{
    for (i, entry) in entries.iter().enumerate() {
        check_entry_colours(alloc, colours, i, entry)?;
    }
    Ok(())
}

/// The colours that primitives and entries of `allow` name are known, or the first fault. `colours` are
/// those of the draft. Time grows with the length of the draft.
#[tactic(auto, unfolding(crate::specs::Checks::check_colours))]
pub(crate) fn check_colours(
    alloc: Global,
    colours: &IndexSet<String>,
    draft: &NamedNet,
) -> Result<(), DocFault>
    requires { names_of colours.now.keys ≡ names_of draft.now.colours.items }
    ensures { Gives (λ _. tt) result (spec.check_colours (plain_net_of draft.now)) }
{
    check_primitives_colours(alloc, colours, &draft.primitives)?;
    check_entries_colours(alloc, colours, &draft.allow)
}
