//! Primitives by number, from primitives by name.

ghost use Rattle.std.specs.Prelude.{◌≡◌, ◌≤◌, ◌∷◌, [], All, IfOk, length, map, slice_set};
ghost use Rattle.xm_model.specs.Component.{component_of};
ghost use Rattle.xm_model.specs.Naming.{naming_of, texts_of};
ghost use Rattle.xm_model.specs.Limits.{most_capacity, most_colours};
ghost use Rattle.xm_shape.specs.NamedNet as plain;
ghost use Rattle.xm_shape.specs.Views.{named_kind_of, names_of, named_primitive_of, table_of};
ghost use Rattle.xm_shape.specs.Names.{number_in};
ghost use Rattle.xm_netlist.specs.Numbered as spec;
ghost use Rattle.xm_netlist.specs.Inner.Placed.{AreFew, numbered_component, naming_from, numbered_primitive, with_images, with_marks};
ghost use Rattle.xm_netlist.specs.Checks.{capacity_in, kind_capacity};

use indexmap::IndexSet;
use std::alloc::Global;
use xm_model::{List, Names, OutOfMemory, Prim, SourceMode, Text};
use xm_shape::{MapEntry, NamedKind, NamedPrimitive};

/// Names in an order, each once.
pub(crate) type NameSet = IndexSet<String>;

/// A primitive, or no memory was found.
type Build = Result<Prim, OutOfMemory>;

/// The names that a draft numbers: the number of a name is its place.
#[derive(Drop)]
pub(crate) struct Numbers {
    pub prims: NameSet,
    pub channels: NameSet,
    pub colours: NameSet,
}

impl Numbers {
    ghost use Rattle.std.specs.Prelude.{◌≡◌};
    ghost use Rattle.xm_shape.specs.Views.{names_of};
    ghost use Rattle.xm_shape.specs.Names.{number_in};
    ghost use Rattle.xm_netlist.specs.Inner.Placed.{AreFew};

    fn channel(&self, name: &str) -> u32
        requires { AreFew self.now }
        ensures { result ≡ number_in (names_of self.now.channels.keys) name.now }
    {
        number(&self.channels, name) as u32
    }
}

/// The number of a name among the names, and their count where it is none of them.
pub(crate) fn number(names: &NameSet, name: &str) -> usize
    ensures number { result ≡ number_in (names_of names.now.keys) name.now }
    ensures within { result ≤ length names.now.keys }
{
    names.get_index_of(name).unwrap_or(names.len())
}

fn colour(names: &NameSet, name: &str) -> u8
    requires { length names.now.keys ≤ most_colours }
    ensures { result ≡ number_in (names_of names.now.keys) name.now }
{
    number(names, name) as u8
}

/// The numbers of the colours, in their order.
fn colour_numbers(alloc: Global, known: &NameSet, names: &[String]) -> Result<List<u8>, OutOfMemory>
    requires { length known.now.keys ≤ most_colours }
    ensures { IfOk result (λ l. l.items ≡ map (number_in (names_of known.now.keys)) (names_of names.now)) }
{
    let mut numbers = List::new(alloc);
    for name in names {
        numbers.push(colour(known, name.as_str()))?;
    }
    Ok(numbers)
}

/// The numbers below `n`, from 0 on.
fn numbers_below(alloc: Global, n: u8) -> Result<List<u8>, OutOfMemory>
    ensures { IfOk result (λ l. l.items ≡ spec.numbers_below n) }
{
    let mut numbers = List::new(alloc);
    for k in 0..n {
        numbers.push(k)?;
    }
    Ok(numbers)
}

/// Writes the value at its place, if there is one.
pub(crate) fn set_at<T: Drop>(items: &mut [T], place: usize, value: T)
    ensures { items.new ≡ slice_set items.old place value }
{
    if place < items.len() {
        items[place] = value;
    }
}

fn set_images(images: &mut [u8], known: &NameSet, table: &[MapEntry])
    requires { length known.now.keys ≤ most_colours }
    ensures { images.new ≡ with_images (names_of known.now.keys) (table_of table.now) images.old }
{
    for image in table {
        let value = colour(known, image.image.as_str());
        set_at(images, number(known, image.colour.as_str()), value);
    }
}

/// For each colour the one that it becomes: itself, but where the map names it.
fn images_of(alloc: Global, known: &NameSet, table: &[MapEntry]) -> Result<List<u8>, OutOfMemory>
    requires { length known.now.keys ≤ most_colours }
    ensures { IfOk result (λ l. l.items ≡ spec.images_of (names_of known.now.keys) (table_of table.now)) }
{
    let mut images = numbers_below(alloc, known.len() as u8)?;
    set_images(images.as_mut_slice(), known, table);
    Ok(images)
}

fn set_marks(marks: &mut [bool], known: &NameSet, names: &[String])
    ensures { marks.new ≡ with_marks (names_of known.now.keys) (names_of names.now) marks.old }
{
    for name in names {
        set_at(marks, number(known, name.as_str()), true);
    }
}

/// For each colour whether it is among the names.
pub(crate) fn marks_of(
    alloc: Global,
    known: &NameSet,
    names: &[String],
) -> Result<List<bool>, OutOfMemory>
    requires { length known.now.keys ≤ most_colours }
    ensures { IfOk result (λ l. l.items ≡ spec.marks_of (names_of known.now.keys) (names_of names.now)) }
{
    let mut marks = List::filled(alloc, false, known.len() as u32)?;
    set_marks(marks.as_mut_slice(), known, names);
    Ok(marks)
}

fn source(
    alloc: Global,
    numbers: &Numbers,
    out: &str,
    colours: &[String],
    mode: SourceMode,
) -> Build
    requires { AreFew numbers.now }
    ensures { IfOk result (λ prim. component_of prim
        ≡ numbered_component numbers.now (plain.source out.now (names_of colours.now) mode)) }
{
    let colours = colour_numbers(alloc, &numbers.colours, colours)?;
    Ok(Prim::Source {
        out: numbers.channel(out),
        colours,
        mode,
    })
}

fn queue(
    alloc: Global,
    numbers: &Numbers,
    input: &str,
    out: &str,
    capacity: u32,
    packets: &[String],
) -> Build
    requires { AreFew numbers.now }
    ensures { IfOk result (λ prim. component_of prim
        ≡ numbered_component numbers.now (plain.queue input.now out.now capacity (names_of packets.now))) }
{
    let initial = colour_numbers(alloc, &numbers.colours, packets)?;
    Ok(Prim::Queue {
        input: numbers.channel(input),
        out: numbers.channel(out),
        capacity,
        initial,
    })
}

fn function(alloc: Global, numbers: &Numbers, input: &str, out: &str, table: &[MapEntry]) -> Build
    requires { AreFew numbers.now }
    ensures { IfOk result (λ prim. component_of prim
        ≡ numbered_component numbers.now (plain.function input.now out.now (table_of table.now))) }
{
    let map = images_of(alloc, &numbers.colours, table)?;
    Ok(Prim::Function {
        input: numbers.channel(input),
        out: numbers.channel(out),
        map,
    })
}

fn fork(
    alloc: Global,
    numbers: &Numbers,
    input: &str,
    a: &str,
    b: &str,
    table_a: &[MapEntry],
    table_b: &[MapEntry],
) -> Build
    requires { AreFew numbers.now }
    ensures { IfOk result (λ prim. component_of prim
        ≡ numbered_component numbers.now
        (plain.fork input.now a.now b.now (table_of table_a.now) (table_of table_b.now))) }
{
    let map_a = images_of(alloc, &numbers.colours, table_a)?;
    let map_b = images_of(alloc, &numbers.colours, table_b)?;
    Ok(Prim::Fork {
        input: numbers.channel(input),
        a: numbers.channel(a),
        b: numbers.channel(b),
        map_a,
        map_b,
    })
}

fn switch(alloc: Global, numbers: &Numbers, input: &str, a: &str, b: &str, to_a: &[String]) -> Build
    requires { AreFew numbers.now }
    ensures { IfOk result (λ prim. component_of prim
        ≡ numbered_component numbers.now (plain.switch input.now a.now b.now (names_of to_a.now))) }
{
    let to_a = marks_of(alloc, &numbers.colours, to_a)?;
    Ok(Prim::Switch {
        input: numbers.channel(input),
        a: numbers.channel(a),
        b: numbers.channel(b),
        to_a,
    })
}

/// The primitive of a kind.
fn component(alloc: Global, numbers: &Numbers, kind: &NamedKind) -> Build
    requires few { AreFew numbers.now }
    requires small { kind_capacity (named_kind_of kind.now) ≤ most_capacity }
    ensures { IfOk result (λ prim. component_of prim ≡ numbered_component numbers.now (named_kind_of kind.now)) }
{
    match kind {
        NamedKind::Source { out, colours, mode } => source(alloc, numbers, out, colours, *mode),
        NamedKind::Sink { input, mode } => Ok(Prim::Sink {
            input: numbers.channel(input),
            mode: *mode,
        }),
        NamedKind::Queue {
            input,
            out,
            capacity,
            packets,
        } => queue(alloc, numbers, input, out, *capacity as u32, packets),
        NamedKind::Function { input, out, table } => function(alloc, numbers, input, out, table),
        NamedKind::Fork {
            input,
            a,
            b,
            table_a,
            table_b,
        } => fork(alloc, numbers, input, a, b, table_a, table_b),
        NamedKind::Join { a, b, out, pass } => Ok(Prim::Join {
            a: numbers.channel(a),
            b: numbers.channel(b),
            out: numbers.channel(out),
            pass: *pass,
        }),
        NamedKind::Switch { input, a, b, to_a } => switch(alloc, numbers, input, a, b, to_a),
        NamedKind::Merge { a, b, out } => Ok(Prim::Merge {
            a: numbers.channel(a),
            b: numbers.channel(b),
            out: numbers.channel(out),
        }),
    }
}

/// The primitives by number, in their order.
pub(crate) fn components(
    alloc: Global,
    numbers: &Numbers,
    primitives: &[NamedPrimitive],
) -> Result<List<Prim>, OutOfMemory>
    requires few { AreFew numbers.now }
    requires small { All (λ primitive. capacity_in primitive ≤ most_capacity) (map named_primitive_of primitives.now) }
    ensures { IfOk result (λ l. map component_of l.items
        ≡ map (numbered_primitive numbers.now) (map named_primitive_of primitives.now)) }
{
    let mut prims = List::new(alloc);
    for primitive in primitives {
        prims.push(component(alloc, numbers, &primitive.kind)?)?;
    }
    Ok(prims)
}

fn texts_of_names(alloc: Global, names: &NameSet) -> Result<List<Text>, OutOfMemory>
    ensures { IfOk result (λ texts. texts_of texts.items ≡ names_of names.now.keys) }
{
    let mut texts = List::new(alloc);
    for name in names.as_slice() {
        texts.push(Text::from_bytes(alloc, name.as_bytes())?)?;
    }
    Ok(texts)
}

/// The names, each by its number.
pub(crate) fn names_of(alloc: Global, numbers: &Numbers) -> Result<Names, OutOfMemory>
    ensures { IfOk result (λ names. naming_of names ≡ naming_from numbers.now) }
{
    Ok(Names {
        prims: texts_of_names(alloc, &numbers.prims)?,
        channels: texts_of_names(alloc, &numbers.channels)?,
        colours: texts_of_names(alloc, &numbers.colours)?,
    })
}
