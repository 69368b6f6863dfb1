//! Sources and sinks in memory and over std's readers and writers, with faults in mid-stream.

use std::alloc::Global;
use std::io;
use std::io::{Read, Write};
use xm_io::{
    CleanSource, Failed, MemSink, MemSource, ReadFault, Sink, Source, StdSink, StdSource, read_all,
    write_all,
};
use xm_model::{List, OutOfMemory, Text};

const ALPHABET: &[u8] = b"abcdefghijklmnopqrstuvwxyz";

/// No call, or call 1 alone.
fn fails_at(alloc: Global, is_one: bool) -> Result<List<u32>, OutOfMemory> {
    let mut fails = List::new(alloc);
    if is_one {
        fails.push(1)?;
    }
    Ok(fails)
}

/// Whether reading with this limit gives the alphabet, or just this fault.
fn reads<S: Source>(alloc: Global, source: &mut S, limit: u32, fault: Option<ReadFault>) -> bool {
    match read_all(alloc, source, limit) {
        Ok(text) => fault.is_none() && text.as_bytes() == ALPHABET,
        Err(found) => fault == Some(found),
    }
}

/// The same of the alphabet in pieces of ten bytes, whose second call may fail.
fn reads_in_tens(
    alloc: Global,
    is_failing: bool,
    limit: u32,
    fault: Option<ReadFault>,
) -> Result<bool, OutOfMemory> {
    let fails = fails_at(alloc, is_failing)?;
    let bytes = Text::from_bytes(alloc, ALPHABET)?;
    let mut source = MemSource::new(bytes, 10, fails);
    Ok(reads(alloc, &mut source, limit, fault))
}

fn is_read_in_tens(alloc: Global, is_failing: bool, limit: u32, fault: Option<ReadFault>) -> bool {
    reads_in_tens(alloc, is_failing, limit, fault).is_ok_and(|holds| holds)
}

#[test]
fn pieces_are_read_to_the_end(rt: HostRuntime) {
    assert!(rt; is_read_in_tens(rt.alloc(), false, 1000, None));
}

#[test]
fn a_fault_of_the_source_is_no_end(rt: HostRuntime) {
    assert!(rt; is_read_in_tens(rt.alloc(), true, 1000, Some(ReadFault::Failed)));
}

#[test]
fn as_many_bytes_as_the_limit_are_read_and_no_more(rt: HostRuntime) {
    assert!(rt; is_read_in_tens(rt.alloc(), false, 25, Some(ReadFault::TooLong)));
    assert!(rt; is_read_in_tens(rt.alloc(), false, 26, None));
}

fn is_read_cleanly(alloc: Global) -> bool {
    Text::from_bytes(alloc, ALPHABET).is_ok_and(|bytes| reads(
        alloc,
        &mut CleanSource::new(bytes),
        26,
        None,
    ))
}

#[test]
fn a_clean_source_gives_all(rt: HostRuntime) {
    assert!(rt; is_read_cleanly(rt.alloc()));
}

/// A sink of this room that takes five bytes a call, and whose second call may fail.
fn fives(alloc: Global, room: u32, is_failing: bool) -> Result<MemSink, OutOfMemory> {
    let fails = fails_at(alloc, is_failing)?;
    MemSink::new(alloc, room, 5, fails)
}

fn breaks_off(sink: &mut MemSink) -> bool {
    write_all(sink, ALPHABET) == Err(Failed) && sink.held() == b"abcde".as_slice()
}

#[test]
fn a_sink_holds_what_came_before_its_fault(rt: HostRuntime) {
    let sink = fives(rt.alloc(), 100, true);
    assert!(rt; sink.is_ok_and(|mut sink| breaks_off(&mut sink)));
}

fn takes_no_more(sink: &mut MemSink) -> bool {
    write_all(sink, ALPHABET) == Ok(())
        && write_all(sink, b".") == Err(Failed)
        && sink.held() == ALPHABET
}

#[test]
fn a_full_room_is_a_fault(rt: HostRuntime) {
    let sink = fives(rt.alloc(), 26, false);
    assert!(rt; sink.is_ok_and(|mut sink| takes_no_more(&mut sink)));
}

/// A reader and a writer that moves four bytes and then fails.
#[derive(Drop)]
struct Broken {
    is_broken: bool,
}

impl Read for Broken {
    fn read(&mut self, buf: &mut [u8]) -> io::Result<usize> {
        if self.is_broken {
            return Err(io::ErrorKind::BrokenPipe.into());
        }
        self.is_broken = true;
        let count = buf.len().min(4);
        buf[..count].fill(b'x');
        Ok(count)
    }
}

impl Write for Broken {
    fn write(&mut self, buf: &[u8]) -> io::Result<usize> {
        if self.is_broken {
            return Err(io::ErrorKind::BrokenPipe.into());
        }
        self.is_broken = true;
        Ok(buf.len().min(4))
    }

    fn flush(&mut self) -> io::Result<()> {
        Ok(())
    }
}

#[test]
fn an_error_of_a_reader_is_a_fault(rt: HostRuntime) {
    assert!(rt; reads(rt.alloc(), &mut StdSource::new(ALPHABET), 26, None));
    let mut broken = StdSource::new(Broken { is_broken: false });
    assert!(rt; reads(rt.alloc(), &mut broken, 26, Some(ReadFault::Failed)));
}

fn writes<K: Sink>(sink: &mut K, outcome: Result<(), Failed>) -> bool {
    write_all(sink, ALPHABET) == outcome
}

#[test]
fn an_error_of_a_writer_is_a_fault(rt: HostRuntime) {
    let mut whole = StdSink::new(Vec::new(rt.alloc()));
    assert!(rt; writes(&mut whole, Ok(())));
    let mut broken = StdSink::new(Broken { is_broken: false });
    assert!(rt; writes(&mut broken, Err(Failed)));
}
