ghost use Rattle.std.specs.Prelude.{◌≡◌, ◌<◌, ◌≤◌, length, IfOk};

use crate::{
    Addr, Boxed, Got, ListOf, Memory, MemorySink, MemorySource, Octets, ReadSource, Sink, Source,
    SteadySink, SteadySource, Took, Transport, WriteFault, WriteSink, write_all,
};
use std::alloc::Global;
use std::io;
use std::io::{ErrorKind, Read, Write};
use std::process::Abort;

/// Forty bytes. Its clause keeps them from the proofs.
fn text() -> &'static [u8]
    ensures { length result.now ≡ 40 }
{
    b"0123456789abcdefghijklmnopqrstuvwxyzABCD"
}

/// The text from a place on.
fn text_from(place: usize) -> &'static [u8]
    requires { place ≤ 40 }
{
    &text()[place..]
}

/// The text up to a place.
fn text_to(place: usize) -> &'static [u8]
    requires { place ≤ 40 }
{
    &text()[..place]
}

/// A list of these numbers.
fn numbers(rt: &impl Abort, alloc: Global, items: &[u64]) -> ListOf<u64> {
    let Ok(items) = Vec::from_slice(alloc, items) else {
        panic!(rt; "no memory");
    };
    ListOf::of_vec(items)
}

/// A list of these bytes.
fn octets(rt: &impl Abort, alloc: Global, bytes: &[u8]) -> Octets {
    let Ok(copy) = Octets::of(alloc, bytes) else {
        panic!(rt; "no memory");
    };
    copy
}

/// These bytes are the wanted ones.
fn are(rt: &impl Abort, bytes: &[u8], wanted: &[u8]) {
    assert_eq!(rt; bytes, wanted);
}

/// One more item joins a list.
fn joins(rt: &impl Abort, list: &mut Octets, item: u8) {
    assert!(rt; list.push(item).is_ok());
}

/// The second of three items becomes another one.
fn second_becomes(rt: &impl Abort, list: &mut Octets, item: u8) {
    assert_eq!(rt; list.len(), 3);
    list.as_mut_slice()[1] = item;
}

/// A copy of a list's items is the same list.
fn is_copied(rt: &impl Abort, alloc: Global, list: &Octets) {
    let copy = octets(rt, alloc, list.as_slice());
    assert!(rt; copy == *list);
}

#[test]
fn a_list_keeps_its_items_in_order(rt: HostRuntime) {
    let mut list: Octets = ListOf::new(rt.alloc());
    assert!(rt; list.is_empty());
    joins(&rt, &mut list, 3);
    joins(&rt, &mut list, 1);
    joins(&rt, &mut list, 2);
    second_becomes(&rt, &mut list, 9);
    are(&rt, list.as_slice(), &[3, 9, 2]);
    is_copied(&rt, rt.alloc(), &list);
    are(&rt, list.into_vec().as_slice(), &[3, 9, 2]);
}

/// Three numbers in a box.
fn boxed(rt: &impl Abort, alloc: Global, value: [u8; 3]) -> Boxed<[u8; 3]> {
    let Ok(boxed) = Boxed::new(alloc, value) else {
        panic!(rt; "no memory");
    };
    boxed
}

/// Two boxes have other values.
fn differ(rt: &impl Abort, one: &Boxed<[u8; 3]>, other: &Boxed<[u8; 3]>) {
    assert!(rt; *one != *other);
}

#[test]
fn a_boxed_value_is_the_value(rt: HostRuntime) {
    let one = boxed(&rt, rt.alloc(), [3, 1, 2]);
    let other = boxed(&rt, rt.alloc(), [3, 9, 2]);
    are(&rt, one.get(), &[3, 1, 2]);
    differ(&rt, &one, &other);
    are(&rt, &other.into_inner(), &[3, 9, 2]);
}

/// Whether two addresses are the same, alone and at one port. At two ports they never are.
fn is_same(rt: &impl Abort, one: Addr, other: Addr, same: bool) {
    assert_eq!(rt; one.is(other), same);
    let at = Transport {
        addr: one,
        port: 1194,
    };
    let to = Transport {
        addr: other,
        port: 1194,
    };
    assert_eq!(rt; at.is(to), same);
    let past = Transport {
        addr: other,
        port: 1195,
    };
    assert!(rt; !at.is(past));
}

#[test]
fn an_address_is_none_of_another_family_or_port(rt: HostRuntime) {
    let four = Addr::V4([10, 8, 0, 2]);
    let other = Addr::V4([10, 8, 0, 3]);
    let six = Addr::V6([10, 8, 0, 2, 0, 0, 0, 0, 0, 0, 0, 0, 0, 0, 0, 0]);
    is_same(&rt, four, four, true);
    is_same(&rt, four, other, false);
    is_same(&rt, four, six, false);
    is_same(&rt, six, six, true);
}

/// One read of a source into a buffer is answered so.
fn reads<S: Source>(rt: &impl Abort, source: &mut S, buffer: &mut [u8], answer: Got)
    requires { 0 < length buffer.old }
{
    let got = source.read(buffer);
    assert_eq!(rt; got, answer);
}

/// One read of a source in memory, and what is left of the text then, from this place on.
fn leaves(rt: &impl Abort, source: &mut MemorySource, buffer: &mut [u8], answer: Got, left: usize)
    requires room { 0 < length buffer.old }
    requires left { left ≤ 40 }
{
    reads(rt, source, buffer, answer);
    are(rt, source.left(), text_from(left));
}

#[test]
fn a_source_gives_pieces_and_fails_where_planned(rt: HostRuntime) {
    let failing = numbers(&rt, rt.alloc(), &[1, 3]);
    let mut source = MemorySource::new(octets(&rt, rt.alloc(), text()), 16, failing);
    let mut buffer = [0u8; 64];
    leaves(&rt, &mut source, &mut buffer, Got::Bytes(16), 16);
    leaves(&rt, &mut source, &mut buffer, Got::Failed, 16);
    leaves(&rt, &mut source, &mut buffer, Got::Bytes(16), 32);
    leaves(&rt, &mut source, &mut buffer, Got::Failed, 32);
    leaves(&rt, &mut source, &mut buffer, Got::Bytes(8), 40);
    leaves(&rt, &mut source, &mut buffer, Got::End, 40);
    leaves(&rt, &mut source, &mut buffer, Got::End, 40);
    are(&rt, &buffer[..8], text_from(32));
}

/// All bytes that a source gives in at most 64 reads, and the answer that ended the reading.
fn drained<S: Source>(alloc: Global, source: &mut S) -> Result<(Vec<u8>, Got), Memory> {
    let mut bytes = Vec::new(alloc);
    let mut buffer = [0u8; 64];
    for _read in 0..64 {
        match source.read(&mut buffer) {
            Got::Bytes(count) => bytes.extend_from_slice(&buffer[..count])?,
            end => return Ok((bytes, end)),
        }
    }
    Err(Memory)
}

/// A source gives these bytes, and its end or a fault.
fn gives<S: Source>(rt: &impl Abort, alloc: Global, source: &mut S, wanted: &[u8], end: Got) {
    let Ok((bytes, got)) = drained(alloc, source) else {
        panic!(rt; "no memory");
    };
    assert_eq!(rt; got, end);
    are(rt, bytes.as_slice(), wanted);
}

/// Writes a text: whether it went through.
fn writes<K: Sink>(rt: &impl Abort, sink: &mut K, text: &[u8], answer: Result<(), WriteFault>) {
    assert_eq!(rt; write_all(sink, text), answer);
}

/// One write of a piece is answered so.
fn puts<K: Sink>(rt: &impl Abort, sink: &mut K, piece: &[u8], answer: Took)
    requires { 0 < length piece.now }
{
    assert_eq!(rt; sink.write(piece), answer);
}

/// What a sink whose call with this number fails has taken of the text, up to a place.
fn takes(
    rt: &impl Abort,
    alloc: Global,
    failing: u64,
    answer: Result<(), WriteFault>,
    written: usize,
)
    requires { written ≤ 40 }
{
    let failing = numbers(rt, alloc, &[failing]);
    let mut sink = MemorySink::new(alloc, 16, failing);
    writes(rt, &mut sink, text(), answer);
    are(rt, sink.written(), text_to(written));
}

#[test]
fn a_sink_that_fails_has_taken_a_prefix(rt: HostRuntime) {
    takes(&rt, rt.alloc(), 0, Err(WriteFault), 0);
    takes(&rt, rt.alloc(), 1, Err(WriteFault), 16);
    takes(&rt, rt.alloc(), 2, Err(WriteFault), 32);
    takes(&rt, rt.alloc(), 3, Ok(()), 40);
}

#[test]
fn the_steady_ones_give_and_take_all(rt: HostRuntime) {
    let mut source = SteadySource::new(octets(&rt, rt.alloc(), text()), 7);
    gives(&rt, rt.alloc(), &mut source, text(), Got::End);
    assert!(rt; source.left().is_empty());
    let mut sink = SteadySink::new(7);
    puts(&rt, &mut sink, text(), Took::Bytes(7));
    writes(&rt, &mut sink, text(), Ok(()));
}

/// All that a source gives is written to a sink.
fn carries<S: Source, K: Sink>(rt: &impl Abort, alloc: Global, source: &mut S, sink: &mut K) {
    let Ok((bytes, end)) = drained(alloc, source) else {
        panic!(rt; "no memory");
    };
    assert_eq!(rt; end, Got::End);
    writes(rt, sink, bytes.as_slice(), Ok(()));
}

#[test]
fn a_reader_and_a_writer_of_std_carry_the_text(rt: HostRuntime) {
    let mut source = ReadSource::new(text());
    let mut written = Vec::new(rt.alloc());
    let mut sink = WriteSink::new(&mut written);
    carries(&rt, rt.alloc(), &mut source, &mut sink);
    are(&rt, written.as_slice(), text());
}

/// Reads and takes one byte a call, and then answers an error or that there was no room.
#[derive(Drop)]
struct Broken {
    calls: usize,
}

impl Read for Broken {
    fn read(&mut self, buf: &mut [u8]) -> io::Result<usize> {
        match self.calls {
            0 => Err(ErrorKind::Interrupted.into()),
            _ if buf.is_empty() => Ok(0),
            left => {
                self.calls = left - 1;
                buf[0] = b'x';
                Ok(1)
            }
        }
    }
}

impl Write for Broken {
    fn write(&mut self, buf: &[u8]) -> io::Result<usize> {
        match self.calls {
            0 => Ok(0),
            left => {
                self.calls = left - 1;
                Ok(buf.len().min(1))
            }
        }
    }

    fn flush(&mut self) -> io::Result<()> {
        Ok(())
    }
}

#[test]
fn an_error_of_std_is_a_fault_and_so_is_a_full_writer(rt: HostRuntime) {
    let mut source = ReadSource::new(Broken { calls: 2 });
    gives(&rt, rt.alloc(), &mut source, b"xx", Got::Failed);
    let mut sink = WriteSink::new(Broken { calls: 2 });
    writes(&rt, &mut sink, b"yy", Ok(()));
    puts(&rt, &mut sink, b"y", Took::Failed);
}

/// A reader and a writer whose first call fails and each later one goes through, and which counts what it
/// is asked. Its flush always fails.
#[derive(Drop)]
struct Flaky {
    error: ErrorKind,
    calls: u64,
    flushes: u64,
    /// The sum of the lengths of the buffers that it was given.
    asked: usize,
}

impl Flaky {
    fn new(error: ErrorKind) -> Flaky {
        Flaky {
            error,
            calls: 0,
            flushes: 0,
            asked: 0,
        }
    }

    /// Counts a call with a buffer of this length, and answers all of it but at the first call.
    fn count_call(&mut self, length: usize) -> io::Result<usize>
        ensures { IfOk result (λ n. n ≡ length) }
    {
        self.calls = self.calls.saturating_add(1);
        self.asked = self.asked.saturating_add(length);
        if self.calls == 1 {
            return Err(self.error.into());
        }
        Ok(length)
    }
}

impl Read for Flaky {
    fn read(&mut self, buf: &mut [u8]) -> io::Result<usize> {
        self.count_call(buf.len())
    }
}

impl Write for Flaky {
    fn write(&mut self, buf: &[u8]) -> io::Result<usize> {
        self.count_call(buf.len())
    }

    fn flush(&mut self) -> io::Result<()> {
        self.flushes = self.flushes.saturating_add(1);
        Err(self.error.into())
    }
}

/// Errors that a careless adapter would take for the end, or try again.
const ERRORS: [ErrorKind; 5] = [
    ErrorKind::Interrupted,
    ErrorKind::WouldBlock,
    ErrorKind::UnexpectedEof,
    ErrorKind::WriteZero,
    ErrorKind::Other,
];

/// A length above that of a page and of a piece of a script. Its clause keeps the number from the proofs.
fn long() -> usize
    ensures { (0 < result) × (result ≤ 1000000) }
{
    200_000
}

/// What a reader or a writer was asked: so many calls, so many bytes, and no flush.
fn asked(rt: &impl Abort, flaky: &Flaky, calls: u64, bytes: usize) {
    assert_eq!(rt; (flaky.calls, flaky.asked), (calls, bytes));
    assert_eq!(rt; flaky.flushes, 0);
}

/// The first read fails with an error and the second gives all, and each asks the reader once for the whole buffer.
fn reads_whole(rt: &impl Abort, buffer: &mut [u8], error: ErrorKind)
    requires some { 0 < length buffer.old }
    requires few { length buffer.old ≤ 1000000 }
{
    let length = buffer.len();
    let mut reader = Flaky::new(error);
    let mut source = ReadSource::new(&mut reader);
    reads(rt, &mut source, buffer, Got::Failed);
    reads(rt, &mut source, buffer, Got::Bytes(length));
    asked(rt, &reader, 2, 2 * length);
}

/// A long text of one byte.
fn long_text(rt: &impl Abort, alloc: Global, byte: u8) -> Vec<u8>
    ensures some { 0 < length result.items }
    ensures few { length result.items ≤ 1000000 }
{
    let Ok(text) = Vec::from_elem(alloc, byte, long()) else {
        panic!(rt; "no memory");
    };
    text
}

#[test]
fn each_read_asks_the_reader_once_for_the_whole_buffer(rt: HostRuntime) {
    let mut buffer = long_text(&rt, rt.alloc(), 0);
    for error in ERRORS {
        reads_whole(&rt, buffer.as_mut_slice(), error);
    }
}

/// The first write fails with an error and the later ones go through, and each asks the writer once for the whole piece.
fn writes_whole(rt: &impl Abort, text: &[u8], error: ErrorKind)
    requires some { 0 < length text.now }
    requires few { length text.now ≤ 1000000 }
{
    let length = text.len();
    let mut writer = Flaky::new(error);
    let mut sink = WriteSink::new(&mut writer);
    writes(rt, &mut sink, text, Err(WriteFault));
    puts(rt, &mut sink, text, Took::Bytes(length));
    writes(rt, &mut sink, b"x", Ok(()));
    asked(rt, &writer, 3, 2 * length + 1);
}

#[test]
fn each_write_asks_the_writer_once_for_the_whole_piece(rt: HostRuntime) {
    let text = long_text(&rt, rt.alloc(), b'x');
    for error in ERRORS {
        writes_whole(&rt, text.as_slice(), error);
    }
}
