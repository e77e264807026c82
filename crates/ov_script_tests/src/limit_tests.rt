ghost use Rattle.std.specs.Prelude.{◌≢◌, ◌<◌, length};
ghost use Rattle.ov_base.specs.Outside.{GotFits};

use ov_base::{Got, Memory, Octets, Source, SteadySource};
use ov_script::{Limit, ReadStop, Reading, read_script};
use std::alloc::Global;
use std::test::Fail;

const SEND: &[u8] = br#"{"at":0,"do":"tx","lane":0,"packet":""}"#;

const DUMP: &[u8] = br#"{"at":0,"do":"peer-dump","lane":0}"#;

const TICK: &[u8] = br#"{"at":0,"do":"tick","lane":0}"#;

const DOWN: &[u8] = br#"{"at":0,"do":"down","lane":0}"#;

/// Four lines that all peers answer, one of them without an end.
const MIX: &[u8] =
    b"{\"at\":0,\"do\":\"tick\",\"lane\":0}\n{\"at\":0,\"do\":\"peer-dump\",\"lane\":0}\n\
    {\"at\":0,\"do\":\"down\",\"lane\":0}\n{\"at\":0,\"do\":\"tick\",\"lane\":0}";

/// Gives one text again and again, a read each, and then another: so a long script isn't kept in memory.
#[derive(Drop)]
struct Again {
    text: Octets,
    times: u32,
    last: Option<Octets>,
}

impl Again {
    /// Copies the front of `text`, as far as it fits.
    fn give(text: &[u8], buf: &mut [u8]) -> Got
        requires { 0 < length buf.old }
        ensures fits { GotFits result buf.new }
        ensures whole { result ≢ Got.Failed }
    {
        let count = text.len().min(buf.len());
        if count == 0 {
            return Got::End;
        }
        buf[..count].copy_from_slice(&text[..count]);
        Got::Bytes(count)
    }
}

impl Source for Again {
    ghost use Rattle.std.specs.Prelude.{None};

    ghost left = { λ _. None };

    ghost faults = { λ _. 0 };

    fn read(&mut self, buf: &mut [u8]) -> Got {
        if self.times > 0 {
            self.times -= 1;
            return Again::give(self.text.as_slice(), buf);
        }
        match self.last.take() {
            Some(last) => Again::give(last.as_slice(), buf),
            None => Got::End,
        }
    }
}

/// A line with spaces behind it, up to `size` bytes, and then `end`.
fn padded(alloc: Global, line: &[u8], size: usize, end: &[u8]) -> Result<Octets, Memory> {
    let mut bytes = Vec::from_slice(alloc, line)?;
    for _ in line.len()..size {
        bytes.push(b' ')?;
    }
    bytes.extend_from_slice(end)?;
    Ok(Octets::of_vec(bytes))
}

/// What reading a text again and again gives, and then another.
fn many(alloc: Global, text: Octets, times: u32, last: &[u8]) -> Result<Reading, Memory> {
    let mut source = Again {
        text,
        times,
        last: Some(Octets::of(alloc, last)?),
    };
    Ok(read_script(alloc, &mut source, 1))
}

/// How a reading ended: the number of its lines, or why there are none.
fn lines_of(reading: &Reading) -> Result<usize, ReadStop> {
    match &reading.outcome {
        Ok(script) => Ok(script.lines.len()),
        Err(stop) => Err(*stop),
    }
}

#[test]
fn a_line_has_at_most_262144_bytes(rt: HostRuntime) -> Result<(), Fail> {
    // The bytes of the line, what follows it, the bytes of a piece, and the end.
    let rows: [(usize, &[u8], usize, Result<usize, ReadStop>); 6] = [
        (262_144, b"\n", 65_536, Ok(1)),
        (262_144, b"", 65_536, Ok(1)),
        (262_144, b"\n", 1_000, Ok(1)),
        (
            262_145,
            b"\n",
            65_536,
            Err(ReadStop::Limit(Limit::LineBytes)),
        ),
        (262_145, b"", 65_536, Err(ReadStop::Limit(Limit::LineBytes))),
        (
            262_145,
            b"\n",
            1_000,
            Err(ReadStop::Limit(Limit::LineBytes)),
        ),
    ];
    for (size, end, piece, expected) in rows {
        let text = padded(rt.alloc(), SEND, size, end)?;
        let mut source = SteadySource::new(text, piece);
        let reading = read_script(rt.alloc(), &mut source, 1);
        assert!(rt; lines_of(&reading) == expected, "{size} bytes");
    }
    Ok(())
}

#[test]
fn a_script_has_at_most_262144_lines(rt: HostRuntime) -> Result<(), Fail> {
    // What follows 262,144 lines, and the end. An end alone begins one more line, and that comes before
    // the line's own fault.
    let rows: [(&[u8], Result<usize, ReadStop>); 3] = [
        (b"", Ok(262_144)),
        (b"\n", Err(ReadStop::Limit(Limit::Lines))),
        (b"{", Err(ReadStop::Limit(Limit::Lines))),
    ];
    for (last, expected) in rows {
        let text = padded(rt.alloc(), SEND, SEND.len(), b"\n")?;
        let reading = many(rt.alloc(), text, 262_144, last)?;
        assert!(rt; lines_of(&reading) == expected);
        assert_eq!(rt; reading.good, 262_144);
    }
    Ok(())
}

#[test]
fn a_script_has_at_most_67108864_bytes(rt: HostRuntime) -> Result<(), Fail> {
    // What follows 262,144 lines of 256 bytes, which are the most lines and the most bytes at once, and the end.
    // One byte more is past both: the bytes come first.
    let rows: [(&[u8], Result<usize, ReadStop>); 2] = [
        (b"", Ok(262_144)),
        (b"\n", Err(ReadStop::Limit(Limit::Bytes))),
    ];
    for (last, expected) in rows {
        let mut line = Vec::from_slice(rt.alloc(), br#"{"at":0,"do":"tx","lane":0,"packet":""#)?;
        for _ in 0..216 {
            line.push(b'0')?;
        }
        line.extend_from_slice(b"\"}\n")?;
        assert_eq!(rt; line.len(), 256);
        let reading = many(rt.alloc(), Octets::of_vec(line), 262_144, last)?;
        assert!(rt; lines_of(&reading) == expected);
        assert_eq!(rt; reading.good, 262_144);
    }
    Ok(())
}

#[test]
fn a_script_has_at_most_1024_dumps_ticks_and_ends_of_the_device(
    rt: HostRuntime,
) -> Result<(), Fail> {
    const WIDE: Result<usize, ReadStop> = Err(ReadStop::Limit(Limit::Wide));
    // What is read again and again, how often, what follows, the end, and how many lines were found good.
    let rows: [(&[u8], u32, &[u8], Result<usize, ReadStop>, u64); 10] = [
        (DUMP, 1_024, b"", Ok(1_024), 1_024),
        (DUMP, 1_024, SEND, Ok(1_025), 1_025),
        (DUMP, 1_025, b"", WIDE, 1_024),
        (DUMP, 1_024, DUMP, WIDE, 1_024),
        (DUMP, 1_024, b"{\n", Err(ReadStop::Bad(1_025)), 1_024),
        // 5: of several kinds
        (MIX, 256, b"", Ok(1_024), 1_024),
        (MIX, 256, SEND, Ok(1_025), 1_025),
        (MIX, 256, TICK, WIDE, 1_024),
        (MIX, 256, DOWN, WIDE, 1_024),
        (MIX, 256, DUMP, WIDE, 1_024),
    ];
    for (number, (line, times, last, expected, good)) in rows.into_iter().enumerate() {
        let text = padded(rt.alloc(), line, line.len(), b"\n")?;
        let reading = many(rt.alloc(), text, times, last)?;
        assert!(rt; lines_of(&reading) == expected, "row {number}");
        assert_eq!(rt; reading.good, good);
    }
    Ok(())
}

#[test]
fn the_first_event_of_a_piece_stops_it(rt: HostRuntime) -> Result<(), Fail> {
    // In one piece: 1,024 dumps, and then a bad line and a dump, or the other way round.
    let mut bad_first = Vec::new(rt.alloc());
    let mut dump_first = Vec::new(rt.alloc());
    for _ in 0..1_024 {
        bad_first.extend_from_slice(DUMP)?;
        bad_first.push(b'\n')?;
        dump_first.extend_from_slice(DUMP)?;
        dump_first.push(b'\n')?;
    }
    bad_first.extend_from_slice(b"{}\n")?;
    bad_first.extend_from_slice(DUMP)?;
    dump_first.extend_from_slice(DUMP)?;
    dump_first.extend_from_slice(b"\n{}\n")?;
    let mut source = SteadySource::new(Octets::of_vec(bad_first), 65_536);
    let reading = read_script(rt.alloc(), &mut source, 1);
    assert!(rt; lines_of(&reading) == Err(ReadStop::Bad(1_025)));
    assert!(rt; reading.why.is_some());
    let mut source = SteadySource::new(Octets::of_vec(dump_first), 65_536);
    let reading = read_script(rt.alloc(), &mut source, 1);
    assert!(rt; lines_of(&reading) == Err(ReadStop::Limit(Limit::Wide)));
    assert!(rt; reading.why.is_none());
    Ok(())
}

#[test]
fn pieces_of_one_byte_are_lines_too(rt: HostRuntime) -> Result<(), Fail> {
    // Two lines, the second without an end, and three of which the second is bad.
    let rows: [(&[u8], Result<usize, ReadStop>); 2] = [
        (
            b"{\"at\":0,\"do\":\"peer-dump\",\"lane\":0}\n{\"at\":0,\"do\":\"peer-dump\",\"lane\":0}",
            Ok(2),
        ),
        (
            b"{\"at\":0,\"do\":\"peer-dump\",\"lane\":0}\n{\n{\"at\":0,\"do\":\"peer-dump\",\"lane\":0}",
            Err(ReadStop::Bad(2)),
        ),
    ];
    for (bytes, expected) in rows {
        let mut source = SteadySource::new(Octets::of(rt.alloc(), bytes)?, 1);
        let reading = read_script(rt.alloc(), &mut source, 1);
        assert!(rt; lines_of(&reading) == expected);
    }
    Ok(())
}
