use ov_base::{Boxed, ListOf, Memory, MemorySource, Octets, SteadySource};
use ov_model::netlink::NO_ATTRIBUTES;
use ov_model::{Deed, Line, NlMessage, NlOp, NlPeer};
use ov_script::{ReadStop, Reading, read_script};
use std::alloc::Global;
use std::test::Fail;

const NEW: &[u8] =
    br#"{"at":0,"do":"peer-new","lane":0,"peer":{"id":5,"remote-ipv4":"192.0.2.1","remote-port":1194,"vpn-ipv4":"10.8.0.5"}}"#;

const GET: &[u8] = br#"{"at":1,"do":"peer-get","lane":0,"peer":{"id":5}}"#;

/// A message that names its peer by the id alone.
fn named(alloc: Global, lane: u32, at: u32, op: NlOp, id: u32) -> Result<Line, Memory> {
    let peer = NlPeer {
        id: Some(id),
        ..NO_ATTRIBUTES
    };
    let message = NlMessage {
        op,
        ifindex: None,
        peer: Some(peer),
        keyconf: None,
    };
    Ok(Line {
        lane,
        at,
        deed: Deed::Netlink(Boxed::new(alloc, message)?),
    })
}

/// What reading the bytes in pieces of 16 gives.
fn reading_of(alloc: Global, bytes: &[u8]) -> Result<Reading, Memory> {
    let mut source = SteadySource::new(Octets::of(alloc, bytes)?, 16);
    Ok(read_script(alloc, &mut source, 1))
}

#[test]
fn a_script_is_its_lines_in_order(rt: HostRuntime) -> Result<(), Fail> {
    // The text, and how many lines it has.
    let rows: [(&[u8], usize); 4] = [
        (b"", 0),
        (
            b"{\"at\":1,\"do\":\"peer-get\",\"lane\":0,\"peer\":{\"id\":5}}",
            1,
        ),
        (
            b"{\"at\":1,\"do\":\"peer-get\",\"lane\":0,\"peer\":{\"id\":5}}\n",
            1,
        ),
        (
            b"{\"at\":1,\"do\":\"peer-get\",\"lane\":0,\"peer\":{\"id\":5}}\n{\"at\":1,\"do\":\"peer-get\",\"lane\":0,\"peer\":{\"id\":6}}",
            2,
        ),
    ];
    for (bytes, count) in rows {
        let reading = reading_of(rt.alloc(), bytes)?;
        assert_eq!(rt; reading.good, count as u64);
        let Ok(script) = reading.outcome else {
            panic!(rt; "no script of {count} lines");
        };
        assert_eq!(rt; script.lines.len(), count);
        if let Some(first) = script.lines.as_slice().first() {
            assert!(rt; *first == named(rt.alloc(), 0, 1, NlOp::PeerGet, 5)?);
        }
        if let Some(second) = script.lines.as_slice().get(1) {
            assert!(rt; *second == named(rt.alloc(), 0, 1, NlOp::PeerGet, 6)?);
        }
    }
    Ok(())
}

#[test]
fn the_first_bad_line_stops_a_script(rt: HostRuntime) -> Result<(), Fail> {
    let rows: [(&[u8], u64); 5] = [
        (b"\n", 1),
        (b"{", 1),
        (
            b"{\"at\":1,\"do\":\"peer-get\",\"lane\":0,\"peer\":{\"id\":5}}\n\n",
            2,
        ),
        (
            b"{\"at\":1,\"do\":\"peer-get\",\"lane\":0,\"peer\":{\"id\":5}}\n{",
            2,
        ),
        (
            b"{\"at\":1,\"do\":\"peer-get\",\"lane\":0,\"peer\":{\"id\":5}}\n{\n{",
            2,
        ),
    ];
    for (bytes, number) in rows {
        let reading = reading_of(rt.alloc(), bytes)?;
        assert!(rt;
            reading.outcome == Err(ReadStop::Bad(number)),
            "line {number}"
        );
        assert_eq!(rt; reading.good, number - 1);
    }
    Ok(())
}

#[test]
fn a_failed_read_stops_a_script_behind_its_bad_line(rt: HostRuntime) -> Result<(), Fail> {
    // The text, and what the second read's failure gives after 16 bytes.
    let rows: [(&[u8], ReadStop); 2] = [
        (
            b"{\"at\":1,\"do\":\"peer-get\",\"lane\":0,\"peer\":{\"id\":5}}\n",
            ReadStop::Read,
        ),
        (
            b"\n{\"at\":1,\"do\":\"peer-get\",\"lane\":0,\"peer\":{\"id\":5}}\n",
            ReadStop::Bad(1),
        ),
    ];
    for (bytes, stop) in rows {
        let mut failing = ListOf::new(rt.alloc());
        assert!(rt; failing.push(1).is_ok());
        let mut source = MemorySource::new(Octets::of(rt.alloc(), bytes)?, 16, failing);
        let reading = read_script(rt.alloc(), &mut source, 1);
        assert!(rt; reading.outcome == Err(stop));
        assert_eq!(rt; reading.good, 0);
    }
    Ok(())
}

#[test]
fn nothing_is_read_behind_a_bad_line(rt: HostRuntime) -> Result<(), Fail> {
    // The first piece has 16 bytes, and a bad line among them.
    let text = b"{}\n{\"at\":1,\"do\":\"peer-get\",\"lane\":0,\"peer\":{\"id\":5}}\n";
    let mut source = SteadySource::new(Octets::of(rt.alloc(), text)?, 16);
    let reading = read_script(rt.alloc(), &mut source, 1);
    assert!(rt; reading.outcome == Err(ReadStop::Bad(1)));
    assert_eq!(rt; source.left().len(), text.len() - 16);
    Ok(())
}
