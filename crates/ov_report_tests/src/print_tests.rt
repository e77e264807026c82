use ov_base::{Addr, Boxed, ListOf, Memory, Octets, Transport};
use ov_model::{
    Act, Answer, Attrs, Call, Cipher, Command, Counts, DropCause, Entry, Errno, HoldView,
    InnerKind, Keepalive, KeyBytes, KeyConf, KeyDir, KeyId, KeyView, Note, NoteBody, PeerId,
    PeerView, PingOut, PingOutcome, Place, Reason, ReplayEntry, Reply, SealedOut, Settled, Slot,
    Verdict,
};
use ov_report::{answer_line, entry_line, note_line, replay_line};
use std::alloc::Global;
use std::process::Abort;

/// An IPv4 packet without content from 10.8.0.5 to itself.
const PACKET: [u8; 20] = [
    0x45, 0, 0, 20, 0, 0, 0, 0, 64, 17, 0, 0, 10, 8, 0, 5, 10, 8, 0, 5,
];

/// These bytes.
fn octets(rt: &impl Abort, alloc: Global, bytes: &[u8]) -> Octets {
    let Ok(made) = Octets::of(alloc, bytes) else {
        panic!(rt; "no memory");
    };
    made
}

/// The list of these serials.
fn serials(rt: &impl Abort, alloc: Global, numbers: &[u32]) -> ListOf<u32> {
    let Ok(made) = Vec::from_slice(alloc, numbers) else {
        panic!(rt; "no memory");
    };
    ListOf::of_vec(made)
}

/// The list of a ping with each outcome, of the peers 1 to 3.
fn pings(rt: &impl Abort, alloc: Global) -> ListOf<PingOut> {
    let mut all = ListOf::new(alloc);
    let sealed = SealedOut {
        to: first_remote(),
        key: 8,
        id: 2,
        datagram: octets(rt, alloc, &[0x4a, 0, 0, 5, 0, 0, 0, 2, 0xff]),
    };
    let first = PingOut {
        peer: 1,
        outcome: PingOutcome::Sealed(sealed),
    };
    let second = PingOut {
        peer: 2,
        outcome: PingOutcome::Spent,
    };
    let third = PingOut {
        peer: 3,
        outcome: PingOutcome::Skip,
    };
    assert!(rt; all.push(first).is_ok());
    assert!(rt; all.push(second).is_ok());
    assert!(rt; all.push(third).is_ok());
    all
}

/// These bytes are this text.
fn are(rt: &impl Abort, bytes: &[u8], text: &str) {
    assert!(rt; bytes == text.as_bytes(), "{text}");
}

/// A line was made, and has this text.
fn is_line(rt: &impl Abort, made: Result<Octets, Memory>, text: &str) {
    let Ok(line) = made else {
        panic!(rt; "no memory");
    };
    are(rt, line.as_slice(), text);
}

/// The line of an answer to the line 3 of the lane 1 has this text.
fn has_text(rt: &impl Abort, alloc: Global, answer: Answer, text: &str) {
    is_line(rt, answer_line(alloc, 1, 3, &answer), text);
}

/// The line of a reply to the line 1 of the lane 0 has this text.
fn is_replied(rt: &impl Abort, alloc: Global, reply: Reply, text: &str) {
    is_line(rt, answer_line(alloc, 0, 1, &Answer::Reply(reply)), text);
}

/// The remote 192.0.2.1 with port 1194.
fn first_remote() -> Transport {
    Transport {
        addr: Addr::V4([192, 0, 2, 1]),
        port: 1194,
    }
}

#[test]
fn answers_have_their_texts(rt: HostRuntime) {
    let alloc = rt.alloc();
    let (Some(peer), Some(key_id)) = (PeerId::new(5), KeyId::new(2)) else {
        panic!(rt; "ids in range");
    };
    let four = first_remote();
    let six = Transport {
        addr: Addr::V6([0xfd, 0, 0, 0, 0, 0, 0, 0, 0, 0, 0, 0, 0, 0, 0, 0xab]),
        port: 65535,
    };
    let hold = HoldView {
        peer: 3,
        id: peer,
        key: 7,
        key_id,
        to: four,
    };
    let view = KeyView {
        peer,
        slot: Slot::Secondary,
        key_id,
        cipher: Cipher::AesGcm,
    };
    has_text(
        &rt,
        alloc,
        Answer::Reply(Reply::Made(0)),
        "{\"answer\":{\"serial\":0},\"lane\":1,\"line\":3}\n",
    );
    has_text(
        &rt,
        alloc,
        Answer::Reply(Reply::Done),
        "{\"answer\":{\"ok\":true},\"lane\":1,\"line\":3}\n",
    );
    has_text(
        &rt,
        alloc,
        Answer::Reply(Reply::Removed(serials(&rt, alloc, &[0]))),
        "{\"answer\":{\"removed\":[0]},\"lane\":1,\"line\":3}\n",
    );
    has_text(
        &rt,
        alloc,
        Answer::Reply(Reply::Hold(hold)),
        "{\"answer\":{\"hold\":{\"key\":7,\"peer\":3}},\"lane\":1,\"line\":3}\n",
    );
    has_text(
        &rt,
        alloc,
        Answer::Reply(Reply::NoPeer),
        "{\"answer\":{\"none\":\"no-peer\"},\"lane\":1,\"line\":3}\n",
    );
    has_text(
        &rt,
        alloc,
        Answer::Reply(Reply::NoKey),
        "{\"answer\":{\"none\":\"no-key\"},\"lane\":1,\"line\":3}\n",
    );
    has_text(
        &rt,
        alloc,
        Answer::Reply(Reply::Settled(Settled::Deliver)),
        "{\"answer\":{\"settled\":\"deliver\"},\"lane\":1,\"line\":3}\n",
    );
    has_text(
        &rt,
        alloc,
        Answer::Reply(Reply::Settled(Settled::Ping)),
        "{\"answer\":{\"settled\":\"ping\"},\"lane\":1,\"line\":3}\n",
    );
    has_text(
        &rt,
        alloc,
        Answer::Reply(Reply::Settled(Settled::NotIp)),
        "{\"answer\":{\"settled\":\"not-ip\"},\"lane\":1,\"line\":3}\n",
    );
    has_text(
        &rt,
        alloc,
        Answer::Reply(Reply::Settled(Settled::NotOwner)),
        "{\"answer\":{\"settled\":\"not-owner\"},\"lane\":1,\"line\":3}\n",
    );
    has_text(
        &rt,
        alloc,
        Answer::Reply(Reply::Key(view)),
        "{\"answer\":{\"key\":{\"cipher-alg\":\"aes-gcm\",\"key-id\":2,\"peer-id\":5,\"slot\":\"secondary\"}},\"lane\":1,\"line\":3}\n",
    );
    has_text(
        &rt,
        alloc,
        Answer::Reply(Reply::Killed),
        "{\"answer\":{\"spend\":\"killed\"},\"lane\":1,\"line\":3}\n",
    );
    has_text(
        &rt,
        alloc,
        Answer::Reply(Reply::AlreadyGone),
        "{\"answer\":{\"spend\":\"already-gone\"},\"lane\":1,\"line\":3}\n",
    );
    has_text(
        &rt,
        alloc,
        Answer::Reply(Reply::Released(0)),
        "{\"answer\":{\"released\":0},\"lane\":1,\"line\":3}\n",
    );
    has_text(
        &rt,
        alloc,
        Answer::Reply(Reply::KeyReleased(0)),
        "{\"answer\":{\"key-released\":0},\"lane\":1,\"line\":3}\n",
    );
    has_text(
        &rt,
        alloc,
        Answer::Reply(Reply::Refused(Errno::NoEntry)),
        "{\"answer\":{\"error\":2},\"lane\":1,\"line\":3}\n",
    );
    has_text(
        &rt,
        alloc,
        Answer::Reply(Reply::Refused(Errno::Exists)),
        "{\"answer\":{\"error\":17},\"lane\":1,\"line\":3}\n",
    );
    has_text(
        &rt,
        alloc,
        Answer::Reply(Reply::Refused(Errno::Invalid)),
        "{\"answer\":{\"error\":22},\"lane\":1,\"line\":3}\n",
    );
    has_text(
        &rt,
        alloc,
        Answer::Reply(Reply::Refused(Errno::NoSpace)),
        "{\"answer\":{\"error\":28},\"lane\":1,\"line\":3}\n",
    );
    has_text(
        &rt,
        alloc,
        Answer::Reply(Reply::Refused(Errno::NotSupported)),
        "{\"answer\":{\"error\":95},\"lane\":1,\"line\":3}\n",
    );
    has_text(
        &rt,
        alloc,
        Answer::Sealed(SealedOut {
            to: four,
            key: 0,
            id: 1,
            datagram: octets(&rt, alloc, &[0x4a, 0, 0, 5, 0, 0, 0, 1]),
        }),
        "{\"answer\":{\"sealed\":{\"datagram\":\"4a00000500000001\",\"id\":1,\"key\":0,\"to\":{\"addr\":\"192.0.2.1\",\"port\":1194}}},\"lane\":1,\"line\":3}\n",
    );
    has_text(
        &rt,
        alloc,
        Answer::Sealed(SealedOut {
            to: six,
            key: 4,
            id: 4294967295,
            datagram: octets(&rt, alloc, &[]),
        }),
        "{\"answer\":{\"sealed\":{\"datagram\":\"\",\"id\":4294967295,\"key\":4,\"to\":{\"addr\":\"fd0000000000000000000000000000ab\",\"port\":65535}}},\"lane\":1,\"line\":3}\n",
    );
    has_text(
        &rt,
        alloc,
        Answer::Delivered {
            peer,
            packet: octets(&rt, alloc, &PACKET),
        },
        "{\"answer\":{\"delivered\":{\"packet\":\"4500001400000000401100000a0800050a080005\",\"peer\":5}},\"lane\":1,\"line\":3}\n",
    );
    has_text(
        &rt,
        alloc,
        Answer::Keepalive(peer),
        "{\"answer\":{\"keepalive\":5},\"lane\":1,\"line\":3}\n",
    );
    has_text(
        &rt,
        alloc,
        Answer::Control,
        "{\"answer\":{\"passed\":\"control\"},\"lane\":1,\"line\":3}\n",
    );
    has_text(
        &rt,
        alloc,
        Answer::Dropped(DropCause::Short),
        "{\"answer\":{\"dropped\":\"short\"},\"lane\":1,\"line\":3}\n",
    );
    has_text(
        &rt,
        alloc,
        Answer::Dropped(DropCause::DataV1),
        "{\"answer\":{\"dropped\":\"data-v1\"},\"lane\":1,\"line\":3}\n",
    );
    has_text(
        &rt,
        alloc,
        Answer::Dropped(DropCause::NoPeer),
        "{\"answer\":{\"dropped\":\"no-peer\"},\"lane\":1,\"line\":3}\n",
    );
    has_text(
        &rt,
        alloc,
        Answer::Dropped(DropCause::NoKey),
        "{\"answer\":{\"dropped\":\"no-key\"},\"lane\":1,\"line\":3}\n",
    );
    has_text(
        &rt,
        alloc,
        Answer::Dropped(DropCause::BadTag),
        "{\"answer\":{\"dropped\":\"bad-tag\"},\"lane\":1,\"line\":3}\n",
    );
    has_text(
        &rt,
        alloc,
        Answer::Dropped(DropCause::Zero),
        "{\"answer\":{\"dropped\":\"zero\"},\"lane\":1,\"line\":3}\n",
    );
    has_text(
        &rt,
        alloc,
        Answer::Dropped(DropCause::Old),
        "{\"answer\":{\"dropped\":\"old\"},\"lane\":1,\"line\":3}\n",
    );
    has_text(
        &rt,
        alloc,
        Answer::Dropped(DropCause::Below),
        "{\"answer\":{\"dropped\":\"below\"},\"lane\":1,\"line\":3}\n",
    );
    has_text(
        &rt,
        alloc,
        Answer::Dropped(DropCause::Again),
        "{\"answer\":{\"dropped\":\"again\"},\"lane\":1,\"line\":3}\n",
    );
    has_text(
        &rt,
        alloc,
        Answer::Dropped(DropCause::NotIp),
        "{\"answer\":{\"dropped\":\"not-ip\"},\"lane\":1,\"line\":3}\n",
    );
    has_text(
        &rt,
        alloc,
        Answer::Dropped(DropCause::NotOwner),
        "{\"answer\":{\"dropped\":\"not-owner\"},\"lane\":1,\"line\":3}\n",
    );
    has_text(
        &rt,
        alloc,
        Answer::Dropped(DropCause::Spent),
        "{\"answer\":{\"dropped\":\"spent\"},\"lane\":1,\"line\":3}\n",
    );
    has_text(
        &rt,
        alloc,
        Answer::Ticked {
            expired: ListOf::new(alloc),
            pings: ListOf::new(alloc),
        },
        "{\"answer\":{\"expired\":[],\"pings\":[]},\"lane\":1,\"line\":3}\n",
    );
    has_text(
        &rt,
        alloc,
        Answer::Ticked {
            expired: serials(&rt, alloc, &[0, 4095]),
            pings: pings(&rt, alloc),
        },
        "{\"answer\":{\"expired\":[0,4095],\"pings\":[{\"outcome\":{\"sealed\":{\"datagram\":\"4a00000500000002ff\",\"id\":2,\"key\":8,\"to\":{\"addr\":\"192.0.2.1\",\"port\":1194}}},\"peer\":1},{\"outcome\":{\"dropped\":\"spent\"},\"peer\":2},{\"outcome\":{\"none\":\"skip\"},\"peer\":3}]},\"lane\":1,\"line\":3}\n",
    );
}

#[test]
fn entries_have_their_calls(rt: HostRuntime) {
    let (Some(peer), Some(key_id)) = (PeerId::new(5), KeyId::new(2)) else {
        panic!(rt; "ids in range");
    };
    let four = first_remote();
    let dir = KeyDir {
        key: KeyBytes::K16([0; 16]),
        tail: [0; 8],
    };
    let conf = KeyConf {
        peer,
        slot: Slot::Primary,
        key_id,
        encrypt: dir,
        decrypt: dir,
    };
    let attrs = Attrs {
        id: peer,
        remote: Some(four),
        vpn4: Some([10, 8, 0, 5]),
        vpn6: None,
        keepalive: None,
    };
    let rows = [
        (
            Act::Do(Command::PeerNew(attrs)),
            "{\"at\":0,\"call\":\"peer-new\",\"journal\":3,\"lane\":0,\"line\":2,\"reply\":{\"key-released\":0}}\n",
        ),
        (
            Act::Do(Command::PeerGet(peer)),
            "{\"at\":0,\"call\":\"peer-get\",\"journal\":3,\"lane\":0,\"line\":2,\"reply\":{\"key-released\":0}}\n",
        ),
        (
            Act::Do(Command::PeerSet(attrs)),
            "{\"at\":0,\"call\":\"peer-set\",\"journal\":3,\"lane\":0,\"line\":2,\"reply\":{\"key-released\":0}}\n",
        ),
        (
            Act::Do(Command::PeerDump),
            "{\"at\":0,\"call\":\"peer-dump\",\"journal\":3,\"lane\":0,\"line\":2,\"reply\":{\"key-released\":0}}\n",
        ),
        (
            Act::Do(Command::Remove(peer, Reason::Userspace)),
            "{\"at\":0,\"call\":\"remove\",\"journal\":3,\"lane\":0,\"line\":2,\"reply\":{\"key-released\":0}}\n",
        ),
        (
            Act::Do(Command::KeyNew(conf)),
            "{\"at\":0,\"call\":\"key-new\",\"journal\":3,\"lane\":0,\"line\":2,\"reply\":{\"key-released\":0}}\n",
        ),
        (
            Act::Do(Command::KeyGet(peer, Slot::Primary)),
            "{\"at\":0,\"call\":\"key-get\",\"journal\":3,\"lane\":0,\"line\":2,\"reply\":{\"key-released\":0}}\n",
        ),
        (
            Act::Do(Command::KeySwap(peer)),
            "{\"at\":0,\"call\":\"key-swap\",\"journal\":3,\"lane\":0,\"line\":2,\"reply\":{\"key-released\":0}}\n",
        ),
        (
            Act::Do(Command::KeyDel(peer, Slot::Secondary)),
            "{\"at\":0,\"call\":\"key-del\",\"journal\":3,\"lane\":0,\"line\":2,\"reply\":{\"key-released\":0}}\n",
        ),
        (
            Act::Do(Command::Tick),
            "{\"at\":0,\"call\":\"tick\",\"journal\":3,\"lane\":0,\"line\":2,\"reply\":{\"key-released\":0}}\n",
        ),
        (
            Act::Do(Command::Down),
            "{\"at\":0,\"call\":\"down\",\"journal\":3,\"lane\":0,\"line\":2,\"reply\":{\"key-released\":0}}\n",
        ),
        (
            Act::KeepLook(7),
            "{\"at\":0,\"call\":\"keep-look\",\"journal\":3,\"lane\":0,\"line\":2,\"reply\":{\"key-released\":0}}\n",
        ),
        (
            Act::Sent {
                peer: 7,
                inner: 16,
                outer: 40,
                ping: true,
            },
            "{\"at\":0,\"call\":\"sent\",\"journal\":3,\"lane\":0,\"line\":2,\"reply\":{\"key-released\":0}}\n",
        ),
        (
            Act::Settle {
                peer: 7,
                from: Some(four),
                kind: InnerKind::From(Addr::V4([10, 8, 0, 5])),
                inner: 20,
                outer: 44,
            },
            "{\"at\":0,\"call\":\"settle\",\"journal\":3,\"lane\":0,\"line\":2,\"reply\":{\"key-released\":0}}\n",
        ),
        (
            Act::TxLook(Addr::V4([10, 8, 0, 5])),
            "{\"at\":0,\"call\":\"tx-look\",\"journal\":3,\"lane\":0,\"line\":2,\"reply\":{\"key-released\":0}}\n",
        ),
        (
            Act::RxLook {
                id: peer,
                key_id,
                from: four,
            },
            "{\"at\":0,\"call\":\"rx-look\",\"journal\":3,\"lane\":0,\"line\":2,\"reply\":{\"key-released\":0}}\n",
        ),
        (
            Act::Sent {
                peer: 0,
                inner: 20,
                outer: 44,
                ping: false,
            },
            "{\"at\":0,\"call\":\"sent\",\"journal\":3,\"lane\":0,\"line\":2,\"reply\":{\"key-released\":0}}\n",
        ),
        (
            Act::Settle {
                peer: 0,
                from: None,
                kind: InnerKind::Ping,
                inner: 16,
                outer: 40,
            },
            "{\"at\":0,\"call\":\"settle\",\"journal\":3,\"lane\":0,\"line\":2,\"reply\":{\"key-released\":0}}\n",
        ),
        (
            Act::Spend { peer: 0, key: 0 },
            "{\"at\":0,\"call\":\"spend\",\"journal\":3,\"lane\":0,\"line\":2,\"reply\":{\"key-released\":0}}\n",
        ),
        (
            Act::Released(0),
            "{\"at\":0,\"call\":\"released\",\"journal\":3,\"lane\":0,\"line\":2,\"reply\":{\"key-released\":0}}\n",
        ),
        (
            Act::KeyReleased(0),
            "{\"at\":0,\"call\":\"key-released\",\"journal\":3,\"lane\":0,\"line\":2,\"reply\":{\"key-released\":0}}\n",
        ),
    ];
    for (act, text) in &rows {
        let entry = Entry {
            place: Place { lane: 0, line: 2 },
            call: Call { at: 0, act: *act },
            reply: Reply::KeyReleased(0),
        };
        is_line(&rt, entry_line(rt.alloc(), 3, &entry), *text);
    }
}

#[test]
fn a_shown_peer_has_its_fourteen_names(rt: HostRuntime) {
    let Some(id) = PeerId::new(5) else {
        panic!(rt; "an id in range");
    };
    let view = PeerView {
        id,
        remote: first_remote(),
        vpn4: Some([10, 8, 0, 5]),
        vpn6: None,
        keepalive: Keepalive {
            interval: 0,
            timeout: 0,
        },
        counts: Counts {
            vpn_rx_bytes: 0,
            vpn_rx_packets: 0,
            vpn_tx_bytes: 0,
            vpn_tx_packets: 0,
            link_rx_bytes: 0,
            link_rx_packets: 0,
            link_tx_bytes: 0,
            link_tx_packets: 0,
        },
    };
    let Ok(boxed) = Boxed::new(rt.alloc(), view) else {
        panic!(rt; "no memory");
    };
    let text =
        "{\"answer\":{\"peer\":{\"id\":5,\"keepalive-interval\":0,\"keepalive-timeout\":0,\"link-rx-bytes\":0,\"link-rx-packets\":0,\"link-tx-bytes\":0,\"link-tx-packets\":0,\"remote-ipv4\":\"192.0.2.1\",\"remote-port\":1194,\"vpn-ipv4\":\"10.8.0.5\",\"vpn-rx-bytes\":0,\"vpn-rx-packets\":0,\"vpn-tx-bytes\":0,\"vpn-tx-packets\":0}},\"lane\":0,\"line\":1}\n";
    is_replied(&rt, rt.alloc(), Reply::Peer(boxed), text);
}

/// A peer with this id whose numbers are all different.
fn view_of(id: PeerId) -> PeerView {
    PeerView {
        id,
        remote: Transport {
            addr: Addr::V6([0xfd, 0, 0, 0, 0, 0, 0, 0, 0, 0, 0, 0, 0, 0, 0, 0xab]),
            port: 65535,
        },
        vpn4: None,
        vpn6: None,
        keepalive: Keepalive {
            interval: 10,
            timeout: 60,
        },
        counts: Counts {
            vpn_rx_bytes: 105,
            vpn_rx_packets: 6,
            vpn_tx_bytes: 107,
            vpn_tx_packets: 8,
            link_rx_bytes: 101,
            link_rx_packets: 2,
            link_tx_bytes: 103,
            link_tx_packets: 18446744073709551615,
        },
    }
}

/// The list of these peers.
fn views(rt: &impl Abort, alloc: Global, shown: &[PeerView]) -> ListOf<PeerView> {
    let Ok(made) = Vec::from_slice(alloc, shown) else {
        panic!(rt; "no memory");
    };
    ListOf::of_vec(made)
}

#[test]
fn a_dump_has_the_views_between_commas(rt: HostRuntime) {
    let (Some(five), Some(six)) = (PeerId::new(5), PeerId::new(16777215)) else {
        panic!(rt; "ids in range");
    };
    let mut first = view_of(five);
    first.vpn4 = Some([10, 8, 0, 255]);
    first.vpn6 = Some([0xfd, 0, 0, 0, 0, 0, 0, 0, 0, 0, 0, 0, 0, 0, 0, 5]);
    let mut second = view_of(six);
    second.remote = first_remote();
    second.vpn6 = Some([0xfd, 0, 0, 0, 0, 0, 0, 0, 0, 0, 0, 0, 0, 0, 0, 6]);
    let texts = [
        "{\"answer\":{\"peers\":[]},\"lane\":0,\"line\":1}\n",
        "{\"answer\":{\"peers\":[{\"id\":5,\"keepalive-interval\":10,\"keepalive-timeout\":60,\"link-rx-bytes\":101,\"link-rx-packets\":2,\"link-tx-bytes\":103,\"link-tx-packets\":18446744073709551615,\"remote-ipv6\":\"fd0000000000000000000000000000ab\",\"remote-port\":65535,\"vpn-ipv4\":\"10.8.0.255\",\"vpn-ipv6\":\"fd000000000000000000000000000005\",\"vpn-rx-bytes\":105,\"vpn-rx-packets\":6,\"vpn-tx-bytes\":107,\"vpn-tx-packets\":8}]},\"lane\":0,\"line\":1}\n",
        "{\"answer\":{\"peers\":[{\"id\":5,\"keepalive-interval\":10,\"keepalive-timeout\":60,\"link-rx-bytes\":101,\"link-rx-packets\":2,\"link-tx-bytes\":103,\"link-tx-packets\":18446744073709551615,\"remote-ipv6\":\"fd0000000000000000000000000000ab\",\"remote-port\":65535,\"vpn-ipv4\":\"10.8.0.255\",\"vpn-ipv6\":\"fd000000000000000000000000000005\",\"vpn-rx-bytes\":105,\"vpn-rx-packets\":6,\"vpn-tx-bytes\":107,\"vpn-tx-packets\":8},{\"id\":16777215,\"keepalive-interval\":10,\"keepalive-timeout\":60,\"link-rx-bytes\":101,\"link-rx-packets\":2,\"link-tx-bytes\":103,\"link-tx-packets\":18446744073709551615,\"remote-ipv4\":\"192.0.2.1\",\"remote-port\":1194,\"vpn-ipv6\":\"fd000000000000000000000000000006\",\"vpn-rx-bytes\":105,\"vpn-rx-packets\":6,\"vpn-tx-bytes\":107,\"vpn-tx-packets\":8}]},\"lane\":0,\"line\":1}\n",
    ];
    let shown = [first, second];
    for (count, text) in texts.iter().enumerate() {
        let peers = views(&rt, rt.alloc(), &shown[..count]);
        is_replied(&rt, rt.alloc(), Reply::Peers(peers), *text);
    }
}

#[test]
fn replay_steps_have_their_texts(rt: HostRuntime) {
    let rows = [
        (
            Verdict::Accept,
            "{\"at\":29,\"id\":4294967295,\"key\":9,\"lane\":1,\"line\":2,\"moment\":59,\"shard\":1,\"verdict\":\"accept\"}\n",
        ),
        (
            Verdict::Zero,
            "{\"at\":29,\"id\":4294967295,\"key\":9,\"lane\":1,\"line\":2,\"moment\":59,\"shard\":1,\"verdict\":\"zero\"}\n",
        ),
        (
            Verdict::Old,
            "{\"at\":29,\"id\":4294967295,\"key\":9,\"lane\":1,\"line\":2,\"moment\":59,\"shard\":1,\"verdict\":\"old\"}\n",
        ),
        (
            Verdict::Below,
            "{\"at\":29,\"id\":4294967295,\"key\":9,\"lane\":1,\"line\":2,\"moment\":59,\"shard\":1,\"verdict\":\"below\"}\n",
        ),
        (
            Verdict::Again,
            "{\"at\":29,\"id\":4294967295,\"key\":9,\"lane\":1,\"line\":2,\"moment\":59,\"shard\":1,\"verdict\":\"again\"}\n",
        ),
    ];
    for (verdict, text) in &rows {
        let entry = ReplayEntry {
            place: Place { lane: 1, line: 2 },
            key: 9,
            id: 4294967295,
            at: 29,
            moment: 59,
            verdict: *verdict,
        };
        is_line(&rt, replay_line(rt.alloc(), 1, &entry), *text);
    }
}

#[test]
fn notes_have_their_texts(rt: HostRuntime) {
    let (Some(id), Some(key_id)) = (PeerId::new(5), KeyId::new(2)) else {
        panic!(rt; "ids in range");
    };
    let rows = [
        (
            Note {
                entry: 2,
                body: NoteBody::PeerDel {
                    id,
                    reason: Reason::Userspace,
                },
            },
            "{\"journal\":2,\"notify\":\"peer-del-ntf\",\"peer\":{\"del-reason\":\"userspace\",\"id\":5}}\n",
        ),
        (
            Note {
                entry: 0,
                body: NoteBody::PeerDel {
                    id,
                    reason: Reason::Expired,
                },
            },
            "{\"journal\":0,\"notify\":\"peer-del-ntf\",\"peer\":{\"del-reason\":\"expired\",\"id\":5}}\n",
        ),
        (
            Note {
                entry: 7,
                body: NoteBody::PeerDel {
                    id,
                    reason: Reason::Teardown,
                },
            },
            "{\"journal\":7,\"notify\":\"peer-del-ntf\",\"peer\":{\"del-reason\":\"teardown\",\"id\":5}}\n",
        ),
        (
            Note {
                entry: 5,
                body: NoteBody::KeySwap { id, key_id },
            },
            "{\"journal\":5,\"keyconf\":{\"key-id\":2,\"peer-id\":5},\"notify\":\"key-swap-ntf\"}\n",
        ),
    ];
    for (note, text) in &rows {
        is_line(&rt, note_line(rt.alloc(), note), *text);
    }
}
