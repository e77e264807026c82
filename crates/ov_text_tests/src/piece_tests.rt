use ov_base::{Addr, ListOf};
use ov_model::{Errno, Reply};
use ov_text::{
    append, append_address, append_closed, append_digits, append_number, append_reply,
    append_value, append_word, object_of, one, put_number, put_text, put_value,
};
use serde_json::{Map, Value};
use std::alloc::Global;
use std::process::Abort;
use std::test::Fail;

#[test]
fn pieces_follow_one_another(rt: HostRuntime) -> Result<(), Fail> {
    let mut page = Vec::new(rt.alloc());
    append(&mut page, b"{\"a\":\"")?;
    append_word(&mut page, b"b-", "c")?;
    append_number(&mut page, b"\",\"d\":", 18446744073709551615)?;
    append_closed(&mut page, b",\"e\":", 0, b"}")?;
    assert!(rt; page.as_slice() == br#"{"a":"b-c","d":18446744073709551615,"e":0}"#.as_slice());
    Ok(())
}

#[test]
fn digits_are_two_of_lower_case_a_byte(rt: HostRuntime) -> Result<(), Fail> {
    let mut page = Vec::new(rt.alloc());
    append_digits(&mut page, &[])?;
    assert!(rt; page.is_empty());
    // One byte more than a block of sixteen.
    append_digits(
        &mut page,
        &[
            0x01, 0x23, 0x45, 0x67, 0x89, 0xab, 0xcd, 0xef, 0xfe, 0xdc, 0xba, 0x98, 0x76, 0x54,
            0x32, 0x10, 0x0f,
        ],
    )?;
    assert!(rt; page.as_slice() == b"0123456789abcdeffedcba98765432100f".as_slice());
    Ok(())
}

#[test]
fn addresses_have_their_texts(rt: HostRuntime) -> Result<(), Fail> {
    let rows: [(Addr, &[u8]); 3] = [
        (Addr::V4([192, 0, 2, 1]), b"192.0.2.1"),
        (Addr::V4([255, 10, 0, 100]), b"255.10.0.100"),
        (
            Addr::V6([0xfd, 0, 0, 0, 0, 0, 0, 0, 0, 0, 0, 0, 0, 0, 0, 0xab]),
            b"fd0000000000000000000000000000ab",
        ),
    ];
    for (addr, text) in rows {
        let mut page = Vec::new(rt.alloc());
        append_address(&mut page, addr)?;
        assert!(rt; page.as_slice() == text);
    }
    Ok(())
}

#[test]
fn members_stand_in_ascending_order(rt: HostRuntime) -> Result<(), Fail> {
    let alloc = rt.alloc();
    let mut inner = Map::new(alloc);
    put_text(&mut inner, alloc, "word", "said")?;
    put_number(&mut inner, alloc, "number", 7)?;
    put_value(&mut inner, alloc, "flag", Value::Bool(true))?;
    let outer = one(alloc, "inner", object_of(inner))?;
    let mut page = Vec::new(alloc);
    append_value(alloc, &mut page, &outer)?;
    assert!(rt;
        page.as_slice() == br#"{"inner":{"flag":true,"number":7,"word":"said"}}"#.as_slice()
    );
    Ok(())
}

/// The list of these serials.
fn serials(rt: &impl Abort, alloc: Global, numbers: &[u32]) -> ListOf<u32> {
    let Ok(list) = Vec::from_slice(alloc, numbers) else {
        panic!(rt; "no memory");
    };
    ListOf::of_vec(list)
}

/// A reply has this text.
fn says(rt: &impl Abort, alloc: Global, reply: Reply, text: &str) {
    let mut page = Vec::new(alloc);
    let put = append_reply(&mut page, &reply);
    assert!(rt; put.is_ok() && page.as_slice() == text.as_bytes(), "{text}");
}

/// What a tick found has this text.
fn tick_says(rt: &impl Abort, alloc: Global, expired: &[u32], due: &[u32], text: &str) {
    let reply = Reply::Ticked {
        expired: serials(rt, alloc, expired),
        due: serials(rt, alloc, due),
    };
    says(rt, alloc, reply, text);
}

#[test]
fn replies_have_their_texts(rt: HostRuntime) {
    let alloc = rt.alloc();
    let none = serials(&rt, alloc, &[]);
    says(&rt, alloc, Reply::Removed(none), "{\"removed\":[]}");
    let two = serials(&rt, alloc, &[3, 4294967295]);
    says(
        &rt,
        alloc,
        Reply::Removed(two),
        "{\"removed\":[3,4294967295]}",
    );
    says(&rt, alloc, Reply::Made(0), "{\"serial\":0}");
    says(&rt, alloc, Reply::Refused(Errno::NoSpace), "{\"error\":28}");
    says(&rt, alloc, Reply::Skip, "{\"none\":\"skip\"}");
    tick_says(&rt, alloc, &[], &[], "{\"due\":[],\"expired\":[]}");
    tick_says(&rt, alloc, &[4], &[2, 0], "{\"due\":[2,0],\"expired\":[4]}");
}
