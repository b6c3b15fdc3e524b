// Lines: each call from its line, blanks and digits of every kind, places, the most bids, and each answer as its line.
use crate::house::shown;
use bundles::{Bid, Bundle, Row};
use reading::{BidBuffer, is_silent, read_line};
use std::alloc::Global;
use std::process::Abort;
use std::test::Fail;
use wire::{Answer, Refusal, write_call};

// The line is the call that these bytes are.
fn reads(rt: &impl Abort, line: &[u8], bytes: &[u8]) -> Result<(), Fail> {
    let mut bids = BidBuffer::new();
    let call = read_line(line, &mut bids).map_err(|_| Fail::new("can't be read"))?;
    let mut out = [0u8; 1540];
    let size = write_call(call, &mut out).ok_or("no room")?;
    assert!(rt; size <= 1540);
    assert!(rt; &out[0..size] == bytes);
    Ok(())
}

// The place at which a line ceases to be a call.
fn place(line: &[u8]) -> Option<usize> {
    let mut bids = BidBuffer::new();
    read_line(line, &mut bids).err()
}

#[test]
fn each_call_is_read_from_its_line(rt: HostRuntime) -> Result<(), Fail> {
    reads(&rt, b"open 2 266", &[0, 2, 0, 0, 0, 10, 1, 0, 0])?;
    reads(
        &rt,
        b"bid 0 2: 01 130, f0 1000000000",
        &[
            1, 0, 0, 0, 0, 2, 0, 0, 0, 2, 3, 0, 130, 0, 0, 0, 1, 128, 0, 202, 154, 59,
        ],
    )?;
    reads(&rt, b"bid 0 2:", &[1, 0, 0, 0, 0, 2, 0, 0, 0, 0])?;
    reads(&rt, b"ticks 65536", &[2, 0, 0, 1, 0])?;
    reads(&rt, b"my bids 7 31", &[3, 7, 0, 0, 0, 31, 0, 0, 0])?;
    reads(
        &rt,
        b"result 4294967295 0",
        &[4, 255, 255, 255, 255, 0, 0, 0, 0],
    )?;
    reads(&rt, b"brings 16909060", &[5, 4, 3, 2, 1])?;
    reads(&rt, b"lot 0", &[6, 0, 0, 0, 0])
}

#[test]
fn blanks_stand_anywhere_between_words(rt: HostRuntime) -> Result<(), Fail> {
    reads(&rt, b" \t lot \t 0 \r", &[6, 0, 0, 0, 0])?;
    reads(&rt, b"my \t bids 7 31", &[3, 7, 0, 0, 0, 31, 0, 0, 0])?;
    reads(
        &rt,
        b"bid 0 2 : 10 130 ,\tf0 1000000000 ",
        &[
            1, 0, 0, 0, 0, 2, 0, 0, 0, 2, 3, 0, 130, 0, 0, 0, 1, 128, 0, 202, 154, 59,
        ],
    )?;
    reads(
        &rt,
        b"bid 0 2:1 1",
        &[1, 0, 0, 0, 0, 2, 0, 0, 0, 1, 2, 0, 1, 0, 0, 0],
    )
}

#[test]
fn all_sixteen_pieces_have_a_digit(rt: HostRuntime) -> Result<(), Fail> {
    reads(
        &rt,
        b"bid 0 0: 0123456789abcdef 1",
        &[1, 0, 0, 0, 0, 0, 0, 0, 0, 1, 255, 255, 1, 0, 0, 0],
    )?;
    reads(
        &rt,
        b"bid 0 0: fedcba9876543210 1",
        &[1, 0, 0, 0, 0, 0, 0, 0, 0, 1, 255, 255, 1, 0, 0, 0],
    )?;
    reads(
        &rt,
        b"bid 0 0: a 1",
        &[1, 0, 0, 0, 0, 0, 0, 0, 0, 1, 0, 4, 1, 0, 0, 0],
    )?;
    assert_eq!(rt; place(b"bid 0 0: g 1"), Some(9));
    assert_eq!(rt; place(b"bid 0 0: A 1"), Some(9));
    assert_eq!(rt; place(b"bid 0 0: aa 1"), Some(10), "a piece twice");
    Ok(())
}

#[test]
fn a_line_that_is_no_call_ceases_at_its_place(rt: HostRuntime) {
    assert_eq!(rt; place(b""), Some(0));
    assert_eq!(rt; place(b"b"), Some(1));
    assert_eq!(rt; place(b"br"), Some(2));
    assert_eq!(rt; place(b"brid"), Some(3));
    assert_eq!(rt; place(b"bids 0 0:"), Some(3));
    assert_eq!(rt; place(b"my bids0 0"), Some(7));
    assert_eq!(rt; place(b"lot"), Some(3));
    assert_eq!(rt; place(b"lot  "), Some(5));
    assert_eq!(rt; place(b"lot 4294967295"), None);
    assert_eq!(rt; place(b"lot 4294967296"), Some(13));
    assert_eq!(rt; place(b"lot 99999999999"), Some(13));
    assert_eq!(rt; place(b"lot 00000000000000000000"), None);
    assert_eq!(rt; place(b"lot +1"), Some(4));
    assert_eq!(rt; place(b"lot 1 \xff"), Some(6));
    assert_eq!(rt; place(b"bid 0 0"), Some(7));
    assert_eq!(rt; place(b"bid 0 0: 1"), Some(10));
    assert_eq!(rt; place(b"bid 0 0: 1 "), Some(11));
    assert_eq!(rt; place(b"bid 0 0: 1 1 1"), Some(13));
    assert_eq!(rt; place(b"bid 0 0: 1 1, "), Some(14));
}

// A line with so many bids.
fn with_bids(heap: Global, count: usize) -> Result<Vec<u8>, Fail> {
    let mut line = b"bid 0 0: 0 1".to_vec(heap)?;
    for _ in 1..count {
        line.extend_from_slice(b", 0 1")?;
    }
    Ok(line)
}

#[test]
fn a_line_carries_255_bids_and_not_one_more(rt: HostRuntime) -> Result<(), Fail> {
    let most = with_bids(rt.alloc(), 255)?;
    assert_eq!(rt; place(most.as_slice()), None);
    let more = with_bids(rt.alloc(), 256)?;
    assert_eq!(rt;
        place(more.as_slice()),
        Some(most.len()),
        "the comma behind the last"
    );
    Ok(())
}

#[test]
fn remarks_and_empty_lines_are_silent(rt: HostRuntime) {
    assert!(rt; is_silent(b""));
    assert!(rt; is_silent(b" \t\r"));
    assert!(rt; is_silent(b"# lot 0"));
    assert!(rt; is_silent(b"  # lot 0"));
    assert!(rt; !is_silent(b"lot 0 # a remark behind a call is none"));
    assert!(rt; !is_silent(b"x"));
}

#[test]
fn each_answer_is_its_line(rt: HostRuntime) -> Result<(), Fail> {
    let heap = rt.alloc();
    shown(
        &rt,
        heap,
        Answer::Refused {
            refusal: Refusal::NoSuchLot,
            place: 0,
        },
        "0 4 0",
    )?;
    shown(&rt, heap, Answer::Number(3), "1 3")?;
    shown(
        &rt,
        heap,
        Answer::Two(85, 18446744073709551615),
        "2 85 18446744073709551615",
    )?;
    let mut row = Row::new();
    shown(&rt, heap, Answer::Bids(row), "3 0:")?;
    assert!(rt;
        row.try_push(Bid {
            on: Bundle { mask: 3 },
            price: 130,
        })
        .is_ok()
    );
    shown(&rt, heap, Answer::Bids(row), "3 1: 01 130")?;
    assert!(rt;
        row.try_push(Bid {
            on: Bundle { mask: 64513 },
            price: 60,
        })
        .is_ok()
    );
    shown(&rt, heap, Answer::Bids(row), "3 2: 01 130, 0abcdef 60")
}
