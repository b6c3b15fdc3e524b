// Calls as bytes: each call both ways, every cut-off beginning, one byte too many, unknown calls, and 0, 16 and 255 bids.
use crate::house::no_beginning_is_whole;
use bundles::{Bid, Bundle};
use std::alloc::Global;
use std::process::Abort;
use std::test::Fail;
use wire::{Bids, Call, InBytes, Kind, UnknownKind, read_call, write_call};

// The bytes of each call, the one with bids last.
const OPEN: [u8; 9] = [0, 2, 0, 0, 0, 10, 1, 0, 0];

const TICKS: [u8; 5] = [2, 0, 0, 1, 0];

const MY_BIDS: [u8; 9] = [3, 7, 0, 0, 0, 31, 0, 0, 0];

const RESULT: [u8; 9] = [4, 255, 255, 255, 255, 0, 0, 0, 0];

const BRINGS: [u8; 5] = [5, 4, 3, 2, 1];

const LOT: [u8; 5] = [6, 0, 0, 0, 0];

const BID: [u8; 22] = [
    1, 0, 0, 0, 0, 2, 0, 0, 0, 2, 3, 0, 130, 0, 0, 0, 1, 128, 0, 202, 154, 59,
];

// Writes the call and compares it with the bytes.
fn written(rt: &impl Abort, call: Call<'_>, bytes: &[u8]) -> Result<(), Fail> {
    let mut out = [7u8; 1540];
    let size = write_call(call, &mut out).ok_or("no room")?;
    assert_eq!(rt; size, bytes.len());
    assert!(rt; size <= 1540);
    assert!(rt; &out[0..size] == bytes);
    assert!(rt; size == 1540 || out[size] == 7, "what lies behind stays");
    Ok(())
}

// Reads the bytes and compares what is written of them.
fn both_ways(rt: &impl Abort, bytes: &[u8]) -> Result<(), Fail> {
    let call = read_call(bytes).map_err(|_| Fail::new("is no call"))?;
    written(rt, call, bytes)
}

// The place at which bytes cease to be a call.
fn place(bytes: &[u8]) -> Option<usize> {
    read_call(bytes).err()
}

// No beginning is a call, and one byte more is one too many.
fn only_whole(rt: &impl Abort, heap: Global, bytes: &[u8]) -> Result<(), Fail> {
    no_beginning_is_whole(rt, bytes, place);
    let mut longer = bytes.to_vec(heap)?;
    longer.push(0)?;
    assert_eq!(rt; place(longer.as_slice()), Some(bytes.len()));
    Ok(())
}

#[test]
fn each_call_is_its_bytes(rt: HostRuntime) -> Result<(), Fail> {
    written(
        &rt,
        Call::Open {
            pieces: 2,
            until: 266,
        },
        &OPEN,
    )?;
    written(&rt, Call::Ticks { ticks: 65536 }, &TICKS)?;
    written(&rt, Call::MyBids { lot: 7, bidder: 31 }, &MY_BIDS)?;
    written(
        &rt,
        Call::Result {
            lot: 4294967295,
            bidder: 0,
        },
        &RESULT,
    )?;
    written(&rt, Call::Brings { lot: 16909060 }, &BRINGS)?;
    written(&rt, Call::Lot { lot: 0 }, &LOT)?;
    written(
        &rt,
        Call::Bid {
            lot: 0,
            bidder: 2,
            bids: Bids {
                bytes: &BID[10..22],
            },
        },
        &BID,
    )
}

#[test]
fn each_call_is_read_as_it_was_written(rt: HostRuntime) -> Result<(), Fail> {
    both_ways(&rt, &OPEN)?;
    both_ways(&rt, &TICKS)?;
    both_ways(&rt, &MY_BIDS)?;
    both_ways(&rt, &RESULT)?;
    both_ways(&rt, &BRINGS)?;
    both_ways(&rt, &LOT)?;
    both_ways(&rt, &BID)
}

#[test]
fn no_cut_off_beginning_is_a_call(rt: HostRuntime) -> Result<(), Fail> {
    let heap = rt.alloc();
    only_whole(&rt, heap, &OPEN)?;
    only_whole(&rt, heap, &TICKS)?;
    only_whole(&rt, heap, &MY_BIDS)?;
    only_whole(&rt, heap, &RESULT)?;
    only_whole(&rt, heap, &BRINGS)?;
    only_whole(&rt, heap, &LOT)?;
    only_whole(&rt, heap, &BID)
}

#[test]
fn unknown_calls_cease_at_their_first_byte(rt: HostRuntime) {
    for kind in 7..=255u8 {
        assert_eq!(rt; place(&[kind]), Some(0));
        assert_eq!(rt; place(&[kind, 0, 0, 0, 0]), Some(0));
    }
    assert_eq!(rt; place(&[]), Some(0));
}

// A call with so many bids, bid i on the set i + 1 for the price 1000 + i: numbers that the bids are made of, so a loop over them.
fn with_bids(count: u8, bytes: &mut [u8; 1540]) {
    bytes[0] = 1;
    bytes[9] = count;
    for i in 0..count {
        let bid = Bid {
            on: Bundle {
                mask: u16::from(i) + 1,
            },
            price: 1000 + u32::from(i),
        };
        bid.write(bytes, 10 + 6 * usize::from(i));
    }
}

fn carries(rt: &impl Abort, count: u8) -> Result<(), Fail> {
    let mut bytes = [0u8; 1540];
    with_bids(count, &mut bytes);
    let size = 10 + 6 * usize::from(count);
    both_ways(rt, &bytes[0..size])?;
    let Ok(
        Call::Bid {
            lot: _,
            bidder: _,
            bids,
        },
    ) = read_call(&bytes[0..size])
    else {
        return Err(Fail::new("no bids"));
    };
    assert_eq!(rt; bids.len(), usize::from(count));
    assert!(rt; bids.get(usize::from(count)).is_none());
    // By place: it is `get` that is tried.
    for i in 0..count {
        let bid = bids.get(usize::from(i)).ok_or("a bid is missing")?;
        assert_eq!(rt; bid.on.mask, u16::from(i) + 1);
        assert_eq!(rt; bid.price, 1000 + u32::from(i));
    }
    Ok(())
}

#[test]
fn none_sixteen_and_255_bids_are_carried(rt: HostRuntime) -> Result<(), Fail> {
    carries(&rt, 0)?;
    carries(&rt, 16)?;
    carries(&rt, 255)
}

fn finds_no_room(rt: &impl Abort, call: Call<'_>) -> Result<(), Fail> {
    let mut out = [9u8; 4];
    assert!(rt; write_call(call, &mut out).is_none());
    assert!(rt; out == [9u8; 4], "nothing is written");
    Ok(())
}

#[test]
fn a_call_is_not_written_where_there_is_no_room(rt: HostRuntime) -> Result<(), Fail> {
    let call = read_call(&LOT).map_err(|_| Fail::new("no call"))?;
    finds_no_room(&rt, call)
}

#[test]
fn each_kind_is_its_number(rt: HostRuntime) {
    for number in 0..=6u8 {
        let kind = Kind::try_from(number);
        assert!(rt; kind.is_ok_and(|kind| u8::from(kind) == number));
    }
    assert!(rt; Kind::try_from(7) == Err(UnknownKind(7)));
}

#[test]
fn bids_are_gone_through_in_their_order(rt: HostRuntime) -> Result<(), Fail> {
    let mut bytes = [0u8; 1540];
    with_bids(3, &mut bytes);
    let bids = Bids {
        bytes: &bytes[10..28],
    };
    let mut prices = Vec::new(rt.alloc());
    for bid in bids.iter() {
        prices.push(bid.price)?;
    }
    assert!(rt; prices.as_slice() == [1000, 1001, 1002].as_slice());
    Ok(())
}
