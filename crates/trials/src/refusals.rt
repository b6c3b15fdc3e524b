// Refusals: each alone, each with its neighbour in the list (the first is given), and each bound at its edge.
use crate::house::{asked, house, takes};
use ledger::Limits;
use std::alloc::Global;
use std::process::Abort;
use std::test::Fail;
use wire::Answer;

// A new house for so many lots, bidders and bids of each.
fn house_for(heap: Global, lots: u32, bidders: u32, each: u32) -> Result<Vec<u32>, Fail> {
    house(
        heap,
        Limits {
            lots,
            bidders,
            each,
        },
    )
}

// By its number and its place, as the list of refusals has them.
fn refuses(
    rt: &impl Abort,
    memory: &mut [u32],
    line: &[u8],
    number: u64,
    place: u64,
) -> Result<(), Fail> {
    match asked(memory, line) {
        Answer::Refused { refusal, place: at } => {
            assert_eq!(rt; u64::from(refusal), number);
            assert_eq!(rt; at, place);
            Ok(())
        }
        _ => Err(Fail::new("was taken")),
    }
}

#[test]
fn each_refusal_alone(rt: HostRuntime) -> Result<(), Fail> {
    let mut memory = house_for(rt.alloc(), 1, 2, 1)?;
    let m = memory.as_mut_slice();
    refuses(&rt, m, b"lox", 1, 2)?;
    refuses(&rt, m, b"open 0 5", 2, 0)?;
    refuses(&rt, m, b"lot 0", 4, 0)?;
    refuses(&rt, m, b"open 1 0", 7, 1)?;
    takes(&rt, m, b"open 2 5")?;
    refuses(&rt, m, b"open 1 5", 8, 0)?;
    refuses(&rt, m, b"bid 0 0: 2 5", 6, 2)?;
    takes(&rt, m, b"ticks 5")?;
    refuses(&rt, m, b"bid 0 0: 1 5", 5, 0)?;
    refuses(&rt, m, b"result 0 0", 2, 0)?;
    refuses(&rt, m, b"brings 0", 2, 0)
}

#[test]
fn memory_that_is_no_house_refuses_by_three(rt: HostRuntime) -> Result<(), Fail> {
    let mut memory = [0u32; 8];
    refuses(&rt, &mut memory, b"lot 0", 3, 0)?;
    refuses(&rt, &mut memory, b"lox", 3, 0)?;
    refuses(&rt, &mut memory, b"open 0 5", 3, 0)
}

#[test]
fn of_two_refusals_the_first(rt: HostRuntime) -> Result<(), Fail> {
    let mut memory = house_for(rt.alloc(), 1, 2, 1)?;
    let m = memory.as_mut_slice();
    // unreadable, and no pieces
    refuses(&rt, m, b"open 0 x", 1, 7)?;
    // no such bidder, and no such lot
    refuses(&rt, m, b"bid 9 2: 0 1", 2, 0)?;
    refuses(&rt, m, b"my bids 9 2", 2, 0)?;
    takes(&rt, m, b"open 2 5")?;
    takes(&rt, m, b"ticks 5")?;
    // no such lot, and late
    refuses(&rt, m, b"bid 9 0: 0 1", 4, 0)?;
    // closed, and a piece that it does not have
    refuses(&rt, m, b"bid 0 0: 2 1", 5, 0)?;
    // no price, closed, and that piece
    refuses(&rt, m, b"bid 0 0: 2 0", 2, 0)?;
    // not later, and no room
    refuses(&rt, m, b"open 1 5", 7, 1)?;
    // too many pieces, and not later
    refuses(&rt, m, b"open 17 5", 2, 0)
}

#[test]
fn fields_at_their_edges(rt: HostRuntime) -> Result<(), Fail> {
    let mut memory = house_for(rt.alloc(), 3, 2, 2)?;
    let m = memory.as_mut_slice();
    refuses(&rt, m, b"open 17 9", 2, 0)?;
    refuses(&rt, m, b"open 1 16777216", 2, 0)?;
    takes(&rt, m, b"open 16 16777215")?;
    takes(&rt, m, b"open 1 1")?;
    takes(&rt, m, b"bid 0 1: f 1, 0 1000000000")?;
    refuses(&rt, m, b"bid 0 2: f 1", 2, 0)?;
    refuses(&rt, m, b"bid 0 1: 0 1, 1 1, 2 1", 2, 0)?;
    refuses(&rt, m, b"bid 0 1: f 0", 2, 0)?;
    refuses(&rt, m, b"bid 0 1: f 1000000001", 2, 0)?;
    takes(&rt, m, b"bid 1 1: 0 1")?;
    refuses(&rt, m, b"bid 1 1: 1 1", 6, 2)?;
    takes(&rt, m, b"my bids 1 1")?;
    refuses(&rt, m, b"my bids 1 2", 2, 0)?;
    refuses(&rt, m, b"ticks 0", 2, 0)?;
    refuses(&rt, m, b"ticks 65537", 2, 0)
}

#[test]
fn a_lot_closes_in_its_tick(rt: HostRuntime) -> Result<(), Fail> {
    let mut memory = house_for(rt.alloc(), 1, 1, 1)?;
    let m = memory.as_mut_slice();
    takes(&rt, m, b"open 1 3")?;
    takes(&rt, m, b"ticks 2")?;
    takes(&rt, m, b"bid 0 0: 0 1")?;
    takes(&rt, m, b"ticks 1")?;
    refuses(&rt, m, b"bid 0 0: 0 1", 5, 0)?;
    takes(&rt, m, b"my bids 0 0")
}

#[test]
fn time_ends_below_2_to_the_24(rt: HostRuntime) -> Result<(), Fail> {
    let mut memory = house_for(rt.alloc(), 1, 1, 1)?;
    let m = memory.as_mut_slice();
    for _ in 0..255 {
        takes(&rt, m, b"ticks 65536")?;
    }
    refuses(&rt, m, b"ticks 65536", 8, 0)?;
    takes(&rt, m, b"ticks 65535")?;
    refuses(&rt, m, b"ticks 1", 8, 0)
}

#[test]
fn a_refused_call_changes_no_word(rt: HostRuntime) -> Result<(), Fail> {
    let mut memory = house_for(rt.alloc(), 1, 1, 2)?;
    let m = memory.as_mut_slice();
    takes(&rt, m, b"open 2 5")?;
    takes(&rt, m, b"bid 0 0: 0 5, 1 6")?;
    let before = m.to_vec(rt.alloc())?;
    refuses(&rt, m, b"bid 0 0: 0 7, 1 0", 2, 0)?;
    refuses(&rt, m, b"bid 0 0: 0 7, 2 8", 6, 2)?;
    refuses(&rt, m, b"open 1 9", 8, 0)?;
    assert!(rt; memory.as_slice() == before.as_slice());
    Ok(())
}
