// Bids in the place of others: long by short, short by long, by none; and no trace of what was there.
use crate::house::{asked, house, shown};
use ledger::Limits;
use std::alloc::Global;
use std::process::Abort;
use std::test::Fail;

const LIMITS: Limits = Limits {
    lots: 2,
    bidders: 2,
    each: 3,
};

// The line that the house answers a line by.
fn says(
    rt: &impl Abort,
    heap: Global,
    memory: &mut [u32],
    line: &[u8],
    text: &str,
) -> Result<(), Fail> {
    shown(rt, heap, asked(memory, line), text)
}

#[test]
fn the_last_bids_count(rt: HostRuntime) -> Result<(), Fail> {
    let heap = rt.alloc();
    let mut memory = house(heap, LIMITS)?;
    let m = memory.as_mut_slice();
    says(&rt, heap, m, b"open 3 9", "1 0")?;
    says(&rt, heap, m, b"open 2 9", "1 1")?;
    says(&rt, heap, m, b"bid 0 0: 0 5", "1 1")?;
    says(&rt, heap, m, b"bid 0 0: 012 30, 01 20, 2 10", "1 3")?;
    says(&rt, heap, m, b"my bids 0 0", "3 3: 012 30, 01 20, 2 10")?;
    says(&rt, heap, m, b"bid 0 0: 1 7", "1 1")?;
    says(&rt, heap, m, b"my bids 0 0", "3 1: 1 7")?;
    says(&rt, heap, m, b"my bids 0 1", "3 0:")?;
    says(&rt, heap, m, b"my bids 1 0", "3 0:")?;
    says(&rt, heap, m, b"bid 0 0:", "1 0")?;
    says(&rt, heap, m, b"my bids 0 0", "3 0:")
}

#[test]
fn bidding_again_leaves_no_trace(rt: HostRuntime) -> Result<(), Fail> {
    let heap = rt.alloc();
    let mut once = house(heap, LIMITS)?;
    let mut twice = house(heap, LIMITS)?;
    says(&rt, heap, once.as_mut_slice(), b"open 3 9", "1 0")?;
    says(&rt, heap, twice.as_mut_slice(), b"open 3 9", "1 0")?;
    says(
        &rt,
        heap,
        twice.as_mut_slice(),
        b"bid 0 1: 012 30, 01 20, 2 10",
        "1 3",
    )?;
    says(&rt, heap, twice.as_mut_slice(), b"bid 0 1: 1 7", "1 1")?;
    says(&rt, heap, once.as_mut_slice(), b"bid 0 1: 1 7", "1 1")?;
    assert!(rt; once.as_slice() == twice.as_slice());
    Ok(())
}
