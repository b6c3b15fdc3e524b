// Lots found in the order in which they close, against a sort: none, all, and many that close in one tick.
use crate::house::{house, takes};
use ledger::{Closing, Limits, closed_by_now, find_lot, find_place, next_closing};
use std::alloc::Global;
use std::process::Abort;
use std::test::Fail;

const LIMITS: Limits = Limits {
    lots: 64,
    bidders: 1,
    each: 1,
};

// Sixty-four lots, four of which close in each of sixteen ticks, sorted by when they close: the tick of each, and its number.
fn lots(rt: &impl Abort, heap: Global, memory: &mut [u32]) -> Result<Vec<(u32, u32)>, Fail> {
    let mut all = Vec::new(heap);
    for number in 0..64u32 {
        let until = 1 + (number * 37) % 16;
        let line = format!(in heap; "open 1 {until}")?;
        takes(rt, memory, line.as_bytes())?;
        all.push((until, number))?;
    }
    all.sort()?;
    Ok(all)
}

#[test]
fn lots_are_gone_through_as_they_close(rt: HostRuntime) -> Result<(), Fail> {
    let heap = rt.alloc();
    let mut memory = house(heap, LIMITS)?;
    assert!(rt; next_closing(memory.as_slice(), None).is_none(), "no lots");
    let sorted = lots(&rt, heap, memory.as_mut_slice())?;
    let mut at: Option<Closing> = None;
    for &(until, number) in sorted.iter() {
        let next = next_closing(memory.as_slice(), at).ok_or("a lot is missing")?;
        assert_eq!(rt; next.until, until);
        assert_eq!(rt; next.number, number);
        at = Some(next);
    }
    assert!(rt;
        next_closing(memory.as_slice(), at).is_none(),
        "all were found"
    );
    Ok(())
}

#[test]
fn lots_that_are_closed_by_now_are_counted(rt: HostRuntime) -> Result<(), Fail> {
    let heap = rt.alloc();
    let mut memory = house(heap, LIMITS)?;
    let _sorted = lots(&rt, heap, memory.as_mut_slice())?;
    assert_eq!(rt; closed_by_now(memory.as_slice()), 0);
    takes(&rt, memory.as_mut_slice(), b"ticks 1")?;
    assert_eq!(rt; closed_by_now(memory.as_slice()), 4);
    takes(&rt, memory.as_mut_slice(), b"ticks 14")?;
    assert_eq!(rt; closed_by_now(memory.as_slice()), 60);
    takes(&rt, memory.as_mut_slice(), b"ticks 1")?;
    assert_eq!(rt; closed_by_now(memory.as_slice()), 64);
    Ok(())
}

#[test]
fn a_lot_is_found_by_its_number(rt: HostRuntime) -> Result<(), Fail> {
    let heap = rt.alloc();
    let mut memory = house(heap, LIMITS)?;
    assert!(rt; find_lot(memory.as_slice(), 0).is_none());
    takes(&rt, memory.as_mut_slice(), b"open 3 9")?;
    let lot = find_lot(memory.as_slice(), 0).ok_or("no lot")?;
    assert_eq!(rt; lot.pieces, 3);
    assert_eq!(rt; lot.until, 9);
    assert_eq!(rt; find_place(memory.as_slice(), 0), Some(8));
    assert_eq!(rt; find_place(memory.as_slice(), 1), None);
    assert!(rt; find_lot(&[], 0).is_none(), "no house");
    Ok(())
}
