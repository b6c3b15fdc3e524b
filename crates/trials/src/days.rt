// A list of calls as records in one row of bytes, done from opening to the last answer.
use daybook::{Stopped, run_house};
use ledger::{Limits, Trouble};
use std::test::Fail;

const LIMITS: Limits = Limits {
    lots: 1,
    bidders: 1,
    each: 1,
};

// Records, each with its length in two bytes before it. A lot of 2 pieces until 10 is opened:
const OPEN: [u8; 11] = [9, 0, 0, 2, 0, 0, 0, 10, 0, 0, 0];

const OPENED: [u8; 11] = [9, 0, 1, 0, 0, 0, 0, 0, 0, 0, 0];

// it is told of:
const LOT: [u8; 7] = [5, 0, 6, 0, 0, 0, 0];

const TOLD: [u8; 19] = [17, 0, 2, 2, 0, 0, 0, 0, 0, 0, 0, 10, 0, 0, 0, 0, 0, 0, 0];

// there is no such call:
const UNKNOWN: [u8; 3] = [1, 0, 9];

const NO_CALL: [u8; 19] = [17, 0, 0, 1, 0, 0, 0, 0, 0, 0, 0, 0, 0, 0, 0, 0, 0, 0, 0];

// and one ends before its length is had.
const CUT_OFF: [u8; 4] = [5, 0, 6, 1];

const TOO_SHORT: [u8; 19] = [17, 0, 0, 1, 0, 0, 0, 0, 0, 0, 0, 2, 0, 0, 0, 0, 0, 0, 0];

#[test]
fn a_list_of_calls_is_answered_call_by_call(rt: HostRuntime) -> Result<(), Fail> {
    let heap = rt.alloc();
    let mut memory = vec![in heap; 7u32; 1000000]?;
    let mut requests = Vec::new(heap);
    requests.extend_from_slice(&OPEN)?;
    requests.extend_from_slice(&LOT)?;
    requests.extend_from_slice(&UNKNOWN)?;
    requests.extend_from_slice(&CUT_OFF)?;
    let mut expected = Vec::new(heap);
    expected.extend_from_slice(&OPENED)?;
    expected.extend_from_slice(&TOLD)?;
    expected.extend_from_slice(&NO_CALL)?;
    expected.extend_from_slice(&TOO_SHORT)?;
    let mut answers = Vec::new(heap);
    let done = run_house(
        LIMITS,
        memory.as_mut_slice(),
        requests.as_slice(),
        &mut answers,
    );
    assert!(rt; done == Ok(()));
    assert!(rt; answers.as_slice() == expected.as_slice());
    Ok(())
}

#[test]
fn no_house_is_run_in_too_little_memory(rt: HostRuntime) -> Result<(), Fail> {
    let mut memory = [7u32; 16];
    let mut answers = Vec::new(rt.alloc());
    let done = run_house(LIMITS, &mut memory, &[], &mut answers);
    assert!(rt; done == Err(Stopped::NoHouse(Trouble::ShortMemory)));
    assert!(rt; answers.is_empty());
    Ok(())
}
