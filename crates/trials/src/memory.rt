// The lent memory: the smallest and the largest house, in memory that is a word short, just right, and longer.
use ledger::{Limits, Trouble, open, stands, words_needed};
use std::alloc::Global;
use std::process::Abort;
use std::test::Fail;

// Are all words this?
fn all_are(words: &[u32], word: u32) -> bool {
    words.iter().all(|w| *w == word)
}

// One word short: nothing changes. Just right and longer: a new house, and what lies behind stays.
fn opens(rt: &impl Abort, heap: Global, limits: Limits, expected: usize) -> Result<(), Fail> {
    assert_eq!(rt; words_needed(limits), Some(expected));
    assert!(rt; expected > 8 && expected < 10000000);
    let mut memory = vec![in heap; 7u32; expected + 3]?;
    let words = memory.as_mut_slice();
    assert!(rt; words.len() == expected + 3);
    assert!(rt; open(limits, &mut words[0..expected - 1]) == Err(Trouble::ShortMemory));
    assert!(rt; all_are(words, 7), "nothing is changed");
    assert!(rt; open(limits, &mut words[0..expected]).is_ok());
    assert!(rt; all_are(&words[3..expected], 0));
    assert!(rt; open(limits, words).is_ok());
    assert!(rt;
        all_are(&words[expected..expected + 3], 7),
        "what lies behind stays"
    );
    let header = stands(words).ok_or("no house")?;
    assert!(rt; header.limits == limits);
    assert_eq!(rt; header.now, 0);
    assert_eq!(rt; header.count, 0);
    Ok(())
}

#[test]
fn the_smallest_house_opens(rt: HostRuntime) -> Result<(), Fail> {
    opens(
        &rt,
        rt.alloc(),
        Limits {
            lots: 0,
            bidders: 1,
            each: 0,
        },
        655360,
    )
}

#[test]
fn the_largest_house_opens(rt: HostRuntime) -> Result<(), Fail> {
    opens(
        &rt,
        rt.alloc(),
        Limits {
            lots: 4096,
            bidders: 32,
            each: 16,
        },
        8945664,
    )
}

fn are_bad(rt: &impl Abort, limits: Limits) {
    let mut memory = [7u32; 16];
    assert!(rt; words_needed(limits).is_none());
    assert!(rt; open(limits, &mut memory) == Err(Trouble::BadLimits));
    assert!(rt; all_are(&memory, 7));
}

#[test]
fn limits_out_of_range_open_nothing(rt: HostRuntime) {
    are_bad(
        &rt,
        Limits {
            lots: 4097,
            bidders: 1,
            each: 1,
        },
    );
    are_bad(
        &rt,
        Limits {
            lots: 1,
            bidders: 0,
            each: 1,
        },
    );
    are_bad(
        &rt,
        Limits {
            lots: 1,
            bidders: 33,
            each: 1,
        },
    );
    are_bad(
        &rt,
        Limits {
            lots: 1,
            bidders: 1,
            each: 17,
        },
    );
}

#[test]
fn memory_that_is_no_house_does_not_stand(rt: HostRuntime) {
    assert!(rt; stands(&[]).is_none());
    assert!(rt; stands(&[1, 1, 1, 0, 0, 0, 0, 0]).is_none(), "too short");
}
