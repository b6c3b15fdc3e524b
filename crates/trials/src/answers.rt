// Answers as bytes: each answer both ways, cut off, too long, of no kind, and with too many bids.
use crate::house::no_beginning_is_whole;
use bundles::{Bid, Bundle, Full, Row};
use ledger::Limits;
use session::{call, open};
use std::process::Abort;
use std::test::Fail;
use wire::{Answer, Refusal, read_answer, write_answer};

fn written(rt: &impl Abort, answer: Answer, bytes: &[u8]) -> Result<(), Fail> {
    let mut out = [7u8; 256];
    let size = write_answer(answer, &mut out);
    assert_eq!(rt; size, bytes.len());
    assert!(rt; size < 256);
    assert!(rt; &out[0..size] == bytes);
    assert_eq!(rt; out[size], 7, "what lies behind stays");
    assert!(rt; read_answer(bytes) == Ok(answer), "and is read again");
    Ok(())
}

fn place(bytes: &[u8]) -> Option<usize> {
    read_answer(bytes).err()
}

const REFUSED: [u8; 17] = [0, 6, 0, 0, 0, 0, 0, 0, 0, 2, 0, 0, 0, 0, 0, 0, 0];

const NUMBER: [u8; 9] = [1, 1, 2, 3, 4, 5, 6, 7, 8];

const TWO: [u8; 17] = [2, 85, 0, 0, 0, 0, 0, 0, 0, 30, 0, 0, 0, 0, 0, 0, 128];

const BIDS: [u8; 14] = [3, 2, 3, 0, 130, 0, 0, 0, 1, 0, 60, 0, 0, 0];

#[test]
fn each_answer_is_its_bytes(rt: HostRuntime) -> Result<(), Fail> {
    written(
        &rt,
        Answer::Refused {
            refusal: Refusal::NotInLot,
            place: 2,
        },
        &REFUSED,
    )?;
    written(&rt, Answer::Number(578437695752307201), &NUMBER)?;
    written(&rt, Answer::Two(85, 9223372036854775838), &TWO)?;
    let mut row = Row::new();
    written(&rt, Answer::Bids(row), &[3, 0])?;
    assert!(rt;
        row.try_push(Bid {
            on: Bundle { mask: 3 },
            price: 130,
        })
        .is_ok()
    );
    assert!(rt;
        row.try_push(Bid {
            on: Bundle { mask: 1 },
            price: 60,
        })
        .is_ok()
    );
    written(&rt, Answer::Bids(row), &BIDS)
}

#[test]
fn a_row_takes_sixteen_bids(rt: HostRuntime) -> Result<(), Fail> {
    let bid = Bid {
        on: Bundle { mask: 65535 },
        price: 4294967295,
    };
    let mut row = Row::new();
    for _ in 0..16 {
        assert!(rt; row.try_push(bid).is_ok());
    }
    assert!(rt; row.try_push(bid) == Err(Full));
    assert_eq!(rt; row.as_slice().len(), 16);
    let mut bytes = [255u8; 98];
    bytes[0] = 3;
    bytes[1] = 16;
    written(&rt, Answer::Bids(row), &bytes)
}

#[test]
fn bytes_that_are_no_answer(rt: HostRuntime) {
    no_beginning_is_whole(&rt, &REFUSED, place);
    no_beginning_is_whole(&rt, &BIDS, place);
    assert_eq!(rt;
        place(&[1, 0, 0, 0, 0, 0, 0, 0, 0, 0]),
        Some(9),
        "one byte too many"
    );
    assert_eq!(rt; place(&[4]), Some(0), "no such kind");
    assert_eq!(rt; place(&[3, 17]), Some(1), "more bids than an answer has");
    assert_eq!(rt; place(&[3, 255]), Some(1));
    assert_eq!(rt;
        place(&[0, 0, 0, 0, 0, 0, 0, 0, 0, 0, 0, 0, 0, 0, 0, 0, 0]),
        Some(1),
        "no such refusal"
    );
    assert_eq!(rt;
        place(&[0, 9, 0, 0, 0, 0, 0, 0, 0, 0, 0, 0, 0, 0, 0, 0, 0]),
        Some(1)
    );
}

#[test]
fn the_session_answers_bytes_with_bytes(rt: HostRuntime) -> Result<(), Fail> {
    let mut memory = vec![in rt.alloc(); 7u32; 1000000]?;
    let limits = Limits {
        lots: 1,
        bidders: 1,
        each: 1,
    };
    assert!(rt; open(limits, memory.as_mut_slice()).is_ok());
    let mut out = [9u8; 256];
    assert_eq!(rt;
        call(
            memory.as_mut_slice(),
            &[0, 2, 0, 0, 0, 10, 0, 0, 0],
            &mut out,
        ),
        9
    );
    assert!(rt;
        &out[0..10] == [1, 0, 0, 0, 0, 0, 0, 0, 0, 9].as_slice(),
        "lot 0, and what lies behind stays"
    );
    assert_eq!(rt; call(memory.as_mut_slice(), &[6, 0, 0, 0, 0], &mut out), 17);
    assert!(rt; &out[0..17] == [2, 2, 0, 0, 0, 0, 0, 0, 0, 10, 0, 0, 0, 0, 0, 0, 0].as_slice());
    assert_eq!(rt; call(memory.as_mut_slice(), &[6, 0, 0], &mut out), 17);
    assert!(rt;
        &out[0..17] == [0, 1, 0, 0, 0, 0, 0, 0, 0, 3, 0, 0, 0, 0, 0, 0, 0].as_slice(),
        "bytes that end too soon"
    );
    Ok(())
}
