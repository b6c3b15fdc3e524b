// What the tests share: a house in memory of its own, what it answers to lines, and how an answer is shown.
use ledger::Limits;
use printing::Line;
use reading::{BidBuffer, read_line};
use session::{answer, open};
use std::alloc::Global;
use std::process::Abort;
use std::test::Fail;
use wire::Answer;

// A new house, in memory that was not clear.
pub fn house(heap: Global, limits: Limits) -> Result<Vec<u32>, Fail> {
    let mut memory = vec![in heap; 7u32; 1000000]?;
    open(limits, memory.as_mut_slice()).map_err(|_| Fail::new("no house"))?;
    Ok(memory)
}

// What the house answers to a line.
pub fn asked(memory: &mut [u32], line: &[u8]) -> Answer {
    let mut bids = BidBuffer::new();
    answer(memory, read_line(line, &mut bids))
}

pub fn takes(rt: &impl Abort, memory: &mut [u32], line: &[u8]) -> Result<(), Fail> {
    match asked(memory, line) {
        Answer::Refused { refusal, place: _ } => {
            assert_eq!(rt; u64::from(refusal), 0, "is taken");
            Ok(())
        },
        _ => Ok(()),
    }
}

// The answer is shown as this line.
pub fn shown(rt: &impl Abort, heap: Global, answer: Answer, text: &str) -> Result<(), Fail> {
    let line = Line(answer);
    let written = format!(in heap; "{line}")?;
    assert!(rt; written.as_str() == text);
    Ok(())
}

// Each beginning of the bytes ends too soon, at its end. The loop is over lengths, and no index of the bytes.
pub fn no_beginning_is_whole<F: Fn(&[u8]) -> Option<usize>>(rt: &impl Abort, bytes: &[u8], place: F)
    requires { F.IsAlwaysCallable place }
{
    for n in 0..bytes.len() {
        assert_eq!(rt; place(&bytes[..n]), Some(n));
    }
}
