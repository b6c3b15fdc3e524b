// All calls of a row of bytes are answered, one after the other.
ghost use Rattle.std.specs.Prelude.{◌≡◌, ◌++◌, OnOk};
ghost use Rattle.daybook.specs.Records.{answer_records, calls_in, framed_one, left, told};
ghost use Rattle.keeper.specs.Keeping.{next_in, says_in};
ghost use Rattle.wire.specs.Answers.{answer_bytes};
ghost use Rattle.wire.specs.Calls.{call_in};

use crate::records::{Records, push_record};
use session::call;
use std::alloc::AllocError;

// Does the calls of the requests, a record each, and adds a record to the answers for each; or stops for want of memory for
// the answers. Whatever the memory holds, it is safe; memory that is no house has each call refused by 3.
#[tactic(auto, unfolding(auction::specs::Promise::told_by, auction::specs::Promise::left_by, crate::specs::Records::framed))]
pub fn answer_all(
    memory: &mut [u32],
    requests: &[u8],
    answers: &mut Vec<u8>,
) -> Result<(), AllocError>
    ensures bytes { OnOk result (answers.new.items ≡ answers.old.items ++ answer_records (told memory.old (calls_in requests.now))) }
    ensures words { OnOk result (memory.new ≡ left memory.old (calls_in requests.now)) }
{
    for request in Records::of(requests) {
        answer_one(memory, request, answers)?;
    }
    Ok(())
}

// The memory and the answers stand apart, as the caller lends them: a struct of both would be made anew for each call.
#[tactic(auto, unfolding(wire::specs::Bytes::put))]
fn answer_one(memory: &mut [u32], request: &[u8], answers: &mut Vec<u8>) -> Result<(), AllocError>
    ensures words { memory.new ≡ next_in memory.old (call_in request.now) }
    ensures bytes { OnOk result (answers.new.items ≡ answers.old.items ++ framed_one (answer_bytes (says_in memory.old (call_in request.now)))) }
{
    let mut out = [0; 256];
    let size = call(memory, request, &mut out);
    push_record(answers, &out[..size])
}
