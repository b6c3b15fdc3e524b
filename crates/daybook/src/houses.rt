// A house from its opening to the last call of a row of bytes.
ghost use Rattle.std.specs.Prelude.{◌≡◌, ◌≤◌, ◌↔◌, ◌++◌, map, length, Err, IsTrue, OnOk};
ghost use Rattle.auction.specs.House.{new_house, answers as answers_of};
ghost use Rattle.auction.specs.Promise.{GoodLimits, thin};
ghost use Rattle.daybook.specs.Records.{framed, records, roomy};
ghost use Rattle.ledger.specs.Houses.{limits_of};
ghost use Rattle.ledger.specs.Laws.{NewHouse};
ghost use Rattle.ledger.specs.Layout.{Good, house_words};
ghost use Rattle.ledger.specs.Opening.{opened, opening};
ghost use Rattle.daybook.specs.declared.houses.Stopped.TheVariants.{NoHouse, OutOfMemory};
ghost use Rattle.ledger.specs.declared.opening.Trouble.{Trouble};
ghost use Rattle.wire.specs.Answers.{answer_bytes};
ghost use Rattle.wire.specs.Calls.{call_in};

use crate::days::answer_all;
use ledger::laws::what_was_opened_is_the_new_house;
use ledger::{Limits, Trouble, open};
use std::alloc::AllocError;

// Why no calls are done, or not all.
#[derive(Clone, Copy, Debug, PartialEq, Eq)]
pub enum Stopped {
    // no house was opened
    NoHouse(Trouble),
    // there was no memory for the answers
    OutOfMemory,
}

impl From<Trouble> for Stopped {
    ghost from_gives = { λ trouble stopped. stopped ≡ NoHouse trouble };

    fn from(trouble: Trouble) -> Stopped {
        Stopped::NoHouse(trouble)
    }
}

impl From<AllocError> for Stopped {
    ghost from_gives = { λ _ stopped. stopped ≡ OutOfMemory };

    fn from(_error: AllocError) -> Stopped {
        Stopped::OutOfMemory
    }
}

// Opens a house and does the calls of the requests in it, a record each: to each the answer is the written house's. There is
// no house where the limits are out of range or the memory is too short for them.
pub fn run_house(
    limits: Limits,
    memory: &mut [u32],
    requests: &[u8],
    answers: &mut Vec<u8>,
) -> Result<(), Stopped>
    ensures opens { OnOk result (IsTrue (roomy limits memory.old)) }
    ensures no_house { (t : Trouble) → (result ≡ Err (NoHouse t)) ↔ (opening limits memory.old ≡ Err t) }
    ensures written { OnOk result (GoodLimits (limits_of thin limits) → house_words limits ≤ length memory.old → answers.new.items ≡ answers.old.items ++ framed (map answer_bytes (answers_of (limits_of thin limits) new_house (map call_in (records requests.now))))) }
{
    opens_anew(limits, memory);
    open(limits, memory)?;
    answer_all(memory, requests, answers)?;
    Ok(())
}

// Good limits and enough words: what is opened there is the new house. This computes nothing: a call brings it to the
// caller's proof.
#[tactic(auto, unfolding(ledger::specs::Laws::OpenedIsNew))]
fn opens_anew(limits: Limits, words: &[u32])
    ensures { Good limits → house_words limits ≤ length words.now → NewHouse limits words.now (opened limits words.now) }
{
    what_was_opened_is_the_new_house();
}
