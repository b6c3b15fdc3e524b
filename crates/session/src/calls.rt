// Calls in, answers out.
ghost use Rattle.std.specs.Prelude.{◌≡◌};
ghost use Rattle.keeper.specs.Keeping.{next_in, says_in};
ghost use Rattle.session.specs.Deeds.{Does, Done};
ghost use Rattle.wire.specs.Answers.{answer_bytes};
ghost use Rattle.wire.specs.Bytes.{Written};
ghost use Rattle.wire.specs.Calls.{call_in};
ghost use Rattle.wire.specs.Meaning.{read_as};

use crate::deeds::{bid, let_ticks_go_by, open_lot, show_bids, tell_of_lot};
use rules::{Turned, not_yet, unreadable};
use wire::{Answer, Call, read_call, write_answer};

// Answers the bytes of a call: writes the answer to the front of the lent bytes, leaves what is behind it, and says how
// many bytes it has, which stands beside them since they are lent and nothing here uses the heap. Whatever the memory holds,
// it is safe; memory that is no house is refused by 3.
pub fn call(memory: &mut [u32], request: &[u8], out: &mut [u8; 256]) -> usize
    ensures words { memory.new ≡ next_in memory.old (call_in request.now) }
    ensures bytes { Written out.old out.new result (answer_bytes (says_in memory.old (call_in request.now))) }
{
    let said = answer(memory, read_call(request));
    write_answer(said, out)
}

// Answers what was read: a call, or the place at which there is none.
pub fn answer(memory: &mut [u32], asked: Result<Call<'_>, usize>) -> Answer
    ensures { Done memory.old (read_as asked.entry) memory.new result }
{
    answer_call(memory, asked).unwrap_or_else(Answer::from)
}

fn answer_call(memory: &mut [u32], asked: Result<Call<'_>, usize>) -> Result<Answer, Turned>
    ensures { Does memory.old (read_as asked.entry) memory.new result }
{
    match asked.map_err(|place| unreadable(memory, place))? {
        Call::Open { pieces, until } => open_lot(memory, pieces, until),
        Call::Bid { lot, bidder, bids } => bid(memory, lot, bidder, bids),
        Call::Ticks { ticks } => let_ticks_go_by(memory, ticks),
        Call::MyBids { lot, bidder } => show_bids(memory, lot, bidder),
        // In this stage results are not told yet, nor what a lot brings.
        Call::Result { .. } | Call::Brings { .. } => Err(not_yet(memory)),
        Call::Lot { lot } => tell_of_lot(memory, lot),
    }
}
