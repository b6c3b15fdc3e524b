// A house is opened in lent memory, or turned away by 3.
ghost use Rattle.std.specs.Prelude.{◌≡◌, Ok, Err, MatchResult};
ghost use Rattle.auction.specs.House.{refused};
ghost use Rattle.ledger.specs.Opening.{after_opening, opening};
ghost use Rattle.ledger.specs.declared.opening.Trouble.TheVariants.{BadLimits, ShortMemory};
ghost use Rattle.wire.specs.Meaning.{said};

use ledger::Limits;
use rules::Turned;
use wire::Answer;

// Makes the front of the memory a new house and leaves what lies behind; or nothing changes: limits out of range are refusal
// 3 at place 1, and less memory than they ask for is 3 at place 0.
pub fn open(limits: Limits, memory: &mut [u32]) -> Result<(), Answer>
    ensures words { memory.new ≡ after_opening limits memory.old }
    ensures cases { MatchResult result (λ u. opening limits memory.old ≡ Ok u) (λ a. elim (opening limits memory.old) [ Ok u ↦ ⊥ | Err e ↦ elim e [ BadLimits ↦ said a ≡ refused 3 1 | ShortMemory ↦ said a ≡ refused 3 0 ] ]) }
{
    ledger::open(limits, memory)
        .map_err(Turned::from)
        .map_err(Answer::from)
}
