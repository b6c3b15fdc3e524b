// A call that is turned away: why, and at which place of it.
ghost use Rattle.std.specs.Prelude.{◌≡◌};
ghost use Rattle.auction.specs.House.{refused};
ghost use Rattle.ledger.specs.declared.opening.Trouble.TheVariants.{BadLimits, ShortMemory};
ghost use Rattle.wire.specs.Meaning.{said};
ghost use Rattle.wire.specs.declared.answer.Refusal.TheVariants.{NoHouse};
ghost use Rattle.wire.specs.Refusals.{refusal_number};
ghost use Rattle.rules.specs.Places.{refusal_place};

use ledger::Trouble;
use wire::{Answer, Refusal};

#[derive(Clone, Copy, Debug, PartialEq, Eq)]
pub struct Turned {
    pub refusal: Refusal,
    pub place: u64,
}

// Each refusal stands at the place that the list of refusals gives it. That of bytes that are no call is found as they are read.
impl From<Refusal> for Turned {
    ghost from_gives = { λ refusal turned. (turned.refusal ≡ refusal) × (turned.place ≡ refusal_place refusal) };

    fn from(refusal: Refusal) -> Turned {
        let place = match refusal {
            Refusal::NotInLot => 2,
            Refusal::NotLater => 1,
            _ => 0,
        };
        Turned { refusal, place }
    }
}

// Where no house is opened: limits out of range are at place 1, and less memory than they ask for is at place 0.
impl From<Trouble> for Turned {
    ghost from_gives = { λ trouble turned. (turned.refusal ≡ NoHouse) × (turned.place ≡ (elim trouble [ BadLimits ↦ 1 | ShortMemory ↦ 0 ])) };

    fn from(trouble: Trouble) -> Turned {
        let place = match trouble {
            Trouble::BadLimits => 1,
            Trouble::ShortMemory => 0,
        };
        Turned {
            refusal: Refusal::NoHouse,
            place,
        }
    }
}

impl From<Turned> for Answer {
    ghost from_gives = { λ turned answer. said answer ≡ refused (refusal_number turned.refusal) turned.place };

    fn from(turned: Turned) -> Answer {
        Answer::Refused {
            refusal: turned.refusal,
            place: turned.place,
        }
    }
}
