// The answers that a house gives.
ghost use Rattle.std.specs.Prelude.{◌≡◌, ◌≤◌, MatchResult};
ghost use Rattle.wire.specs.Refusals.{refusal_number};

use bundles::Row;

// Why a call is turned away, in the order in which the checks run.
#[derive(Clone, Copy, Debug, PartialEq, Eq)]
pub enum Refusal {
    // bytes that are no call
    Unreadable = 1,
    // a value out of range, or a call that the house can't do
    OutOfRange = 2,
    // limits out of range at opening, or less memory than they ask for
    NoHouse = 3,
    NoSuchLot = 4,
    // a bid on a lot that is closed, or a result of one that is not
    WrongTime = 5,
    // a set with pieces that the lot does not have
    NotInLot = 6,
    // a lot until a tick that is not later than now
    NotLater = 7,
    // more lots, or later ticks, than there may be
    AboveLimits = 8,
}

#[derive(Clone, Copy, Debug, PartialEq, Eq)]
pub enum Answer {
    Refused { refusal: Refusal, place: u64 },
    Number(u64),
    Two(u64, u64),
    Bids(Row),
}

// A number that no refusal has.
#[derive(Clone, Copy, Debug, PartialEq, Eq)]
pub struct UnknownRefusal(pub u64);

impl From<Refusal> for u64 {
    ghost from_gives = { λ f n. (n ≡ refusal_number f) × (1 ≤ n) × (n ≤ 8) };

    fn from(refusal: Refusal) -> u64 {
        refusal as u64
    }
}

impl TryFrom<u64> for Refusal {
    type Error = UnknownRefusal;

    ghost try_from_gives = { λ n r. MatchResult r (λ f. refusal_number f ≡ n) (λ e. (e.0 ≡ n) × (1 ≤ n → n ≤ 8 → ⊥)) };

    fn try_from(n: u64) -> Result<Refusal, UnknownRefusal> {
        match n {
            1 => Ok(Refusal::Unreadable),
            2 => Ok(Refusal::OutOfRange),
            3 => Ok(Refusal::NoHouse),
            4 => Ok(Refusal::NoSuchLot),
            5 => Ok(Refusal::WrongTime),
            6 => Ok(Refusal::NotInLot),
            7 => Ok(Refusal::NotLater),
            8 => Ok(Refusal::AboveLimits),
            _ => Err(UnknownRefusal(n)),
        }
    }
}
