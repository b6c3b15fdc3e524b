// The kinds of calls and of answers, each with its number as its first byte.
ghost use Rattle.std.specs.Prelude.{◌≡◌, ◌≤◌, MatchResult};
ghost use Rattle.wire.specs.Kinds.{answer_kind_number, kind_number};

#[derive(Clone, Copy, Debug, PartialEq, Eq)]
pub enum Kind {
    Open = 0,
    Bid = 1,
    Ticks = 2,
    MyBids = 3,
    Result = 4,
    Brings = 5,
    Lot = 6,
}

// A table of its own: only the shape is that of the calls' kinds, and a trait for both would have a method for each line.
#[derive(Clone, Copy, Debug, PartialEq, Eq)]
pub enum AnswerKind {
    Refused = 0,
    Number = 1,
    Two = 2,
    Bids = 3,
}

// A byte that is the number of no kind.
#[derive(Clone, Copy, Debug, PartialEq, Eq)]
pub struct UnknownKind(pub u8);

impl From<Kind> for u8 {
    ghost from_gives = { λ k n. n ≡ kind_number k };

    fn from(kind: Kind) -> u8 {
        kind as u8
    }
}

impl TryFrom<u8> for Kind {
    type Error = UnknownKind;

    ghost try_from_gives = { λ n r. MatchResult r (λ k. kind_number k ≡ n) (λ e. (e.0 ≡ n) × (7 ≤ n)) };

    fn try_from(number: u8) -> Result<Kind, UnknownKind> {
        match number {
            0 => Ok(Kind::Open),
            1 => Ok(Kind::Bid),
            2 => Ok(Kind::Ticks),
            3 => Ok(Kind::MyBids),
            4 => Ok(Kind::Result),
            5 => Ok(Kind::Brings),
            6 => Ok(Kind::Lot),
            _ => Err(UnknownKind(number)),
        }
    }
}

impl From<AnswerKind> for u8 {
    ghost from_gives = { λ k n. n ≡ answer_kind_number k };

    fn from(kind: AnswerKind) -> u8 {
        kind as u8
    }
}

impl TryFrom<u8> for AnswerKind {
    type Error = UnknownKind;

    ghost try_from_gives = { λ n r. MatchResult r (λ k. answer_kind_number k ≡ n) (λ e. (e.0 ≡ n) × (4 ≤ n)) };

    fn try_from(number: u8) -> Result<AnswerKind, UnknownKind> {
        match number {
            0 => Ok(AnswerKind::Refused),
            1 => Ok(AnswerKind::Number),
            2 => Ok(AnswerKind::Two),
            3 => Ok(AnswerKind::Bids),
            _ => Err(UnknownKind(number)),
        }
    }
}
