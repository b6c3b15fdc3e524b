// A refusal as one number below 0, which a caller can tell from what was asked for: C has no `Result`.
ghost use Rattle.std.specs.Prelude.{◌≡◌, ◌^◌, ◌<◌};
ghost use Rattle.exports.specs.Codes.{turned};
ghost use Rattle.wire.specs.Refusals.{refusal_number};

use wire::Refusal;

const WORD: i64 = 4294967296;

pub fn code_of(refusal: Refusal, place: u32) -> i64
    ensures { result ≡ turned (refusal_number refusal) place }
{
    -(u64::from(refusal) as i64 * WORD + i64::from(place))
}
