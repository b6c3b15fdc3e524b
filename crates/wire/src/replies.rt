// Answers written as bytes and read from bytes. An answer is a byte, its kind, and its numbers of eight bytes each, low
// byte first; bids come with their count before them in a byte, sixteen at most, so that 256 bytes hold any answer.
ghost use Rattle.std.specs.Prelude.{◌≡◌, ◌+◌, ◌*◌, ◌≤◌, ◌∷◌, ◌++◌, length, nat_le, slice_index};
ghost use Rattle.auction.specs.Bids.{pick};
ghost use Rattle.auction.specs.House.{list};
ghost use Rattle.wire.specs.Answers.{answer_bytes, answer_in, answer_of, length_by};
ghost use Rattle.bundles.specs.Offers.{all_meant};
ghost use Rattle.bundles.specs.Rows.{held};
ghost use Rattle.wire.specs.Bytes.{Written, all_bytes, spelled};
ghost use Rattle.wire.specs.Kinds.{answer_kind_number};
ghost use Rattle.wire.specs.Meaning.{heard_as, said};
ghost use Rattle.wire.specs.Offers.{offers};

use crate::answer::{Answer, Refusal};
use crate::bids::Bids;
use crate::in_bytes::{InBytes, byte_or_zero, write_all};
use crate::kind::AnswerKind;
use bundles::Row;

// Writes the answer to the front, leaves what is behind it, and says how many bytes it has: a number beside the bytes, since
// these are lent, and nothing here uses the heap.
pub fn write_answer(answer: Answer, out: &mut [u8; 256]) -> usize
    ensures { Written out.old out.new result (answer_bytes (said answer)) }
{
    match answer {
        Answer::Refused { refusal, place } => {
            put_numbers(out, AnswerKind::Refused, &[u64::from(refusal), place])
        }
        Answer::Number(n) => put_numbers(out, AnswerKind::Number, &[n]),
        Answer::Two(a, b) => put_numbers(out, AnswerKind::Two, &[a, b]),
        Answer::Bids(row) => put_row(out, row),
    }
}

fn put_numbers(out: &mut [u8; 256], kind: AnswerKind, numbers: &[u64]) -> usize
    requires { length numbers.now ≤ 2 }
    ensures { Written out.old out.new result (answer_kind_number kind ∷ all_bytes (spelled 8) numbers.now) }
{
    out[0] = u8::from(kind);
    write_all(numbers, out, 1);
    1 + 8 * numbers.len()
}

fn put_row(out: &mut [u8; 256], row: Row) -> usize
    ensures { Written out.old out.new result (answer_bytes (list (all_meant (held row)))) }
{
    let bids = row.as_slice();
    out[0] = u8::from(AnswerKind::Bids);
    out[1] = bids.len() as u8;
    write_all(bids, out, 2);
    2 + 6 * bids.len()
}

// The answer that these bytes are, or the place of the first byte that does not fit. This begins as `read_call` does: a
// function for the three lines would take the kind as a type and the size as a closure, and be no shorter.
pub fn read_answer(bytes: &[u8]) -> Result<Answer, usize>
    ensures { heard_as result ≡ answer_in bytes.now }
{
    let first = bytes.first().ok_or(0usize)?;
    let kind = AnswerKind::try_from(*first).map_err(|_| 0usize)?;
    let size = size_of_answer(kind, bytes);
    if bytes.len() != size {
        return Err(bytes.len().min(size));
    }
    whole_answer(kind, bytes)
}

// How many bytes an answer of this kind has that begins so.
fn size_of_answer(kind: AnswerKind, bytes: &[u8]) -> usize
    ensures { result ≡ length_by (answer_kind_number kind) (slice_index bytes.now 1) }
{
    match kind {
        AnswerKind::Number => 9,
        AnswerKind::Refused | AnswerKind::Two => 17,
        AnswerKind::Bids => size_of_row(byte_or_zero(bytes, 1)),
    }
}

fn size_of_row(count: u8) -> usize
    ensures { result ≡ pick (nat_le count 16) (2 + 6 * count) 1 }
{
    if count > 16 {
        1
    } else {
        2 + 6 * usize::from(count)
    }
}

fn whole_answer(kind: AnswerKind, bytes: &[u8]) -> Result<Answer, usize>
    requires { length bytes.now ≡ length_by (answer_kind_number kind) (slice_index bytes.now 1) }
    ensures { heard_as result ≡ answer_of (answer_kind_number kind) bytes.now }
{
    match kind {
        AnswerKind::Refused => {
            let refusal = Refusal::try_from(u64::read(bytes, 1)).map_err(|_| 1usize)?;
            Ok(Answer::Refused {
                refusal,
                place: u64::read(bytes, 9),
            })
        }
        AnswerKind::Number => Ok(Answer::Number(u64::read(bytes, 1))),
        AnswerKind::Two => Ok(Answer::Two(u64::read(bytes, 1), u64::read(bytes, 9))),
        AnswerKind::Bids => Ok(Answer::Bids(row_in(Bids { bytes: &bytes[2..] }))),
    }
}

// The bids of an answer.
fn row_in(bids: Bids<'_>) -> Row
    requires { length (offers bids) ≤ 16 }
    ensures { all_meant (held result) ≡ offers bids.entry }
{
    let mut row = Row::new();
    for bid in bids.iter() {
        row.add(bid);
    }
    row
}
