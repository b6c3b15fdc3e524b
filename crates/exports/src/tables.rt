// The solver's tables for a caller's words.
ghost use Rattle.std.specs.Prelude.{◌≡◌, ◌+◌, ◌*◌, ◌≤◌, length, MatchResult, ◌≢◌};
ghost use Rattle.solver.specs.Welfare.{AllMost, FilledFrom, Room, table_at};
ghost use Rattle.wire.specs.Refusals.{refusal_number};
ghost use Rattle.exports.specs.Filling.{MayFill, fill_refusal, fill_told, rows_in};

use crate::codes::code_of;
use crate::rows::read_rows;
use bundles::MOST_PIECES;
use ledger::MOST_BIDDERS;
use solver::{fill_tables, words_for};
use wire::Refusal;

// Fills the tables of all bidders, and tells how many words that took, or a code below 0: C has no `Result`.
#[unsafe(no_mangle)]
pub extern "C" fn vabrjoth_fill_tables(
    tables: &mut [u32],
    pieces: u32,
    bidders: u32,
    rows: &[u32],
) -> i64
    ensures told { result ≡ fill_told (length tables.old) pieces bidders (length rows.now) }
    ensures filled { fill_refusal (length tables.old) pieces bidders (length rows.now) ≡ 0 → FilledFrom tables.old tables.new pieces (rows_in rows.now bidders) 0 }
    ensures ways { fill_refusal (length tables.old) pieces bidders (length rows.now) ≡ 0 → AllMost tables.new pieces (rows_in rows.now bidders) }
    ensures kept { (fill_refusal (length tables.old) pieces bidders (length rows.now) ≢ 0) → tables.new ≡ tables.old }
{
    match may_fill(tables.len(), pieces, bidders, rows.len()) {
        Ok(size) => {
            fill_from_words(tables, pieces, bidders as usize, rows);
            size as i64
        }
        Err(refusal) => code_of(refusal, 0),
    }
}

// The tables of the bids that these words hold.
fn fill_from_words(tables: &mut [u32], pieces: u32, bidders: usize, words: &[u32])
    requires { (Room (length tables.old) pieces bidders) × (32 * bidders ≤ length words.now) }
    ensures filled { FilledFrom tables.old tables.new pieces (rows_in words.now bidders) 0 }
    ensures ways { AllMost tables.new pieces (rows_in words.now bidders) }
{
    let rows = read_rows(words, bidders);
    fill_tables(tables, pieces, rows.as_slice());
}

// May so many words be filled for so many pieces and bidders, from so many words of bids? If so, how many of them are.
fn may_fill(len: usize, pieces: u32, bidders: u32, words: usize) -> Result<usize, Refusal>
    ensures { MatchResult result (λ size. MayFill len pieces bidders words size) (λ e. refusal_number e ≡ fill_refusal len pieces bidders words) }
{
    if pieces > MOST_PIECES || bidders > MOST_BIDDERS || words < 32 * bidders as usize {
        return Err(Refusal::OutOfRange);
    }
    let size = words_for(pieces, bidders as usize);
    if len < size {
        return Err(Refusal::NoHouse);
    }
    Ok(size)
}
