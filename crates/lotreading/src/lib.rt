// Lots read from text.
#![tactic(auto)]

ghost use Rattle.std.specs.Prelude.{◌≡◌, ◌≤◌, ◌==◌, not, length, reverse, take};
ghost use Rattle.std.specs.List.{take_while};
ghost use Rattle.lotreading.specs.Lots.{lot_in};
ghost use Rattle.lotreading.specs.Places.{column_behind, line_behind};
ghost use Rattle.lotreading.specs.Values.{read_as};

use bundles::{Row, UpTo};
pub use expected::Expected;
use lots::lot;
use reading::Reader;

mod bids;
mod expected;
mod lots;
mod parts;
mod pieces;

// What each bidder bids, in their order.
pub type Bidders = UpTo<Row, 32>;

// How many pieces a lot has, and what each bidder bids.
#[derive(Clone, Copy, Debug, PartialEq, Eq)]
pub struct Lot {
    pub pieces: u32,
    pub bidders: Bidders,
}

// How many bytes of a text fit, and what was expected behind them.
#[derive(Clone, Copy, Debug, PartialEq, Eq)]
pub struct Misread {
    pub place: usize,
    pub expected: Expected,
}

// The lot that the text is, or the place of the first byte that can't be right.
pub fn read_lot(text: &[u8]) -> Result<Lot, Misread>
    ensures { read_as result ≡ lot_in text.now }
{
    let mut reader = Reader::new(text);
    let lot = lot(&mut reader);
    // A true difference: what is left is no longer than the text.
    let place = reader.place_in(text);
    lot.map_err(|expected| Misread { place, expected })
}

// The line and the column of a place in a text, both from 1 on.
pub fn line_and_column(text: &[u8], place: usize) -> (usize, usize)
    ensures line { result.0 ≡ line_behind (take place text.now) }
    ensures column { result.1 ≡ column_behind (take place text.now) }
{
    let before = &text[..place.min(text.len())];
    let line = before.iter().filter(|byte| **byte == b'\n').count() + 1;
    (line, behind_last_feed(before) + 1)
}

// How many of these bytes stand behind the last line feed among them.
fn behind_last_feed(before: &[u8]) -> usize
    ensures count { result ≡ length (take_while (λ b. not (b == 10)) (reverse before.now)) }
    ensures bound { result ≤ length before.now }
{
    before
        .iter()
        .rev()
        .take_while(|byte| **byte != b'\n')
        .count()
}
