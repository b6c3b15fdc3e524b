// Where in the lent memory each thing stands: computed here, and nowhere else, from the limits alone.
// 8 words of header, 8 words a lot, then the rows of bids by lot and bidder, 2 words a bid, and the rest tables for the solver.
ghost use Rattle.std.specs.Prelude.{◌≡◌, ◌+◌, ◌≤◌, true, false, MatchOption};
ghost use Rattle.ledger.specs.Layout.{Good, HasRow, good, house_words, lot_at, needed, row_at, row_size, tables_at};

use std::ops::Range;

// The header's words: the limits, the time, and how many lots are open so far; three are spare.
pub const LOTS: usize = 0;

pub const BIDDERS: usize = 1;

pub const EACH: usize = 2;

pub const NOW: usize = 3;

pub const COUNT: usize = 4;

// How many words the header has, a lot, and a bid.
const HEADER: usize = 8;

const LOT: usize = 8;

const BID: usize = 2;

// What the tables take for each bidder, and for all together beside the header.
const TABLE: usize = 131072;

const TABLES: usize = 524280;

// No house has fewer words: one bidder, and no lots.
pub const FEWEST: usize = HEADER + TABLE + TABLES;

// No house has more lots, more bidders, or more bids of a bidder on a lot.
pub const MOST_LOTS: u32 = 4096;

pub const MOST_BIDDERS: u32 = 32;

pub const MOST_EACH: u32 = 16;

// How many lots there may be, how many bidders, and how many bids each may have on a lot.
#[derive(Clone, Copy, Debug, PartialEq, Eq)]
pub struct Limits {
    pub lots: u32,
    pub bidders: u32,
    pub each: u32,
}

// Limits that are in range: where each thing stands follows from them.
#[derive(Clone, Copy, Debug, PartialEq, Eq)]
pub struct Layout {
    pub limits: Limits,
    pub ghost good: { Good limits },
}

// The place of a bidder's bids on a lot, of a lot and a bidder that the limits have.
#[derive(Clone, Copy, Debug, PartialEq, Eq)]
pub struct RowPlace {
    pub limits: Limits,
    pub lot: u32,
    pub bidder: u32,
    pub ghost there: { HasRow limits lot bidder },
}

// How many words a house with these limits asks for, or none where they are out of range. By `?`: with `map(Layout::words)` the compiler no longer sees
// that opening a house in new memory clears what is clear, and does it twice.
pub fn words_needed(limits: Limits) -> Option<usize>
    ensures { result ≡ needed limits }
{
    let layout = limits.layout()?;
    Some(layout.words())
}

// Where a lot's words begin.
pub fn lot_at(lot: u32) -> usize
    ensures { result ≡ lot_at lot }
{
    HEADER + LOT * lot as usize
}

impl Limits {
    // The layout, if the limits are in range.
    pub fn layout(self) -> Option<Layout>
        ensures { MatchOption result (good self ≡ false) (λ l. (good self ≡ true) × (l.limits ≡ self)) }
    {
        if self.lots <= MOST_LOTS
            && (1..=MOST_BIDDERS).contains(&self.bidders)
            && self.each <= MOST_EACH
        {
            Some(Layout { limits: self })
        } else {
            None
        }
    }

    // How many words a row has.
    pub fn row_size(self) -> usize
        ensures { result ≡ row_size self }
    {
        BID * self.each as usize
    }

    // Where the rows begin: behind the last lot.
    fn rows_at(self) -> usize
        ensures { result ≡ lot_at self.lots }
    {
        lot_at(self.lots)
    }
}

impl Layout {
    // How many words the house has.
    pub fn words(self) -> usize
        ensures { result ≡ house_words self.limits }
    {
        self.tables_at() + TABLE * self.limits.bidders as usize + TABLES
    }

    // Where the tables begin: behind the last row.
    pub fn tables_at(self) -> usize
        ensures { result ≡ tables_at self.limits }
    {
        let Limits {
            lots,
            bidders,
            each,
        } = self.limits;
        self.limits.rows_at() + BID * (lots as usize * bidders as usize * each as usize)
    }
}

impl RowPlace {
    // Where the row's words are: behind them the next row begins, or the tables.
    pub fn words(self) -> Range<usize>
        ensures start { result.start ≡ row_at self.limits self.lot self.bidder }
        ensures end { result.end ≡ row_at self.limits self.lot self.bidder + row_size self.limits }
        ensures within { result.end ≤ tables_at self.limits }
    {
        let Limits { bidders, each, .. } = self.limits;
        let start = self.limits.rows_at()
            + BID * ((self.lot as usize * bidders as usize + self.bidder as usize) * each as usize);
        start..start + self.limits.row_size()
    }
}
