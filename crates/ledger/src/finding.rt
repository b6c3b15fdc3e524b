// Lots are found: by number, and in the order in which they close. Whatever the words are; where they are no house, there is nothing to find.
ghost use Rattle.std.specs.Prelude.{◌≡◌, ℕ, ◌+◌, ◌<◌, ◌≤◌, map, length, false, MatchOption};
ghost use Rattle.std.specs.List.{range_with_len};
ghost use Rattle.ledger.specs.Finding.{FindsFirst, NextClosing, IsOpen, closing, how_many_closed, is_past, lots_in, numbered, place_of};
ghost use Rattle.ledger.specs.Houses.{Stands, house_in, is_house, limits_in, lot_in, lot_words};
ghost use Rattle.ledger.specs.Layout.{lot_at};

use crate::layout::lot_at;
use crate::lots::{Lot, lot_of};
use crate::standing::{Header, stands};

// When a lot closes, and which lot it is. The first to close comes first, and of those that close in one tick the one with
// the lowest number: the order of the fields.
#[derive(Clone, Copy, Debug, PartialEq, Eq, PartialOrd, Ord)]
pub struct Closing {
    pub until: u32,
    pub number: u32,
}

// A house in the lent memory, where each lot that is open so far has its words.
#[derive(Clone, Copy)]
struct House<'a> {
    memory: &'a [u32],
    header: Header,
    ghost lots_there: { lot_at header.count ≤ length memory.now },
}

// The lot with this number.
pub fn find_lot(memory: &[u32], number: u32) -> Option<Lot>
    ensures { result ≡ numbered (lots_in memory.now) number }
{
    number_if_open(memory, number).map(|lot| lot_of(memory, lot))
}

// Where the words of the lot with this number begin.
pub fn find_place(memory: &[u32], number: u32) -> Option<usize>
    ensures { result ≡ place_of (lots_in memory.now) number }
{
    number_if_open(memory, number).map(lot_at)
}

// The number, if there is such a lot.
#[tactic(auto, unfolding(crate::specs::Finding::lots_in, crate::specs::Houses::is_house, crate::specs::Houses::house_in))]
fn number_if_open(memory: &[u32], number: u32) -> Option<u32>
    ensures { MatchOption result (length (lots_in memory.now) ≤ number) (λ lot. IsOpen memory.now number lot) }
{
    let header = stands(memory)?;
    (number < header.count).then_some(number)
}

// The first lot that closes after this one, or with none the first of all. Linear in the lots: the tick of each is read once.
#[tactic(auto, using(crate::proofs::Found::no_lots))]
pub fn next_closing(memory: &[u32], after: Option<Closing>) -> Option<Closing>
    ensures { NextClosing (lots_in memory.now) after result }
{
    house_of(memory)?.first_after(after)
}

// How many lots are closed by now. Linear in the lots: the tick of each is read once.
#[tactic(auto, unfolding(crate::specs::Finding::lots_in, crate::specs::Houses::house_in))]
pub fn closed_by_now(memory: &[u32]) -> u32
    ensures { result ≡ how_many_closed (house_in memory.now).now (lots_in memory.now) }
{
    house_of(memory).map_or(0, House::closed)
}

// The memory as a house, if it is one.
fn house_of(memory: &[u32]) -> Option<House<'_>>
    ensures { MatchOption result (is_house memory.now ≡ false) (λ h. Stands memory.now h.header × (h.memory.now ≡ memory.now)) }
{
    let header = stands(memory)?;
    Some(House { memory, header })
}

impl House<'_> {
    // The first of its lots that closes after this one.
    fn first_after(self, after: Option<Closing>) -> Option<Closing>
        ensures { FindsFirst self.entry.header.count (λ (k : ℕ). (lot_words self.entry.memory.now k).until) after result }
    {
        (0..self.header.count)
            .map(|number| Closing {
                until: lot_of(self.memory, number).until,
                number,
            })
            .filter(|lot| lot.is_past(after))
            .min()
    }

    // How many of its lots are closed by now.
    fn closed(self) -> u32
        ensures { result ≡ how_many_closed self.entry.header.now (map (lot_in (limits_in self.entry.memory.now) self.entry.memory.now) (range_with_len 0 self.entry.header.count)) }
    {
        (0..self.header.count)
            .filter(|number| lot_of(self.memory, *number).until <= self.header.now)
            .count() as u32
    }
}

impl Closing {
    // Does it come after that one, if there is one?
    fn is_past(self, from: Option<Closing>) -> bool
        ensures { result ≡ is_past from self }
    {
        from.is_none_or(|other| other < self)
    }
}
