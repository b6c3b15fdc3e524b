// Lots, by value: read from their words, and one more at the next place.
ghost use Rattle.std.specs.Prelude.{◌≡◌, ◌+◌, ◌<◌, length};
ghost use Rattle.ledger.specs.Houses.{lot_words, with_lot};
ghost use Rattle.ledger.specs.Layout.{lot_at};

use crate::layout::{COUNT, lot_at};

// So many pieces, and open until a tick.
#[derive(Clone, Copy, Debug, PartialEq, Eq)]
pub struct Lot {
    pub pieces: u32,
    pub until: u32,
}

pub fn lot_of(memory: &[u32], lot: u32) -> Lot
    requires { lot_at lot + 1 < length memory.now }
    ensures { result ≡ lot_words memory.now lot }
{
    let at = lot_at(lot);
    Lot {
        pieces: memory[at],
        until: memory[at + 1],
    }
}

// One lot more, where there are so many; nobody has bid on it, if its rows were never written.
pub fn add_lot(memory: &mut [u32], count: u32, lot: Lot)
    requires { (lot_at count + 1 < length memory.old) × (count < 4096) }
    ensures { memory.new ≡ with_lot memory.old count lot.pieces lot.until }
{
    let at = lot_at(count);
    memory[at] = lot.pieces;
    memory[at + 1] = lot.until;
    memory[COUNT] = count + 1;
}
