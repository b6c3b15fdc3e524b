// A house is opened in lent memory.
ghost use Rattle.std.specs.Prelude.{◌≡◌};
ghost use Rattle.ledger.specs.Opening.{after_opening, opening};

use crate::layout::{BIDDERS, EACH, LOTS, Limits, words_needed};

// Why no house is opened.
#[derive(Clone, Copy, Debug, PartialEq, Eq)]
pub enum Trouble {
    // limits out of range
    BadLimits,
    // less memory than the limits ask for
    ShortMemory,
}

// Makes the front of the memory a new house, as many words as its limits ask for, and leaves what lies behind; on an error nothing changes.
pub fn open(limits: Limits, memory: &mut [u32]) -> Result<(), Trouble>
    ensures answer { result ≡ opening limits memory.old }
    ensures words { memory.new ≡ after_opening limits memory.old }
{
    let words = words_needed(limits).ok_or(Trouble::BadLimits)?;
    if memory.len() < words {
        return Err(Trouble::ShortMemory);
    }
    memory[..words].fill(0);
    memory[LOTS] = limits.lots;
    memory[BIDDERS] = limits.bidders;
    memory[EACH] = limits.each;
    Ok(())
}
