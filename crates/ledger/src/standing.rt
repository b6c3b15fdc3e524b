// The header of the memory: whether a house stands there, with which limits, at what time, and with how many lots.
ghost use Rattle.std.specs.Prelude.{◌≡◌, ◌≤◌, false, length, MatchOption};
ghost use Rattle.ledger.specs.Houses.{Stands, fits, header_in, is_house, with_now};

use crate::layout::{BIDDERS, COUNT, EACH, FEWEST, LOTS, Limits, NOW, words_needed};

// Every tick is below this.
pub const TICKS: u32 = 16_777_216;

#[derive(Clone, Copy, Debug, PartialEq, Eq)]
pub struct Header {
    pub limits: Limits,
    pub now: u32,
    // how many lots are open so far, closed ones too
    pub count: u32,
}

// The header, if the memory is a house, and none for any other words.
#[tactic(auto, using(crate::proofs::Houses::standing, crate::proofs::Houses::too_short), unfolding(crate::specs::Houses::is_house))]
pub fn stands(memory: &[u32]) -> Option<Header>
    ensures { MatchOption result (is_house memory.now ≡ false) (λ h. Stands memory.now h) }
{
    if memory.len() < FEWEST {
        return None;
    }
    let header = read_header(memory);
    header.fits(memory.len()).then_some(header)
}

pub fn set_now(memory: &mut [u32], tick: u32)
    requires { 8 ≤ length memory.old }
    ensures { memory.new ≡ with_now memory.old tick }
{
    memory[NOW] = tick;
}

fn read_header(memory: &[u32]) -> Header
    requires { 8 ≤ length memory.now }
    ensures { result ≡ header_in memory.now }
{
    Header {
        limits: Limits {
            lots: memory[LOTS],
            bidders: memory[BIDDERS],
            each: memory[EACH],
        },
        now: memory[NOW],
        count: memory[COUNT],
    }
}

impl Header {
    // Can this be the header of a house in so many words?
    fn fits(self, words: usize) -> bool
        ensures { result ≡ fits self words }
    {
        words_needed(self.limits).is_some_and(|needed| needed <= words)
            && self.count <= self.limits.lots
            && self.now < TICKS
    }
}
