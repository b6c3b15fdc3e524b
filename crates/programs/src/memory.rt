// The memory of the house: as many words as its limits ask for, in which a house is opened.
ghost use Rattle.std.specs.Prelude.{◌≡◌, ◌↔◌, None, Some, Err, replicate, vec_len, IfOk};
ghost use Rattle.ledger.specs.Layout.{needed};
ghost use Rattle.ledger.specs.Opening.{after_opening};
ghost use Rattle.programs.specs.declared.memory.NoHouse.TheVariants.{BadLimits, NoMemory};

use ledger::{Limits, open, words_needed};
use std::alloc::{AllocError, Global};

// Why there is no house.
#[derive(Clone, Copy, Debug, PartialEq, Eq)]
pub enum NoHouse {
    BadLimits,
    NoMemory,
}

impl From<AllocError> for NoHouse {
    ghost from_gives = { λ _ e. e ≡ NoMemory };

    fn from(_error: AllocError) -> NoHouse {
        NoHouse::NoMemory
    }
}

pub fn opened(heap: Global, limits: Limits) -> Result<Vec<u32>, NoHouse>
    ensures words { IfOk result (λ v. needed limits ≡ Some (vec_len v)) }
    ensures house { IfOk result (λ v. v.items ≡ after_opening limits (replicate (vec_len v) 0)) }
    ensures limits { (result ≡ Err BadLimits) ↔ (needed limits ≡ None) }
{
    let words = words_needed(limits).ok_or(NoHouse::BadLimits)?;
    let mut memory = vec![in heap; 0u32; words]?;
    open(limits, memory.as_mut_slice()).map_err(|_| NoHouse::BadLimits)?;
    Ok(memory)
}
