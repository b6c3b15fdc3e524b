// Records in a row of bytes: each is its length in two bytes, low byte first, and then that many bytes.
ghost use Rattle.std.specs.Prelude.{◌≡◌, ◌++◌, OnOk};
ghost use Rattle.std.specs.Iterator.{YieldsFirstRef, item_count};
ghost use Rattle.daybook.specs.Records.{framed_one, left_in, records};

use std::alloc::AllocError;

// The records of a row of bytes, one by one. A record that is cut off has the bytes that are there.
#[derive(Drop)]
pub struct Records<'a> {
    rest: &'a [u8],
}

impl<'a> Records<'a> {
    pub fn of(bytes: &'a [u8]) -> Records<'a>
        ensures { left_in result ≡ records bytes.now }
    {
        Records { rest: bytes }
    }
}

impl<'a> Iterator for Records<'a> {
    type Item = &'a [u8];

    ghost next_gives = { YieldsFirstRef left_in };

    ghost remaining = { item_count left_in };

    fn next(&mut self) -> Option<&'a [u8]> {
        let [low, high, behind @ ..] = self.rest else {
            return None;
        };
        let size = usize::from(u16::from_le_bytes([*low, *high]));
        let (record, rest) = behind.split_at(size.min(behind.len()));
        self.rest = rest;
        Some(record)
    }
}

// Adds a record to the end, or fails for want of memory.
#[tactic(auto, unfolding(wire::specs::Bytes::spelled))]
pub fn push_record(rows: &mut Vec<u8>, bytes: &[u8]) -> Result<(), AllocError>
    ensures { OnOk result (rows.new.items ≡ rows.old.items ++ framed_one bytes.now) }
{
    rows.extend_from_slice(&bytes.len().to_le_bytes()[..2])?;
    rows.extend_from_slice(bytes)
}
