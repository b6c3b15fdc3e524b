// Calls read from lines of text.
#![tactic(auto)]

ghost use Rattle.std.specs.Prelude.{◌≡◌};
ghost use Rattle.reading.specs.Calls.{line_in};
ghost use Rattle.reading.specs.Lines.{silent};
ghost use Rattle.wire.specs.Meaning.{read_as};

pub use buffer::BidBuffer;
pub use fields::{larger, piece};
pub use reader::{Reader, Unreadable};
use wire::Call;

mod buffer;
mod calls;
mod fields;
mod reader;

// Is the line no call, which gets no answer: nothing but blanks, or a remark?
pub fn is_silent(line: &[u8]) -> bool
    ensures { result ≡ silent line.now }
{
    let mut reader = Reader::new(line);
    reader.blanks();
    reader.peek().is_none_or(|byte| byte == b'#')
}

// The call that the line is, without its line end, or the place of the first byte that does not fit. The lent buffer takes
// the bids of a call.
pub fn read_line<'a>(line: &[u8], bids: &'a mut BidBuffer) -> Result<Call<'a>, usize>
    ensures { read_as result ≡ line_in line.now }
{
    let mut reader = Reader::new(line);
    let call = reader.call(bids);
    // A true difference: what is left is no longer than the line.
    let place = reader.place_in(line);
    call.map_err(|_| place)
}
