// Calls read from bytes and written as bytes. A call is a byte, its number, and its fields of four bytes each, low byte
// first; bids come last, their count before them in a byte, each a set in two bytes and a price in four.
ghost use Rattle.std.specs.Prelude.{◌≡◌, ◌/◌, ◌%◌, ◌≤◌, ◌∷◌, ◌++◌, length, slice_index};
ghost use Rattle.auction.specs.House.{bids};
ghost use Rattle.wire.specs.Bytes.{WrittenIf, all_bytes, bids_in, spelled};
ghost use Rattle.wire.specs.Calls.{call_bytes, call_in, call_of, size_by};
ghost use Rattle.wire.specs.Kinds.{kind_number};
ghost use Rattle.wire.specs.Meaning.{asked, read_as};

use crate::bids::Bids;
use crate::call::Call;
use crate::in_bytes::{InBytes, byte_or_zero, write_all};
use crate::kind::Kind;

// The call that these bytes are, or the place of the first byte that does not fit.
pub fn read_call<'a>(request: &'a [u8]) -> Result<Call<'a>, usize>
    ensures { read_as result ≡ call_in request.now }
{
    let first = request.first().ok_or(0usize)?;
    let kind = Kind::try_from(*first).map_err(|_| 0usize)?;
    let size = size_of_call(kind, request);
    if request.len() != size {
        return Err(request.len().min(size));
    }
    Ok(whole_call(kind, request))
}

// How many bytes a call of this kind has that begins so.
fn size_of_call(kind: Kind, request: &[u8]) -> usize
    ensures { result ≡ size_by (kind_number kind) (slice_index request.now 9) }
{
    match kind {
        Kind::Bid => 10 + 6 * usize::from(byte_or_zero(request, 9)),
        Kind::Open | Kind::MyBids | Kind::Result => 9,
        Kind::Ticks | Kind::Brings | Kind::Lot => 5,
    }
}

fn whole_call<'a>(kind: Kind, request: &'a [u8]) -> Call<'a>
    requires { length request.now ≡ size_by (kind_number kind) (slice_index request.now 9) }
    ensures { asked result ≡ call_of (kind_number kind) request.now }
{
    let first = u32::read(request, 1);
    match kind {
        Kind::Open => Call::Open {
            pieces: first,
            until: u32::read(request, 5),
        },
        Kind::Bid => Call::Bid {
            lot: first,
            bidder: u32::read(request, 5),
            bids: Bids {
                bytes: &request[10..],
            },
        },
        Kind::Ticks => Call::Ticks { ticks: first },
        Kind::MyBids => Call::MyBids {
            lot: first,
            bidder: u32::read(request, 5),
        },
        Kind::Result => Call::Result {
            lot: first,
            bidder: u32::read(request, 5),
        },
        Kind::Brings => Call::Brings { lot: first },
        Kind::Lot => Call::Lot { lot: first },
    }
}

// Writes the call to the front of the lent bytes, leaves what is behind it, and says how many bytes it has; or none where
// there is no room for it, and nothing is written. 1,540 bytes hold any call.
pub fn write_call(call: Call<'_>, out: &mut [u8]) -> Option<usize>
    ensures { WrittenIf out.old out.new result (call_bytes (asked call.entry)) }
{
    match call {
        Call::Open { pieces, until } => put_fields(out, Kind::Open, &[pieces, until]),
        Call::Bid { lot, bidder, bids } => put_bid_call(out, lot, bidder, bids.part()),
        Call::Ticks { ticks } => put_fields(out, Kind::Ticks, &[ticks]),
        Call::MyBids { lot, bidder } => put_fields(out, Kind::MyBids, &[lot, bidder]),
        Call::Result { lot, bidder } => put_fields(out, Kind::Result, &[lot, bidder]),
        Call::Brings { lot } => put_fields(out, Kind::Brings, &[lot]),
        Call::Lot { lot } => put_fields(out, Kind::Lot, &[lot]),
    }
}

fn put_fields(out: &mut [u8], kind: Kind, fields: &[u32]) -> Option<usize>
    requires { length fields.now ≤ 2 }
    ensures { WrittenIf out.old out.new result (kind_number kind ∷ all_bytes (spelled 4) fields.now) }
{
    let size = 1 + 4 * fields.len();
    if out.len() < size {
        return None;
    }
    out[0] = u8::from(kind);
    write_all(fields, out, 1);
    Some(size)
}

fn put_bid_call(out: &mut [u8], lot: u32, bidder: u32, part: &[u8]) -> Option<usize>
    requires { (length part.now % 6 ≡ 0) × (length part.now ≤ 1530) }
    ensures { WrittenIf out.old out.new result (call_bytes (bids lot bidder (bids_in (length part.now / 6) part.now))) }
{
    let size = 10 + part.len();
    if out.len() < size {
        return None;
    }
    out[0] = u8::from(Kind::Bid);
    write_all(&[lot, bidder], out, 1);
    out[9] = (part.len() / 6) as u8;
    out[10..size].copy_from_slice(part);
    Some(size)
}
