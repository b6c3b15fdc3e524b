// Sets of pieces and bids as text.
ghost use Rattle.std.specs.Prelude.{◌≡◌, ◌<◌, false, [], ◌∷◌, Some, slice_index_or};
ghost use Rattle.std.specs.Fmt.{WritesOnOk};
ghost use Rattle.auction.specs.Bids.{pick};
ghost use Rattle.bundles.specs.Masks.{bits};
ghost use Rattle.bundles.specs.Offers.{meant};
ghost use Rattle.printing.specs.Lines.{bid_text, digit, set_text};

use bundles::{Bid, Bundle};
use std::fmt;

// A set of pieces, shown as a row of digits, 0 to 9 and then a to f, in rising order.
#[derive(Clone, Copy, Debug, PartialEq, Eq)]
pub struct Pieces(pub Bundle);

impl fmt::Display for Pieces {
    ghost output = { λ p. Some (set_text 0 (bits 16 p.0.mask)) };

    fn fmt<W: fmt::Write>(&self, f: &mut fmt::Formatter<W>) -> fmt::Result {
        for piece in 0..16 {
            write_piece(f, self.0, piece)?;
        }
        Ok(())
    }
}

// The digit of a piece, if it is in the set.
fn write_piece<W: fmt::Write>(f: &mut fmt::Formatter<W>, set: Bundle, piece: u32) -> fmt::Result
    requires { piece < 16 }
    ensures { WritesOnOk W.Write.write_str_gives f.old result (pick (slice_index_or (bits 16 set.mask) piece false) (digit piece ∷ []) []) f.new }
{
    match char::from_digit(piece, 16) {
        Some(digit) if set.has(piece) => f.write_char(digit),
        _ => Ok(()),
    }
}

// A bid, shown as its set and its price.
#[derive(Clone, Copy, Debug, PartialEq, Eq)]
pub struct Offer(pub Bid);

impl fmt::Display for Offer {
    ghost output = { λ o. Some (bid_text (meant o.0)) };

    fn fmt<W: fmt::Write>(&self, f: &mut fmt::Formatter<W>) -> fmt::Result {
        let pieces = Pieces(self.0.on);
        let price = self.0.price;
        write!(f, "{pieces} {price}")
    }
}
