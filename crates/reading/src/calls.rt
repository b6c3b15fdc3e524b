// Calls read from a line: the words and numbers that a call begins with, and what follows them.
ghost use Rattle.std.specs.Prelude.{◌≡◌, ◌≤◌, length};
ghost use Rattle.reading.specs.Calls.{behind, bids_behind, call, kind as kind_in, likely, words};
ghost use Rattle.reading.specs.Readers.{seen, seen_as};
ghost use Rattle.wire.specs.Meaning.{asked};
ghost use Rattle.wire.specs.Offers.{offers};

use crate::buffer::BidBuffer;
use crate::reader::{Reader, Unreadable};
use wire::{Bids, Call, Kind};

impl<'a> Reader<'a> {
    // A whole line. The lent buffer takes the bids of a call.
    #[tactic(auto, using(crate::proofs::Shorter::stuck_within))]
    pub fn call<'b>(&mut self, bids: &'b mut BidBuffer) -> Result<Call<'b>, Unreadable>
        ensures read { seen_as asked result self.new ≡ call self.old }
        ensures left { length self.new ≤ length self.old }
    {
        self.blanks();
        let kind = self.kind()?;
        let call = self.behind(kind, bids)?;
        self.end()?;
        Ok(call)
    }

    fn kind(&mut self) -> Result<Kind, Unreadable>
        ensures { seen result self.new ≡ kind_in self.old }
    {
        let kind = self.likely().ok_or(Unreadable)?;
        self.spelt(words(kind))?;
        Ok(kind)
    }

    // The only kind of call that a line can be which goes on so.
    fn likely(&self) -> Option<Kind>
        ensures { result ≡ likely self.now }
    {
        match self.rest() {
            [b'o', ..] => Some(Kind::Open),
            [b'b', b'r', ..] => Some(Kind::Brings),
            [b'b', ..] => Some(Kind::Bid),
            [b't', ..] => Some(Kind::Ticks),
            [b'm', ..] => Some(Kind::MyBids),
            [b'r', ..] => Some(Kind::Result),
            [b'l', ..] => Some(Kind::Lot),
            _ => None,
        }
    }

    // What a kind of call has behind its words.
    fn behind<'b>(&mut self, kind: Kind, bids: &'b mut BidBuffer) -> Result<Call<'b>, Unreadable>
        ensures { seen_as asked result self.new ≡ behind kind self.old }
    {
        Ok(match kind {
            Kind::Open => Call::Open {
                pieces: self.field()?,
                until: self.field()?,
            },
            Kind::Bid => Call::Bid {
                lot: self.field()?,
                bidder: self.field()?,
                bids: self.bids_behind(bids)?,
            },
            Kind::Ticks => Call::Ticks {
                ticks: self.field()?,
            },
            Kind::MyBids => Call::MyBids {
                lot: self.field()?,
                bidder: self.field()?,
            },
            Kind::Result => Call::Result {
                lot: self.field()?,
                bidder: self.field()?,
            },
            Kind::Brings => Call::Brings { lot: self.field()? },
            Kind::Lot => Call::Lot { lot: self.field()? },
        })
    }

    // A colon, and the bids of a call.
    fn bids_behind<'b>(&mut self, bids: &'b mut BidBuffer) -> Result<Bids<'b>, Unreadable>
        ensures { seen_as offers result self.new ≡ bids_behind self.old }
    {
        self.blanks();
        self.byte(b':')?;
        self.bid_list(bids)?;
        Ok(bids.bids())
    }
}

// The words that a call begins with.
fn words(kind: Kind) -> &'static [u8]
    ensures { result.now ≡ words kind }
{
    match kind {
        Kind::Open => b"open",
        Kind::Bid => b"bid",
        Kind::Ticks => b"ticks",
        Kind::MyBids => b"my bids",
        Kind::Result => b"result",
        Kind::Brings => b"brings",
        Kind::Lot => b"lot",
    }
}
