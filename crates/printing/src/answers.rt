// Answers as text: the kind, and its values behind it.
ghost use Rattle.std.specs.Prelude.{Some};
ghost use Rattle.wire.specs.Meaning.{said};
ghost use Rattle.std.specs.Fmt.{WritesOnOk};
ghost use Rattle.auction.specs.House.{list};
ghost use Rattle.bundles.specs.Offers.{all_meant};
ghost use Rattle.printing.specs.Lines.{answer_text, bids_text};

use crate::offers::Offer;
use bundles::Bid;
use std::fmt;
use wire::Answer;

// An answer, shown as its line.
#[derive(Clone, Copy, Debug, PartialEq, Eq)]
pub struct Line(pub Answer);

impl fmt::Display for Line {
    ghost output = { λ a. Some (answer_text (said a.0)) };

    fn fmt<W: fmt::Write>(&self, f: &mut fmt::Formatter<W>) -> fmt::Result {
        match self.0 {
            Answer::Refused { refusal, place } => {
                let number = u64::from(refusal);
                write!(f, "0 {number} {place}")
            }
            Answer::Number(n) => write!(f, "1 {n}"),
            Answer::Two(a, b) => write!(f, "2 {a} {b}"),
            Answer::Bids(row) => write_bids(f, row.as_slice()),
        }
    }
}

fn write_bids<W: fmt::Write>(f: &mut fmt::Formatter<W>, bids: &[Bid]) -> fmt::Result
    ensures { WritesOnOk W.Write.write_str_gives f.old result (answer_text (list (all_meant bids.now))) f.new }
{
    let count = bids.len();
    write!(f, "3 {count}:")?;
    write_offers(f, bids)
}

// Each bid behind a blank, and a comma between two.
fn write_offers<W: fmt::Write>(f: &mut fmt::Formatter<W>, bids: &[Bid]) -> fmt::Result
    ensures { WritesOnOk W.Write.write_str_gives f.old result (bids_text (all_meant bids.now)) f.new }
{
    let mut separator = "";
    for bid in bids {
        let offer = Offer(*bid);
        write!(f, "{separator} {offer}")?;
        separator = ",";
    }
    Ok(())
}
