// The parts of a text of several lines: blanks and remarks, and numbers of a range.
ghost use Rattle.std.specs.Prelude.{◌≡◌, false, ◌||◌};
ghost use Rattle.reading.specs.Readers.{seen};
ghost use Rattle.std.specs.Range.{range_inclusive_start, range_inclusive_end, range_inclusive_exhausted};
ghost use Rattle.lotreading.specs.Parts.{behind_blanks, blank, blank_here, gap as gap_in, ranged, remark as remark_of};

use reading::{Reader, Unreadable};
use std::ops::RangeInclusive;

// Is the byte to be passed over, in a remark or as a blank?
fn is_passed(remark: bool, byte: u8) -> bool
    ensures { result ≡ (remark || blank byte) }
{
    remark || matches!(byte, b' ' | b'\t' | b'\n' | b'\r')
}

// Is the byte in a remark, if the one before it is or is not?
fn is_remark(before: bool, byte: u8) -> bool
    ensures { result ≡ remark_of before byte }
{
    (before || byte == b'#') && byte != b'\n'
}

// Goes over blanks and remarks.
#[tactic(auto, using(crate::proofs::Steps::skip_next))]
pub fn blanks(reader: &mut Reader<'_>)
    ensures { reader.new ≡ behind_blanks reader.old }
{
    let mut remark = false;
    while let Some(byte) = reader.peek() {
        remark = is_remark(remark, byte);
        if !is_passed(remark, byte) {
            return;
        }
        reader.step();
    }
}

pub fn at_blank(reader: &Reader<'_>) -> bool
    ensures { result ≡ blank_here reader.now }
{
    reader
        .peek()
        .is_some_and(|byte| is_passed(is_remark(false, byte), byte))
}

// One blank or more. A gap in a line of calls differs in both of these calls: one function of the two would take each as a
// closure, as `gap_of(reader, at_blank, blanks)`, and share no more than the `if`.
pub fn gap(reader: &mut Reader<'_>) -> Result<(), Unreadable>
    ensures { seen result reader.new ≡ gap_in reader.old }
{
    if !at_blank(reader) {
        return Err(Unreadable);
    }
    blanks(reader);
    Ok(())
}

// A number of a range; where there is none, the reader stays.
pub fn ranged(reader: &mut Reader<'_>, range: RangeInclusive<u32>) -> Result<u32, Unreadable>
    requires { range_inclusive_exhausted range ≡ false }
    ensures { seen result reader.new ≡ ranged (range_inclusive_start range) (range_inclusive_end range) reader.old }
{
    let mut further = Reader::new(reader.rest());
    let number = further.number()?;
    if !range.contains(&number) {
        return Err(Unreadable);
    }
    *reader = further;
    Ok(number)
}
