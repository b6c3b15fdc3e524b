// The words of the command line.
ghost use Rattle.std.specs.Prelude.{◌≡◌, ◌≤◌, false, IfOk};
ghost use Rattle.std.specs.Range.{range_inclusive_end, range_inclusive_exhausted, range_inclusive_start};
ghost use Rattle.house.specs.Wishes.{Sane};
ghost use Rattle.ledger.specs.Layout.{Good};

use ledger::{Limits, MOST_BIDDERS, MOST_EACH, MOST_LOTS};
use std::fmt;
use std::ops::RangeInclusive;

pub const HELP: &str = "usage: house [--lots N] [--bidders N] [--each N] [FILE]

Answers each call of FILE, or of standard input, with a line.

  --lots N      room for so many lots, 0 to 4096 (default 4096)
  --bidders N   so many bidders, 1 to 32 (default 32)
  --each N      so many bids of each bidder on each lot, 0 to 16 (default 16)
  --help        this text

Calls:
  open 2 10                a lot of 2 pieces, until tick 10
  bid 0 2: 01 130, 0 60    on lot 0, bidder 2: pieces 0 and 1 for 130, or piece 0 for 60
  bid 0 2:                 takes the bids back
  ticks 5                  lets 5 ticks go by
  my bids 0 2              the bids of bidder 2 on lot 0
  result 0 2               which bid of bidder 2 on lot 0 was taken, and what is paid
  brings 0                 what lot 0 comes to, and what is paid in all
  lot 0                    the pieces of lot 0, and until when it is open
Empty lines, and lines that begin with '#', are no calls.

Answers:
  0 R P                    turned away by refusal R at place P
  1 N                      a number
  2 A B                    two numbers
  3 N: 01 130, 0 60        N bids
";

// What is asked for: the help, or a house with limits and a file.
#[derive(Clone, Copy, Debug, PartialEq, Eq)]
pub enum Wish<'a> {
    Help,
    Serve {
        limits: Limits,
        file: Option<&'a str>,
    },
}

// What is wrong with the words.
#[derive(Clone, Copy, Debug, PartialEq, Eq)]
pub enum Fault<'a> {
    Unknown(&'a str),
    NoNumber(&'a str),
    NotInRange {
        option: &'a str,
        given: &'a str,
        least: u32,
        most: u32,
    },
    SecondFile(&'a str),
}

impl fmt::Display for Fault<'_> {
    fn fmt<W: fmt::Write>(&self, f: &mut fmt::Formatter<W>) -> fmt::Result {
        match *self {
            Fault::Unknown(word) => write!(f, "unknown option {word}; house --help lists them"),
            Fault::NoNumber(option) => write!(f, "{option} takes a number"),
            Fault::NotInRange {
                option,
                given,
                least,
                most,
            } => write!(
                f,
                "{option} takes a whole number from {least} to {most}, not {given}"
            ),
            Fault::SecondFile(word) => write!(f, "one file at most; {word} is a second"),
        }
    }
}

// The words behind the program's name.
pub fn wish_of<'a>(words: &'a [String]) -> Result<Wish<'a>, Fault<'a>>
    ensures { IfOk result (λ w. Sane words.now w) }
{
    let mut limits = Limits {
        lots: MOST_LOTS,
        bidders: MOST_BIDDERS,
        each: MOST_EACH,
    };
    let mut file = None;
    let mut rest = words.iter();
    rest.next();
    while let Some(word) = rest.next() {
        match word.as_str() {
            "--help" | "-h" => return Ok(Wish::Help),
            option @ ("--lots" | "--bidders" | "--each") => {
                limits = with_limit(limits, option, rest.next())?;
            }
            option if option.starts_with('-') => return Err(Fault::Unknown(option)),
            second if file.is_some() => return Err(Fault::SecondFile(second)),
            name => file = Some(name),
        }
    }
    Ok(Wish::Serve { limits, file })
}

// The limits with the one that the option names: looked at again here, so that the loop keeps one fact of the limits, and not three.
fn with_limit<'a>(
    limits: Limits,
    option: &'a str,
    given: Option<&'a String>,
) -> Result<Limits, Fault<'a>>
    requires { Good limits }
    ensures { IfOk result Good }
{
    Ok(match option {
        "--lots" => Limits {
            lots: number_behind(option, given, 0..=MOST_LOTS)?,
            ..limits
        },
        "--bidders" => Limits {
            bidders: number_behind(option, given, 1..=MOST_BIDDERS)?,
            ..limits
        },
        _ => Limits {
            each: number_behind(option, given, 0..=MOST_EACH)?,
            ..limits
        },
    })
}

// The number behind an option, within its range.
fn number_behind<'a>(
    option: &'a str,
    given: Option<&'a String>,
    range: RangeInclusive<u32>,
) -> Result<u32, Fault<'a>>
    requires { range_inclusive_exhausted range ≡ false }
    ensures { IfOk result (λ n. (range_inclusive_start range ≤ n) × (n ≤ range_inclusive_end range)) }
{
    let given = given.ok_or(Fault::NoNumber(option))?.as_str();
    match given.parse::<u32>() {
        Ok(n) if range.contains(&n) => Ok(n),
        _ => Err(Fault::NotInRange {
            option,
            given,
            least: *range.start(),
            most: *range.end(),
        }),
    }
}
