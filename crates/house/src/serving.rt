// Lines in, answers out.
ghost use Rattle.std.specs.Prelude.{◌≡◌, ◌++◌, string_bytes, OnOk};
ghost use Rattle.house.specs.Desk.{after_line, answered, body};

use printing::Line;
use reading::{BidBuffer, is_silent, read_line};
use session::answer;
use std::alloc::AllocError;
use std::io;
use std::io::{BufRead, BufReader, Read};

// Answers each line. The answers are written when no further line is at hand: at once to who types, in batches to who sends a file.
pub fn serve<R: Read + Drop>(rt: &HostRuntime, memory: &mut [u32], input: R) -> io::Result<()> {
    let heap = rt.alloc();
    let mut reader = BufReader::new(heap, input)?;
    let mut line = Vec::new(heap);
    let mut answers = String::new(heap);
    // A line a round, to the end of the input: a loop with no bound would need the leave to wait.
    for _ in 0..u64::MAX {
        line.clear();
        if reader.read_until(b'\n', &mut line)? == 0 {
            break;
        }
        answer_line(memory, without_end(line.as_slice()), &mut answers)?;
        if !reader.buffer().contains(&b'\n') {
            rt.print(answers.as_str())?;
            answers.clear();
        }
    }
    rt.print(answers.as_str())
}

// A line without its line end.
fn without_end(line: &[u8]) -> &[u8]
    ensures { result.now ≡ body line.now }
{
    line.strip_suffix(b"\n").unwrap_or(line)
}

// Answers a line, if it is to be answered, with a line behind what was written so far.
fn answer_line(memory: &mut [u32], line: &[u8], out: &mut String) -> Result<(), AllocError>
    ensures words { memory.new ≡ after_line memory.old line.now }
    ensures text { OnOk result (string_bytes out.new ≡ string_bytes out.old ++ answered memory.old line.now) }
{
    if is_silent(line) {
        return Ok(());
    }
    let mut bids = BidBuffer::new();
    let said = Line(answer(memory, read_line(line, &mut bids)));
    writeln!(out, "{said}")
}
