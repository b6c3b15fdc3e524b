// The words of the command line, and errors told to people.
use std::io;

pub fn word<'a>(words: &'a [String], at: usize) -> &'a str {
    words.get(at).map_or("", |word| word.as_str())
}

// An error of reading or writing is told on standard error, and ends the program with status 1.
pub fn told(
    rt: &HostRuntime,
    program: &str,
    name: &str,
    done: io::Result<()>,
) -> anyhow::Result<()> {
    if let Err(e) = &done {
        eprintln!(rt; "{program}: {name}: {e}")?;
    }
    Ok(done?)
}
