// The program `house`: answers each call of a file, or of standard input, with a line.
#![tactic(auto)]

use anyhow::anyhow;
use ledger::Limits;
use options::{HELP, Wish, wish_of};
use programs::{opened, told};
use serving::serve;
use std::env;
use std::fs::File;

mod options;
mod serving;

fn main(rt: HostRuntime) -> anyhow::Result<()> {
    let words: Vec<String> = env::args(&rt)?.collect(rt.alloc())?;
    match wish_of(words.as_slice()) {
        Ok(Wish::Help) => {
            rt.print(HELP)?;
            Ok(())
        }
        Ok(Wish::Serve { limits, file }) => run(&rt, limits, file),
        Err(fault) => {
            eprintln!(rt; "house: {fault}")?;
            Err(anyhow!("bad options"))
        }
    }
}

// Opens a house in memory of its own, and answers the calls of the file, or of standard input.
fn run(rt: &HostRuntime, limits: Limits, file: Option<&str>) -> anyhow::Result<()> {
    let Ok(mut memory) = opened(rt.alloc(), limits) else {
        eprintln!(rt; "house: no memory for a house with these limits")?;
        return Err(anyhow!("no memory"));
    };
    let memory = memory.as_mut_slice();
    match file {
        None => told(rt, "house", "standard input", serve(rt, memory, rt.stdin())),
        Some(name) => {
            let done = File::open(rt, name).and_then(|file| serve(rt, memory, file));
            told(rt, "house", name, done)
        }
    }
}
