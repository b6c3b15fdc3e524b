// A reader that goes along a line of bytes: what it looks at and what it steps over.
ghost use Rattle.std.specs.Prelude.{◌≡◌, ◌-◌, ◌<◌, length, drop, nat_eq};
ghost use Rattle.reading.specs.Lines.{blank, byte as byte_in, end, gap, next, skip, spelt, starts};
ghost use Rattle.reading.specs.Readers.{seen};

use std::marker::Model;

// The line can't be read any further: the reader stands at the byte that does not fit.
#[derive(Clone, Copy, Debug, PartialEq, Eq)]
pub struct Unreadable;

#[derive(Drop)]
pub struct Reader<'a> {
    rest: &'a [u8],
}

// A clause sees what is yet to be read.
impl<'a> Model for Reader<'a> {
    ghost use Rattle.std.specs.Prelude.{ℕ, List};

    ghost Value = { List ℕ };

    ghost view = { λ r. r.rest.now };
}

impl<'a> Reader<'a> {
    pub fn new(line: &'a [u8]) -> Reader<'a>
        ensures { result ≡ line.now }
    {
        Reader { rest: line }
    }

    // What is yet to be read.
    pub fn rest(&self) -> &'a [u8]
        ensures { result.now ≡ self.now }
    {
        self.rest
    }

    // How much of the line that it goes along is behind it.
    pub fn place_in(&self, line: &[u8]) -> usize
        ensures { result ≡ length line.now - length self.now }
    {
        line.len().saturating_sub(self.rest.len())
    }

    pub fn peek(&self) -> Option<u8>
        ensures { result ≡ next self.now }
    {
        self.rest.first().copied()
    }

    pub fn step(&mut self)
        requires { 0 < length self.old }
        ensures { self.new ≡ drop 1 self.old }
    {
        self.rest = &self.rest[1..];
    }

    pub fn at(&self, byte: u8) -> bool
        ensures { result ≡ starts (λ b. nat_eq b byte) self.now }
    {
        self.peek() == Some(byte)
    }

    fn at_blank(&self) -> bool
        ensures { result ≡ starts blank self.now }
    {
        self.peek()
            .is_some_and(|byte| matches!(byte, b' ' | b'\t' | b'\r'))
    }

    #[tactic(auto, using(crate::proofs::Steps::skip_next))]
    pub fn blanks(&mut self)
        ensures { self.new ≡ skip self.old }
    {
        while self.at_blank() {
            self.step();
        }
    }

    // One blank or more.
    pub fn gap(&mut self) -> Result<(), Unreadable>
        ensures { seen result self.new ≡ gap self.old }
    {
        if !self.at_blank() {
            return Err(Unreadable);
        }
        self.blanks();
        Ok(())
    }

    // Just this byte, where a space stands for one blank or more.
    pub fn byte(&mut self, byte: u8) -> Result<(), Unreadable>
        ensures { seen result self.new ≡ byte_in byte self.old }
    {
        if byte == b' ' {
            return self.gap();
        }
        if !self.at(byte) {
            return Err(Unreadable);
        }
        self.step();
        Ok(())
    }

    // Just this text.
    #[tactic(auto, using(crate::proofs::Steps::spelt_next, crate::proofs::Steps::spelt_end))]
    pub fn spelt(&mut self, text: &[u8]) -> Result<(), Unreadable>
        ensures { seen result self.new ≡ spelt text.now self.old }
    {
        for &byte in text {
            self.byte(byte)?;
        }
        Ok(())
    }

    // Nothing but blanks, to the line's end.
    pub fn end(&mut self) -> Result<(), Unreadable>
        ensures { seen result self.new ≡ end self.old }
    {
        self.blanks();
        if self.peek().is_some() {
            return Err(Unreadable);
        }
        Ok(())
    }
}
