// How many pieces a lot has.
ghost use Rattle.std.specs.Prelude.{◌≡◌, ◌≤◌, nat_lt};

use std::marker::Model;

#[derive(Clone, Copy, Debug, PartialEq, Eq)]
pub struct PieceCount {
    count: u32,
}

// A clause sees the number.
impl Model for PieceCount {
    ghost use Rattle.std.specs.Prelude.{ℕ, ◌≤◌};

    ghost Value = { ℕ };

    ghost view = { λ p. p.count };

    ghost invariant = { λ p. p.count ≤ 16 };

    ghost inverse = { λ n. record { count = n } };
}

impl PieceCount {
    pub fn new(count: u32) -> PieceCount
        requires { count ≤ 16 }
        ensures { result ≡ count }
    {
        PieceCount { count }
    }

    pub fn count(self) -> u32
        ensures count { result ≡ self }
        ensures few { result ≤ 16 }
    {
        self.count
    }
}
