// What a lot comes to and what it brings.
ghost use Rattle.std.specs.Prelude.{◌≡◌, ◌^◌, ◌<◌, ◌≤◌, length, sum_by};
ghost use Rattle.solver.specs.Choosing.{price_of as price};

use solver::{Share, price_of};

// The prices of all bids taken, added up.
pub fn prices_of(shares: &[Share]) -> u64
    requires { length shares.now ≤ 32 }
    ensures { result ≡ sum_by (λ s. price s.taken) shares.now }
{
    shares.iter().map(|share| price_of(share.taken)).sum()
}

// All payments, added up.
pub fn payments_of(shares: &[Share]) -> u64
    requires { sum_by (λ s. s.paid) shares.now < 2 ^ 64 }
    ensures { result ≡ sum_by (λ s. s.paid) shares.now }
{
    shares.iter().map(|share| share.paid).sum()
}
