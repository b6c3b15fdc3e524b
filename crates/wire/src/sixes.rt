// Laws of bids as six bytes each. These functions compute nothing: a call brings the law of its contract to the caller's proof.
ghost use Rattle.std.specs.Prelude.{◌≡◌, ℕ, ◌+◌, ◌*◌, ◌/◌, ◌<◌, ◌≤◌, [], ◌∷◌, length, take, drop, slice_index_or};
ghost use Rattle.auction.specs.Bids.{no_bid};
ghost use Rattle.bundles.specs.Offers.{meant};
ghost use Rattle.wire.specs.Bytes.{bid_in, bids_bytes, bids_in, put, spelled};

use bundles::Bid;

// There are as many bids as the count says.
pub fn so_many_are_read(bytes: &[u8])
    ensures { (n : ℕ) → length (bids_in n bytes.now) ≡ n }
{}

// Each is in its six bytes.
pub fn one_by_one(bytes: &[u8])
    ensures { (n i : ℕ) → i < n → slice_index_or (bids_in n bytes.now) i no_bid ≡ bid_in (drop (6 * i) bytes.now) }
{}

// The bids are in their own bytes, and what is behind them is not looked at.
pub fn the_rest_is_not_read(bytes: &[u8])
    ensures same { (n : ℕ) → 6 * n ≤ length bytes.now → bids_in (length (take (6 * n) bytes.now) / 6) (take (6 * n) bytes.now) ≡ bids_in n bytes.now }
    ensures long { (n : ℕ) → 6 * n ≤ length bytes.now → length (take (6 * n) bytes.now) ≡ 6 * n }
{}

// A set in two bytes and a price in four behind them are a bid.
pub fn a_set_and_a_price_are_a_bid(out: &[u8], at: usize, bid: Bid)
    requires { at + 6 ≤ length out.now }
    ensures { put (put out.now at (spelled 2 bid.on.mask)) (at + 2) (spelled 4 bid.price) ≡ put out.now at (bids_bytes (meant bid ∷ [])) }
{}
