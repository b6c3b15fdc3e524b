// Sums of 64 bits in lent words, two words each, low then high. A table is a slice of them, one for each set of pieces, by the set's number.
ghost use Rattle.std.specs.Prelude.{◌≡◌, ◌+◌, ◌-◌, ◌*◌, ◌^◌, ◌<◌, ◌≤◌, length};
ghost use Rattle.auction.specs.Bids.{larger as greater};
ghost use Rattle.solver.specs.Tables.{Put, sum_in, table_words};
ghost use Rattle.solver.specs.Welfare.{table_at};

const WORD: u64 = 1 << 32;

// How many words a table for so many pieces has.
pub fn words_of(pieces: u32) -> usize
    requires { pieces ≤ 16 }
    ensures { result ≡ table_words pieces }
{
    2usize << pieces
}

// How many words the tables of so many bidders have, with the one behind the last.
pub fn words_for(pieces: u32, bidders: usize) -> usize
    requires { (pieces ≤ 16) × (bidders ≤ 32) }
    ensures { result ≡ table_at pieces (bidders + 1) }
{
    (bidders + 1) * words_of(pieces)
}

pub fn get_sum(table: &[u32], set: usize) -> u64
    requires { 2 * set + 1 < length table.now }
    ensures { result ≡ sum_in table.now set }
{
    let low = table[2 * set];
    let high = table[2 * set + 1];
    u64::from(low) + WORD * u64::from(high)
}

pub fn put_sum(table: &mut [u32], set: usize, sum: u64)
    requires { 2 * set + 1 < length table.old }
    ensures { Put table.old table.new set sum }
{
    // A cast may lose no bits, so each half is cut out first.
    table[2 * set] = (sum % WORD) as u32;
    table[2 * set + 1] = (sum / WORD) as u32;
}

// Puts the offer, a price with the sum for the rest of the set, in the place of the set's sum, if it is more.
pub fn raise_sum(to: &mut [u32], from: &[u32], set: usize, on: usize, price: u32)
    requires held { on ≤ set }
    requires in_both { (2 * set + 1 < length to.old) × (2 * set + 1 < length from.now) }
    requires small { sum_in from.now (set - on) < 2 ^ 63 }
    ensures { Put to.old to.new set (greater (price + sum_in from.now (set - on)) (sum_in to.old set)) }
{
    let offered = u64::from(price) + get_sum(from, set - on);
    let old = get_sum(to, set);
    put_sum(to, set, offered.max(old));
}
