// One bidder's table from the next one's: bid by bid, and for each bid over the sets that hold it.
ghost use Rattle.std.specs.Prelude.{◌≡◌, length};
ghost use Rattle.bundles.specs.Offers.{all_meant, meant};
ghost use Rattle.solver.specs.Tables.{Filled, Offered, Small};

use crate::sums::raise_sum;
use bundles::Bid;

// Makes a bidder's table of the next one's: for each set the most that comes of it with one at most of these bids, of which there may be any number.
// Two slices and no struct of both, here and where a sum is raised: the one is written while the other is read.
pub fn fill(to: &mut [u32], from: &[u32], bids: &[Bid])
    requires same { length to.old ≡ length from.now }
    requires small { Small from.now }
    ensures { Filled from.now to.new (all_meant bids.now) }
{
    copy_table(to, from);
    for &bid in bids {
        offer(to, from, bid);
    }
}

// With no bid each set brings what the next one's table says. Word by word, since `copy_from_slice` would have the archive of the exports ask C's library
// for `memmove`, and it asks for `memcpy` and `memset` alone.
fn copy_table(to: &mut [u32], from: &[u32])
    requires { length to.old ≡ length from.now }
    ensures { to.new ≡ from.now }
{
    for (i, &word) in from.iter().enumerate() {
        to[i] = word;
    }
}

// For each set that holds the bid's pieces: what it offers with what there is for the rest of the set, if that is more than there was.
// As many steps as there are sets that hold it: a half for each of its pieces.
fn offer(to: &mut [u32], from: &[u32], bid: Bid)
    requires same { length to.old ≡ length from.now }
    requires small { Small from.now }
    ensures { Offered from.now to.old to.new (meant bid) }
{
    let sets = to.len() / 2;
    let on = usize::from(bid.on.mask);
    let mut set = on;
    // The sets that hold it are no range, and `successors(Some(on), |set| Some((set + 1) | on)).take_while(|&set| set < sets)` would be no plainer.
    while set < sets {
        raise_sum(to, from, set, on, bid.price);
        set = (set + 1) | on;
    }
}
