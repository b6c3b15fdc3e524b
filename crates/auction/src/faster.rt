// Laws by which a lot can be settled with less work than all ways to part its pieces. As in the crate's root, each function carries one, and computes nothing.
ghost use Rattle.auction.specs.Faster.{PackedPieces, PackedSets, Joined, LastAdded, OneMore, KeptBids, KeptBest, LoneBidder};

// Moving the pieces that are bid for together changes neither welfare nor allocation nor payments.
pub fn pieces_may_be_moved_together()
    ensures { PackedPieces }
{}

// A set that has all those pieces is then everything of so many, and no other pieces count.
pub fn only_those_pieces_are_moved()
    ensures { PackedSets }
{}

// The best without one bidder is the most that those before it and those after it have together, over all ways to part the free pieces between them.
pub fn before_and_after_are_joined()
    ensures { Joined }
{}

// A bidder behind the last may be asked first.
pub fn the_last_may_be_asked_first()
    ensures { LastAdded }
{}

// So the best of the first bidders is had from that of one bidder less, and tables can be made from the first bidder on.
pub fn one_more_is_asked_first()
    ensures { OneMore }
{}

// A bid that another of the same bidder covers, on no other pieces and as dear or dearer, adds nothing to the most that can be had.
pub fn covered_bids_add_nothing()
    ensures { KeptBids }
{}

// Nor do such bids change the best of all bidders, or of all but one. Which bid is taken goes by the bids as they were made.
pub fn covered_bids_do_not_matter()
    ensures { KeptBest }
{}

// Where all others bid nothing, a bidder gets the first of its bids that offers the most, and pays nothing.
pub fn a_lone_bidder_pays_nothing()
    ensures { LoneBidder }
{}
