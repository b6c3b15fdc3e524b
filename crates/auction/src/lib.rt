// What the auction promises: each function here carries one theorem on its contract, and computes nothing. docs/THEOREMS.md is their index.
#![tactic(auto)]

ghost use Rattle.auction.specs.Promise.{TruthIsBest, Sealed, BestOfAll, NotMoreThanBid, NeverLoses, RaisingKeeps};
ghost use Rattle.auction.specs.Promise.{ClosedStays, LotsApart, LastCounts, TurnedAway};
ghost use Rattle.auction.specs.Laws.{NoTieRuleRewardsLying, RaisingKeepsPlace, AnyFirst, TwoGroups, UnwantedPieces, SettledApart, SettledOnPieces, ManyGroups};
ghost use Rattle.auction.specs.Answers.{TruthInCalls, FairResults};
ghost use Rattle.auction.specs.Worked.{AllComeOut};

pub mod faster;

// Whatever the others bid, no bids gain a bidder more than its true ones do.
pub fn nobody_gains_by_lying()
    ensures { TruthIsBest }
{}

// The same over calls: whatever else is called, and however often and whenever a bidder bids on a lot, its true bids get it no less, by the answers.
pub fn no_calls_gain_by_lying()
    ensures { TruthInCalls }
{}

// Nor does any other rule for ties make lying pay, be it by the time of the bids.
pub fn no_tie_rule_rewards_lying()
    ensures { NoTieRuleRewardsLying }
{}

// As long as a lot is open, what the others do there changes no answer but those to their own calls.
pub fn bids_are_sealed()
    ensures { Sealed }
{}

// The allocation fits, comes to the best, and none that fits comes to more.
pub fn no_allocation_comes_to_more()
    ensures { BestOfAll }
{}

// Nobody pays more than it bid, and who gets nothing pays nothing.
pub fn nobody_pays_more_than_it_bid()
    ensures { NotMoreThanBid }
{}

// What a truthful bidder gets is worth what it pays.
pub fn the_truthful_never_lose()
    ensures { NeverLoses }
{}

// Both are so of what a bidder is answered: no more is paid than was bid, nothing for nothing, and no more than what is got is worth to who bids the truth.
pub fn results_are_fair()
    ensures { FairResults }
{}

// Raising the price of the bid that was taken changes neither the pieces nor the payment.
pub fn raising_keeps_pieces_and_payment()
    ensures { RaisingKeeps }
{}

// And it is that same bid, by its place, that is taken.
pub fn raising_keeps_the_bid_taken()
    ensures { RaisingKeepsPlace }
{}

// No call changes a lot that is closed.
pub fn a_closed_lot_stays()
    ensures { ClosedStays }
{}

// Bids on one lot change no other.
pub fn lots_stand_apart()
    ensures { LotsApart }
{}

// Who bids again is as if the earlier bids had never been.
pub fn the_last_bids_count()
    ensures { LastCounts }
{}

// A call that is turned away changes no later answer.
pub fn a_refused_call_changes_nothing()
    ensures { TurnedAway }
{}

// The best of all is had with any one bidder asked first.
pub fn any_bidder_may_be_asked_first()
    ensures { AnyFirst }
{}

// The best of two groups is the most that the sum of their bests comes to, over all ways to part the free pieces between them.
pub fn two_groups_part_the_pieces()
    ensures { TwoGroups }
{}

// Taking away pieces that no bid names changes neither welfare nor allocation nor payments.
pub fn pieces_nobody_wants_do_not_matter()
    ensures { UnwantedPieces }
{}

// A group of bidders whose pieces nobody else wants is settled by itself: welfare adds up, and each gets and pays the same, ties included.
pub fn groups_apart_are_settled_apart()
    ensures { SettledApart }
{}

// The same with the group given by a set of pieces: it is settled on those, and the others on the rest.
pub fn a_group_is_settled_on_its_pieces()
    ensures { SettledOnPieces }
{}

// The same of any number of groups, given by a number for each bidder.
pub fn many_groups_are_settled_apart()
    ensures { ManyGroups }
{}

// The worked lots come out as their table says.
pub fn worked_lots_come_out()
    ensures { AllComeOut }
{}
