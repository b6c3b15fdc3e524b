// What the lent memory is held to: each function here carries one theorem on its contract, and computes nothing.
ghost use Rattle.ledger.specs.Laws.{BidsLand, LotsLand, NoWordTwice, OpenedIsNew, RowsComeBack, TimeLands, WordsPromised};

// What was opened is the new house, with its limits and nothing in it.
#[tactic(auto, using(crate::proofs::LedgerLaws::opened_is_new))]
pub fn what_was_opened_is_the_new_house()
    ensures { OpenedIsNew }
{}

// A house asks for 8 bytes a bid, 32 a lot, 524,288 a bidder and 2,097,152 more, and never for more.
#[tactic(auto, using(crate::proofs::LedgerLaws::words_promised))]
pub fn no_more_memory_is_asked_for()
    ensures { WordsPromised }
{}

// Two rows never share a word, nor do two lots, nor a row and a lot.
#[tactic(auto, using(crate::proofs::LedgerLaws::no_word_twice))]
pub fn no_word_is_shared()
    ensures { NoWordTwice }
{}

// A row that was written gives its bids back, and no other word is changed; what is written over leaves no trace.
#[tactic(auto, using(crate::proofs::LedgerLaws::rows_come_back))]
pub fn a_row_comes_back_and_changes_no_other()
    ensures { RowsComeBack }
{}

// Writing a row is bidding: in the house that the words hold these bids stand in the place of those before, and nothing else is changed.
#[tactic(auto, using(crate::proofs::LedgerLaws::bids_land))]
pub fn bids_land_in_the_house()
    ensures { BidsLand }
{}

// Adding a lot is opening it: the house has one lot more, on which nobody has bid, and nothing else is changed.
#[tactic(auto, using(crate::proofs::LedgerLaws::lots_land))]
pub fn lots_land_in_the_house()
    ensures { LotsLand }
{}

// Setting the time changes nothing else.
#[tactic(auto, using(crate::proofs::LedgerLaws::time_lands))]
pub fn time_lands_in_the_house()
    ensures { TimeLands }
{}
