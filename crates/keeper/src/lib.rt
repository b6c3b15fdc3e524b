// What the house that runs is held to: each function here carries one theorem on its contract, and computes nothing.
#![tactic(auto)]

ghost use Rattle.auction.specs.Promise.{EnoughMemory, RefusalKeeps, Right, thin};
ghost use Rattle.keeper.specs.Keeping.{the_keeper};
ghost use Rattle.keeper.specs.Promises.{BehindStays, NeverThree, NoTrace, SealedAnswers};

// For every list of calls the answers are those of the written house, as far as this stage goes.
pub fn right_for_the_first_stage()
    ensures { Right thin the_keeper }
{}

// Whatever is called, the memory that was asked for at opening is enough, and every word fits.
pub fn memory_is_enough()
    ensures { EnoughMemory the_keeper }
{}

// A call that is turned away leaves every word as it was.
pub fn a_refused_call_keeps_the_memory()
    ensures { RefusalKeeps thin the_keeper }
{}

// What was opened is always a house: no call is refused by 3.
pub fn what_was_opened_stays_a_house()
    ensures { NeverThree the_keeper }
{}

// As long as a lot is open, what the others do there changes no answer that the keeper gives but those to their own calls.
pub fn answers_keep_bids_sealed()
    ensures { SealedAnswers thin the_keeper }
{}

// What lies behind the house's words stays as it is, and has no part in the answers.
pub fn what_lies_behind_stays()
    ensures { BehindStays }
{}

// Bidding twice leaves the very same memory, word for word, as if the first bids had never been.
pub fn bidding_twice_leaves_no_trace()
    ensures { NoTrace }
{}
