// The laws of the byte formats: each function here carries one on its contract, and computes nothing. They stand apart
// from `wire` because their proofs are long and its must-fail edits prove it again each time.
#![tactic(auto)]

ghost use Rattle.formats.specs.Laws.{AnswersComeBack, AnswersFit, BytesComeBack, CallsComeBack, OneRowACall, PlaceIsLongest, ReadIsReadable};

// Reading the bytes of a call gives it back.
pub fn calls_come_back()
    ensures { CallsComeBack }
{}

// Writing a call that was read gives its bytes back.
pub fn bytes_come_back()
    ensures { BytesComeBack }
{}

// Two different rows of bytes are never the same call.
pub fn a_call_is_one_row_of_bytes()
    ensures { OneRowACall }
{}

// What was read has only fields that a call can carry.
pub fn what_is_read_is_readable()
    ensures { ReadIsReadable }
{}

// The place of a refusal is the longest beginning that some call has.
pub fn the_place_is_the_longest_beginning()
    ensures { PlaceIsLongest }
{}

// Reading the bytes of an answer gives it back.
pub fn answers_come_back()
    ensures { AnswersComeBack }
{}

// Every answer fits the bytes that are lent for it.
pub fn answers_fit()
    ensures { AnswersFit }
{}
