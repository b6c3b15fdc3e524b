// What a text of a lot should have had at the place where it can't be read on.

#[derive(Clone, Copy, Debug, PartialEq, Eq)]
pub enum Expected {
    // how many pieces the lot has, 1 to 16
    Pieces,
    Colon,
    // a set of pieces, or `nothing`
    Bidder,
    // a set of pieces, behind `or`
    Set,
    PieceOfLot,
    // a piece that the set does not have yet
    PieceOnce,
    // a blank, and a price
    PriceBehindSet,
    Price,
    // a blank, and a set
    SetBehindOr,
    // no `or` behind the sixteenth bid of a bidder
    SixteenBids,
    // no `;` behind the thirty-second bidder
    ThirtyTwoBidders,
    // a blank and `or`, `;` or the end
    OrOrEnd,
    // `;` or the end
    End,
}
