// Sets of pieces, at the edges.
use bundles::{Bundle, Full, UpTo};

#[test]
fn a_set_fits_a_lot_that_has_its_highest_piece(rt: HostRuntime) {
    let top = Bundle { mask: 32768 };
    assert!(rt; top.fits(16));
    assert!(rt; top.fits(4294967295));
    assert!(rt; !top.fits(15));
    assert!(rt; Bundle { mask: 0 }.fits(0));
    assert!(rt; !Bundle { mask: 1 }.fits(0));
}

#[test]
fn sets_are_joined_and_taken_away(rt: HostRuntime) {
    let left = Bundle { mask: 3 };
    let right = Bundle { mask: 6 };
    assert_eq!(rt; left.joined(right).mask, 7);
    assert_eq!(rt; left.without(right).mask, 1);
    assert!(rt; left.shares(right));
    assert!(rt; !left.shares(Bundle { mask: 4 }));
    assert!(rt; Bundle { mask: 2 }.is_within(left));
    assert!(rt; !left.is_within(right));
    assert!(rt; left.is_same(Bundle { mask: 3 }));
    assert!(rt; left.has(1));
    assert!(rt; !left.has(2));
    assert!(rt; !left.has(16));
    assert!(rt; Bundle { mask: 0 }.is_empty());
}

#[test]
fn a_list_takes_so_many_and_not_one_more(rt: HostRuntime) {
    let mut list: UpTo<u8, 2> = UpTo::new();
    assert!(rt; list.push(7));
    assert!(rt; list.try_push(8).is_ok());
    assert!(rt; list.try_push(9) == Err(Full));
    assert!(rt; !list.push(9));
    assert!(rt; list.as_slice() == [7, 8].as_slice());
    let none: UpTo<u8, 2> = UpTo::default();
    assert!(rt; none.as_slice().is_empty());
}
