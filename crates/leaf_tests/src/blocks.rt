//! Takes and gives in turn, with answers worked out by hand.
use block_space::{BlockSpace, TakeFault};

#[test]
fn four_blocks(rt: HostRuntime) {
    let Ok(mut space) = BlockSpace::new(rt.alloc(), 4) else {
        return assert!(rt; false);
    };
    let Ok(first) = space.take(3) else {
        return assert!(rt; false);
    };
    assert!(rt; first.as_slice() == [0, 1, 2].as_slice());
    assert!(rt; space.take(2) == Err(TakeFault::NoRoom { free: 1 }));
    assert_eq!(rt; space.free(), 1);
    let Ok(()) = space.reserve(1) else {
        return assert!(rt; false);
    };
    space.give(1);
    assert_eq!(rt; space.free(), 2);
    let Ok(second) = space.take(2) else {
        return assert!(rt; false);
    };
    assert!(rt; second.as_slice() == [1, 3].as_slice());
    assert_eq!(rt; space.free(), 0);
}

#[test]
fn given_back_in_any_order(rt: HostRuntime) {
    let Ok(mut space) = BlockSpace::new(rt.alloc(), 6) else {
        return assert!(rt; false);
    };
    let Ok(all) = space.take(6) else {
        return assert!(rt; false);
    };
    assert!(rt; all.as_slice() == [0, 1, 2, 3, 4, 5].as_slice());
    let Ok(()) = space.reserve(3) else {
        return assert!(rt; false);
    };
    space.give(4);
    space.give(0);
    space.give(2);
    let Ok(lowest) = space.take(2) else {
        return assert!(rt; false);
    };
    assert!(rt; lowest.as_slice() == [0, 2].as_slice());
    assert!(rt; space.take(2) == Err(TakeFault::NoRoom { free: 1 }));
    let Ok(none) = space.take(0) else {
        return assert!(rt; false);
    };
    assert!(rt; none.is_empty());
    assert_eq!(rt; space.free(), 1);
}
