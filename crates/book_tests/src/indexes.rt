use queue_serials::{Full, Indexes};

/// Eight indexes are given, the lowest first; one that was given back is given again and goes on counting.
#[test]
fn an_index_goes_on_counting(rt: HostRuntime) {
    let mut indexes = Indexes::new(7);
    for index in 56..64u8 {
        match indexes.take() {
            Ok(taken) => assert_eq!(rt; taken.get(), index),
            Err(Full) => assert!(rt; false, "{index} was not live"),
        }
    }
    assert!(rt; indexes.take().is_err());
}

/// The numbers of an index rise over two contexts that have it one after the other.
#[test]
fn numbers_rise_over_two_lives(rt: HostRuntime) {
    let mut indexes = Indexes::new(0);
    let Ok(first) = indexes.take() else {
        return;
    };
    assert_eq!(rt; first.get(), 0);
    assert_eq!(rt; indexes.last(first), 0);
    assert_eq!(rt; indexes.next(first), 1);
    assert_eq!(rt; indexes.next(first), 2);
    indexes.give_back(first);
    let Ok(again) = indexes.take() else {
        return;
    };
    assert_eq!(rt; again.get(), 0);
    assert_eq!(rt; indexes.last(again), 2);
    assert_eq!(rt; indexes.next(again), 3);
}
