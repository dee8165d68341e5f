use odometer::wheels::Odometer;

// The odometer of three steps and two tasks, gone on to a number below nine.
fn nine_sets(number: u64) -> Odometer {
    let mut sets = Odometer::new(3, 2);
    for _ in 0..number {
        sets.advance(0);
    }
    sets
}

// Where the walk goes on after a failure.
fn after_failure(number: u64) -> u64 {
    let mut sets = nine_sets(number);
    sets.skip();
    sets.number()
}

#[test]
fn most_urgent_task_first(rt: HostRuntime) {
    assert_eq!(rt; nine_sets(0).total(), 9);
    assert!(rt; nine_sets(5).digits() == [1u8, 2].as_slice());
    assert!(rt; nine_sets(6).digits() == [2u8, 0].as_slice());
    assert_eq!(rt; nine_sets(6).zeros(), 1);
}

#[test]
fn failures_skip_slower_sets(rt: HostRuntime) {
    assert_eq!(rt; after_failure(5), 6);
    assert_eq!(rt; after_failure(6), 9);
    assert_eq!(rt; after_failure(0), 9);
    assert_eq!(rt; after_failure(9), 9);
}

// No place makes one set, the empty one, and the greatest odometer fits 64 bits.
#[test]
fn smallest_and_greatest(rt: HostRuntime) {
    assert_eq!(rt; Odometer::new(8, 0).total(), 1);
    assert_eq!(rt; Odometer::new(1, 16).total(), 1);
    assert_eq!(rt; Odometer::new(8, 16).total(), 281_474_976_710_656);
    assert_eq!(rt; Odometer::new(9, 17).total(), 281_474_976_710_656);
    assert_eq!(rt; Odometer::new(0, 3).total(), 1);
}
