use crate::small::*;
use model::kinds::{Step, Task};
use model::roster::Roster;
use sample::answer;

fn loads(clock: u32, voltage: u32, switch: u32) -> u8 {
    let first = Step {
        clock: 2_000_000,
        voltage: 500,
    };
    let second = Step { clock, voltage };
    answer(Roster::new().load(&[first, second], switch))
}

#[test]
fn step_tables(rt: HostRuntime) {
    assert_eq!(rt; answer(Roster::new().load(&[], 0)), 1);
    assert_eq!(rt; answer(Roster::new().load(&[STEPS[0]; 9], 9_000_000)), 1);
    assert_eq!(rt; loads(1_000, 1, 1_000_000), 0);
    assert_eq!(rt; loads(999, 1, 0), 2);
    assert_eq!(rt; loads(1_000, 0, 0), 2);
    assert_eq!(rt; loads(1_000, 1, 1_000_001), 2);
    assert_eq!(rt; loads(2_000_000, 1, 0), 3);
    assert_eq!(rt; loads(1_999_999, 500, 0), 0);
    assert_eq!(rt; loads(1_999_999, 501, 0), 2);
}

fn entered(task: Task) -> u8 {
    answer(small().enter(task))
}

#[test]
fn bounds_of_a_task(rt: HostRuntime) {
    assert_eq!(rt; entered(plain(255)), 0);
    assert_eq!(rt; entered(plain(256)), 4);
    assert_eq!(rt;
        entered(Task {
            cycles: 0,
            ..plain(0)
        }),
        4
    );
    assert_eq!(rt;
        entered(Task {
            cycles: 100_000_000,
            ..plain(0)
        }),
        0
    );
    assert_eq!(rt;
        entered(Task {
            cycles: 100_000_001,
            ..plain(0)
        }),
        4
    );
    assert_eq!(rt;
        entered(Task {
            period: 0,
            ..plain(0)
        }),
        4
    );
    assert_eq!(rt;
        entered(Task {
            period: 100_000_001,
            ..plain(0)
        }),
        4
    );
    assert_eq!(rt;
        entered(Task {
            deadline: 0,
            ..plain(0)
        }),
        4
    );
}

#[test]
fn numbers_that_are_compared(rt: HostRuntime) {
    assert_eq!(rt;
        entered(Task {
            deadline: 999_999_999,
            ..plain(0)
        }),
        5
    );
    assert_eq!(rt;
        entered(Task {
            jitter: 501,
            ..plain(0)
        }),
        5
    );
    assert_eq!(rt;
        entered(Task {
            floor: Some(2),
            ..plain(0)
        }),
        6
    );
    assert_eq!(rt;
        entered(Task {
            floor: Some(2),
            ..plain(3)
        }),
        6
    );
    assert_eq!(rt; entered(plain(3)), 7);
}

#[test]
fn tasks_stand_in_priority_order(rt: HostRuntime) {
    let mut roster = small();
    assert_eq!(rt;
        answer(roster.enter(Task {
            jitter: 500,
            floor: None,
            ..plain(5)
        })),
        0
    );
    assert_eq!(rt; answer(roster.enter(plain(255))), 0);
    assert_eq!(rt; answer(roster.enter(plain(0))), 0);
    assert!(rt; roster.tasks().is_sorted_by_key(|task| task.priority));
    assert_eq!(rt; roster.tasks().len(), 5);
}

#[test]
fn a_seventeenth_task(rt: HostRuntime) {
    let mut roster = small();
    for priority in 100..114u32 {
        assert_eq!(rt; answer(roster.enter(plain(priority))), 0);
    }
    assert_eq!(rt; answer(roster.enter(plain(1))), 9);
    assert_eq!(rt; answer(roster.enter(plain(7))), 7);
}

#[test]
fn alterations_and_strikes(rt: HostRuntime) {
    let mut roster = small();
    assert_eq!(rt;
        answer(roster.alter(Task {
            cycles: 11,
            ..plain(3)
        })),
        0
    );
    assert_eq!(rt; answer(roster.alter(plain(4))), 8);
    assert_eq!(rt; answer(roster.alter(plain(256))), 4);
    assert_eq!(rt; answer(roster.strike(256)), 4);
    assert_eq!(rt; answer(roster.strike(4)), 8);
    assert_eq!(rt; answer(roster.strike(3)), 0);
    assert_eq!(rt; answer(roster.strike(3)), 8);
    assert_eq!(rt; roster.tasks().len(), 1);
}
