use crate::small::*;
use model::kinds::Task;
use model::roster::Roster;
use sample::{answer, section};
use timing::windows::windows;

#[test]
fn lists_and_steps(rt: HostRuntime) {
    let roster = small();
    let mut out = [9; 3];
    assert_eq!(rt; answer(windows(&roster, &[0], &mut out)), 15);
    assert_eq!(rt; answer(windows(&roster, &[2, 2], &mut [0; 1])), 15);
    assert_eq!(rt; answer(windows(&roster, &[0, 2], &mut out)), 16);
    assert_eq!(rt; out, [9, 9, 9]);
    assert_eq!(rt; answer(windows(&roster, &[0, 1, 9], &mut out)), 0);
    assert_eq!(rt; out, [5, 15, 9]);
}

#[test]
fn no_tasks(rt: HostRuntime) {
    let mut out = [9; 1];
    assert_eq!(rt; answer(windows(&Roster::new(), &[], &mut out)), 0);
    assert_eq!(rt; out, [9]);
}

// A window is at least 1, so a task that may be released as late as its deadline misses it.
#[test]
fn jitter_up_to_the_deadline(rt: HostRuntime) {
    let mut roster = small();
    assert_eq!(rt;
        answer(roster.alter(Task {
            jitter: 500,
            ..plain(3)
        })),
        0
    );
    let mut out = [9; 2];
    assert_eq!(rt; answer(windows(&roster, &[0, 0], &mut out)), 0);
    assert_eq!(rt; out, [0, 10]);
}

// A task's own section does not block it; one of a less urgent owner does, where the ceilings meet.
#[test]
fn blocking(rt: HostRuntime) {
    let mut roster = small();
    let mut out = [0; 2];
    assert_eq!(rt; answer(roster.enter_section(section(3, 0, 8))), 0);
    assert_eq!(rt; answer(roster.enter_section(section(7, 1, 6))), 0);
    assert_eq!(rt; answer(windows(&roster, &[0, 1], &mut out)), 0);
    assert_eq!(rt; out, [5, 15]);
    assert_eq!(rt; answer(roster.enter_section(section(7, 0, 6))), 0);
    assert_eq!(rt; answer(windows(&roster, &[0, 1], &mut out)), 0);
    assert_eq!(rt; out, [11, 15]);
}

// Without a lower bound to start from, the iteration would take a hundred million turns here.
#[test]
fn a_processor_that_is_full(rt: HostRuntime) {
    let mut roster = Roster::new();
    let busy = Task {
        priority: 0,
        cycles: 1,
        period: 1,
        deadline: 1,
        jitter: 0,
        floor: None,
    };
    let starved = Task {
        priority: 1,
        cycles: 1,
        period: 100_000_000,
        deadline: 100_000_000,
        jitter: 0,
        floor: None,
    };
    assert_eq!(rt; answer(roster.enter(busy)), 0);
    assert_eq!(rt; answer(roster.enter(starved)), 0);
    let mut out = [9; 2];
    assert_eq!(rt; answer(windows(&roster, &[0, 0], &mut out)), 0);
    assert_eq!(rt; out, [1, 0]);
}
