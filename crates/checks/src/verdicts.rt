use crate::small::*;
use model::kinds::Task;
use model::roster::Roster;
use sample::{answer, section};
use schedulability::density::Density;
use schedulability::floors::Floored;
use schedulability::margin::Margin;
use schedulability::pair::Pair;
use schedulability::response::Response;
use schedulability::test::Test;

// One step of 1,000 kHz, and one task that runs all the time.
fn full() -> Roster {
    let mut roster = Roster::new();
    let _ = roster.enter(Task {
        cycles: 100,
        period: 100,
        deadline: 100,
        jitter: 0,
        floor: None,
        ..plain(1)
    });
    roster
}

// What a test says of a list that is too short, of one that names no step, and of one with a place past the tasks.
fn said_of_lists<T: Test>(test: &T) -> [bool; 3] {
    let roster = full();
    [
        test.ask(&roster, &[]),
        test.ask(&roster, &[1]),
        test.ask(&roster, &[0, 9]),
    ]
}

#[test]
fn lists_that_are_no_sets(rt: HostRuntime) {
    assert_eq!(rt; said_of_lists(&Response), [false, false, true]);
    assert_eq!(rt; said_of_lists(&Density), [false, false, true]);
}

#[test]
fn no_tasks(rt: HostRuntime) {
    assert!(rt; Response.ask(&Roster::new(), &[]));
    assert!(rt; Density.ask(&Roster::new(), &[]));
}

// The whole processor is enough, and one release more is too much.
#[test]
fn density_up_to_the_whole(rt: HostRuntime) {
    let mut roster = full();
    assert!(rt; Density.ask(&roster, &[0]));
    assert_eq!(rt;
        answer(roster.enter(Task {
            jitter: 0,
            floor: None,
            ..plain(2)
        })),
        0
    );
    assert!(rt; !Density.ask(&roster, &[0, 0]));
}

#[test]
fn density_wants_no_jitter_and_no_section(rt: HostRuntime) {
    let mut roster = small();
    assert!(rt; !Density.ask(&roster, &[0, 0]));
    assert_eq!(rt;
        answer(roster.alter(Task {
            jitter: 0,
            ..plain(3)
        })),
        0
    );
    assert_eq!(rt;
        answer(roster.alter(Task {
            jitter: 0,
            ..plain(7)
        })),
        0
    );
    assert!(rt; Density.ask(&roster, &[0, 0]));
    assert_eq!(rt; answer(roster.enter_section(section(3, 0, 1))), 0);
    assert!(rt; !Density.ask(&roster, &[0, 0]));
}

// Whether the first step passes under a margin.
fn passes_with(percent: u32, roster: &Roster) -> bool {
    let margin = Margin {
        percent,
        below: Response,
    };
    margin.ask(roster, &[0])
}

#[test]
fn margins(rt: HostRuntime) {
    let mut roster = full();
    assert!(rt; passes_with(0, &roster));
    assert!(rt; !passes_with(1, &roster));
    assert_eq!(rt;
        answer(roster.alter(Task {
            cycles: 50,
            period: 100,
            deadline: 100,
            jitter: 0,
            floor: None,
            ..plain(1)
        })),
        0
    );
    assert!(rt; passes_with(100, &roster));
    assert!(rt; passes_with(4_000_000_000, &roster));
    let twice = Margin {
        percent: 50,
        below: Margin {
            percent: 50,
            below: Response,
        },
    };
    assert!(rt; !twice.ask(&roster, &[0]));
}

// Growth past the bound of cycles is a no, though the roster alone passes.
#[test]
fn margin_past_the_bound(rt: HostRuntime) {
    let mut roster = Roster::new();
    let long = Task {
        cycles: 99_009_901,
        period: 100_000_000,
        deadline: 100_000_000,
        jitter: 0,
        floor: None,
        ..plain(1)
    };
    assert_eq!(rt; answer(roster.enter(long)), 0);
    assert!(rt; Response.ask(&roster, &[0]));
    assert!(rt; !passes_with(1, &roster));
    assert_eq!(rt;
        answer(roster.alter(Task {
            cycles: 99_009_900,
            ..long
        })),
        0
    );
    assert!(rt; passes_with(1, &roster));
}

#[test]
fn both_or_none(rt: HostRuntime) {
    let mut roster = full();
    let both = Pair {
        first: Response,
        second: Density,
    };
    assert!(rt; both.ask(&roster, &[0]));
    assert_eq!(rt; answer(roster.enter_section(section(1, 0, 1))), 0);
    assert!(rt; Response.ask(&roster, &[0]));
    assert!(rt; !both.ask(&roster, &[0]));
}

// A floor is the slowest step allowed, and one without a floor may run at any.
#[test]
fn floors(rt: HostRuntime) {
    let mut roster = small();
    let floored = Floored { below: Response };
    assert_eq!(rt;
        answer(roster.alter(Task {
            floor: Some(0),
            ..plain(3)
        })),
        0
    );
    assert_eq!(rt;
        answer(roster.alter(Task {
            floor: None,
            ..plain(7)
        })),
        0
    );
    assert!(rt; Response.ask(&roster, &[1, 1]));
    assert!(rt; !floored.ask(&roster, &[1, 1]));
    assert!(rt; floored.ask(&roster, &[0, 1]));
    assert!(rt; !floored.ask(&roster, &[0]));
}
