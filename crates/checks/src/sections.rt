use crate::small::*;
use model::kinds::Task;
use sample::{answer, section};

#[test]
fn bounds_of_a_section(rt: HostRuntime) {
    let mut roster = small();
    assert_eq!(rt; answer(roster.enter_section(section(256, 0, 1))), 4);
    assert_eq!(rt; answer(roster.enter_section(section(3, 8, 1))), 4);
    assert_eq!(rt; answer(roster.enter_section(section(3, 0, 0))), 4);
    assert_eq!(rt; answer(roster.enter_section(section(4, 0, 999_999_999))), 8);
    assert_eq!(rt; answer(roster.enter_section(section(3, 0, 11))), 10);
    assert_eq!(rt; answer(roster.enter_section(section(3, 7, 10))), 0);
    assert_eq!(rt; answer(roster.enter_section(section(3, 7, 1))), 11);
    assert_eq!(rt; answer(roster.enter_section(section(3, 7, 11))), 10);
    assert_eq!(rt; roster.sections().len(), 1);
}

#[test]
fn sections_hold_their_owner_up(rt: HostRuntime) {
    let mut roster = small();
    assert_eq!(rt; answer(roster.enter_section(section(3, 1, 10))), 0);
    assert_eq!(rt;
        answer(roster.alter(Task {
            cycles: 9,
            ..plain(3)
        })),
        10
    );
    assert_eq!(rt;
        answer(roster.alter(Task {
            cycles: 9,
            ..plain(7)
        })),
        0
    );
    assert_eq!(rt; answer(roster.strike(3)), 0);
    assert_eq!(rt; roster.sections().len(), 0);
}

#[test]
fn striking_a_section(rt: HostRuntime) {
    let mut roster = small();
    assert_eq!(rt; answer(roster.enter_section(section(3, 1, 10))), 0);
    assert_eq!(rt; answer(roster.enter_section(section(7, 1, 10))), 0);
    assert_eq!(rt; answer(roster.strike_section(3, 8)), 4);
    assert_eq!(rt; answer(roster.strike_section(4, 1)), 8);
    assert_eq!(rt; answer(roster.strike_section(3, 2)), 12);
    assert_eq!(rt; answer(roster.strike_section(3, 1)), 0);
    assert_eq!(rt; answer(roster.strike_section(3, 1)), 12);
    assert_eq!(rt; roster.sections().len(), 1);
}

#[test]
fn a_thirty_third_section(rt: HostRuntime) {
    let mut roster = small();
    assert_eq!(rt; answer(roster.enter(plain(100))), 0);
    assert_eq!(rt; answer(roster.enter(plain(101))), 0);
    assert_eq!(rt; answer(roster.enter(plain(102))), 0);
    for resource in 0..8u32 {
        assert_eq!(rt; answer(roster.enter_section(section(3, resource, 1))), 0);
        assert_eq!(rt; answer(roster.enter_section(section(7, resource, 1))), 0);
        assert_eq!(rt; answer(roster.enter_section(section(100, resource, 1))), 0);
        assert_eq!(rt; answer(roster.enter_section(section(101, resource, 1))), 0);
    }
    assert_eq!(rt; answer(roster.enter_section(section(102, 0, 1))), 13);
    assert_eq!(rt; answer(roster.enter_section(section(101, 0, 1))), 11);
}
