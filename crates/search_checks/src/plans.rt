use model::kinds::Task;
use model::roster::Roster;
use planner::events::{Call, Change, Event, Progress};
use planner::findings::Findings;
use planner::mark::Mark;
use planner::planner::Planner;
use planner::replay::replay;
use sample::{FEED, LATER, SOONER, STROBE, answer, free, section, shared};
use schedulability::density::Density;
use schedulability::margin::Margin;
use schedulability::pair::Pair;
use schedulability::response::Response;
use schedulability::test::Test;
use std::process::Abort;
use std::test::Fail;
use tariffs::energy::Energy;
use tariffs::peak::Peak;

fn opened() -> Result<Planner<Response, Energy>, Fail> {
    Ok(Planner::open(shared::<Fail>(STROBE, FEED)?, Response))
}

fn progress(mark: Mark, settled: u64, strides: u32) -> Progress {
    Progress {
        mark,
        settled,
        strides,
    }
}

// The shown set's number and charge.
fn found(findings: &Findings<Energy>) -> Option<(u64, u64)> {
    findings
        .shown
        .map(|shown| (shown.number(), shown.charge.amount))
}

// Searches to the end, and checks the strides that it takes and what is found.
fn check_search<Q: Test + Drop>(
    rt: &impl Abort,
    roster: Roster,
    test: Q,
    strides: u32,
    best: Option<(u64, u64)>,
) -> Result<(), Fail> {
    let mut planner = Planner::<Q, Energy>::open(roster, test);
    let mark = if best.is_some() {
        Mark::Best
    } else {
        Mark::Nothing
    };
    assert_eq!(rt; planner.plan(1_000_000)?, progress(mark, 9, strides));
    assert_eq!(rt; found(&planner.close()), best);
    Ok(())
}

#[test]
fn in_two_goes(rt: HostRuntime) -> Result<(), Fail> {
    let mut planner = opened()?;
    assert_eq!(rt; planner.plan(6)?, progress(Mark::Open, 6, 6));
    assert_eq!(rt; planner.plan(1)?, progress(Mark::Best, 9, 1));
    assert_eq!(rt; planner.plan(1)?, progress(Mark::Best, 9, 0));
    let findings = planner.close();
    assert_eq!(rt; (findings.mark, findings.settled), (Mark::Best, 9));
    assert_eq!(rt; found(&findings), Some((4, 2_028_000_000)));
    Ok(())
}

// The window of task 1 is 1,250 where both run at the fastest step.
#[test]
fn only_the_fastest_set_or_none(rt: HostRuntime) -> Result<(), Fail> {
    let missed = Task {
        deadline: 1_249,
        ..STROBE
    };
    let met = Task {
        deadline: 1_250,
        ..STROBE
    };
    check_search(&rt, shared::<Fail>(missed, FEED)?, Response, 1, None)?;
    check_search(
        &rt,
        shared::<Fail>(met, FEED)?,
        Response,
        3,
        Some((0, 3_888_000_000)),
    )
}

#[test]
fn allowances(rt: HostRuntime) -> Result<(), Fail> {
    let mut planner = opened()?;
    assert_eq!(rt; planner.plan(6)?, progress(Mark::Open, 6, 6));
    assert_eq!(rt; answer(planner.plan(0)), 14);
    assert_eq!(rt; answer(planner.plan(1_000_001)), 14);
    let mut list = [9; 2];
    assert_eq!(rt; answer(planner.show(&mut list)), 0);
    assert_eq!(rt; list, [1, 1]);
    assert_eq!(rt; planner.plan(1_000_000)?, progress(Mark::Best, 9, 1));
    Ok(())
}

// A short list is refused first, and no place past the tasks is written.
#[test]
fn showing(rt: HostRuntime) -> Result<(), Fail> {
    let mut planner = opened()?;
    let mut short = [9; 1];
    let mut list = [9; 3];
    assert_eq!(rt; answer(planner.show(&mut short)), 15);
    assert_eq!(rt; answer(planner.show(&mut list)), 17);
    assert_eq!(rt; list, [9, 9, 9]);
    assert_eq!(rt; planner.plan(3)?, progress(Mark::Open, 3, 3));
    assert_eq!(rt; answer(planner.show(&mut short)), 15);
    assert_eq!(rt; short, [9]);
    assert_eq!(rt; answer(planner.show(&mut list)), 0);
    assert_eq!(rt; list, [0, 2, 9]);
    Ok(())
}

// There is one set, the empty one.
#[test]
fn no_tasks(rt: HostRuntime) -> Result<(), Fail> {
    let mut planner = Planner::<Response, Energy>::open(Roster::new(), Response);
    assert_eq!(rt; answer(planner.show(&mut [])), 17);
    assert_eq!(rt; planner.plan(1)?, progress(Mark::Best, 1, 1));
    let mut list = [9; 1];
    assert_eq!(rt; answer(planner.show(&mut list)), 0);
    assert_eq!(rt; list, [9]);
    assert_eq!(rt; found(&planner.close()), Some((0, 0)));
    Ok(())
}

#[test]
fn refused_changes_change_nothing(rt: HostRuntime) -> Result<(), Fail> {
    let mut planner = opened()?;
    assert_eq!(rt; planner.plan(6)?, progress(Mark::Open, 6, 6));
    assert_eq!(rt; answer(planner.enter(FEED)), 7);
    assert_eq!(rt; answer(planner.alter(LATER)), 5);
    assert_eq!(rt; answer(planner.strike(3)), 8);
    assert_eq!(rt; answer(planner.enter_section(section(2, 0, 1))), 11);
    assert_eq!(rt; answer(planner.strike_section(2, 1)), 12);
    assert_eq!(rt; planner.plan(1)?, progress(Mark::Best, 9, 1));
    assert_eq!(rt; found(&planner.close()), Some((4, 2_028_000_000)));
    Ok(())
}

// Nothing is shown, and the next stride is the first.
fn check_restarted(rt: &impl Abort, planner: &mut Planner<Response, Energy>) -> Result<(), Fail> {
    assert_eq!(rt; answer(planner.show(&mut [9; 3])), 17);
    assert_eq!(rt; planner.plan(1)?, progress(Mark::Open, 1, 1));
    Ok(())
}

#[test]
fn accepted_changes_start_again(rt: HostRuntime) -> Result<(), Fail> {
    let mut planner = opened()?;
    assert_eq!(rt; planner.plan(6)?, progress(Mark::Open, 6, 6));
    assert_eq!(rt; answer(planner.alter(SOONER)), 0);
    check_restarted(&rt, &mut planner)?;
    assert_eq!(rt;
        answer(planner.enter(Task {
            priority: 3,
            ..FEED
        })),
        0
    );
    check_restarted(&rt, &mut planner)?;
    assert_eq!(rt; answer(planner.enter_section(section(3, 0, 1))), 0);
    check_restarted(&rt, &mut planner)?;
    assert_eq!(rt; answer(planner.strike_section(3, 0)), 0);
    check_restarted(&rt, &mut planner)?;
    assert_eq!(rt; answer(planner.strike(3)), 0);
    assert_eq!(rt; planner.plan(1_000_000)?, progress(Mark::Best, 9, 6));
    assert_eq!(rt; found(&planner.close()), Some((1, 2_648_000_000)));
    Ok(())
}

#[test]
fn a_floor_shuts_out_the_cheaper_set(rt: HostRuntime) -> Result<(), Fail> {
    let fast = Task {
        floor: Some(0),
        ..STROBE
    };
    check_search(
        &rt,
        shared::<Fail>(STROBE, FEED)?,
        Response,
        7,
        Some((4, 2_028_000_000)),
    )?;
    check_search(
        &rt,
        shared::<Fail>(fast, FEED)?,
        Response,
        4,
        Some((2, 2_096_000_000)),
    )
}

// The sets 0, 1 and 3 pass, and the peak of each is 180.
#[test]
fn equal_charges_keep_the_smaller_number(rt: HostRuntime) -> Result<(), Fail> {
    let mut planner = Planner::<Response, Peak>::open(shared::<Fail>(STROBE, SOONER)?, Response);
    assert_eq!(rt; planner.plan(1_000_000)?, progress(Mark::Best, 9, 6));
    let findings = planner.close();
    let Some(shown) = findings.shown else {
        return Err(Fail::new("nothing is shown"));
    };
    assert_eq!(rt; (shown.number(), shown.charge.voltage), (0, 180));
    Ok(())
}

#[test]
fn a_search_with_a_margin(rt: HostRuntime) -> Result<(), Fail> {
    let margin = Margin {
        percent: 30,
        below: Response,
    };
    check_search(
        &rt,
        shared::<Fail>(STROBE, FEED)?,
        margin,
        6,
        Some((1, 2_648_000_000)),
    )
}

// With this deadline set 4 passes the response test and not the density test.
#[test]
fn searches_with_density_and_with_both(rt: HostRuntime) -> Result<(), Fail> {
    let strobe = Task {
        deadline: 3_000,
        ..STROBE
    };
    let both = Pair {
        first: Response,
        second: Density,
    };
    check_search(
        &rt,
        free::<Fail>(strobe, FEED)?,
        Response,
        7,
        Some((4, 2_028_000_000)),
    )?;
    check_search(
        &rt,
        free::<Fail>(strobe, FEED)?,
        Density,
        6,
        Some((1, 2_648_000_000)),
    )?;
    check_search(
        &rt,
        free::<Fail>(strobe, FEED)?,
        both,
        6,
        Some((1, 2_648_000_000)),
    )?;
    check_search(&rt, shared::<Fail>(strobe, FEED)?, both, 1, None)
}

const CALLS: [Call; 6] = [
    Call::Plan(0),
    Call::Plan(3),
    Call::Change(Change::Strike(3)),
    Call::Change(Change::Alter(SOONER)),
    Call::Change(Change::Alter(LATER)),
    Call::Plan(1_000_000),
];

const ANSWERS: [u8; 6] = [14, 0, 8, 0, 5, 0];

fn event_answer(event: Event) -> u8 {
    match event {
        Event::Changed(_, changed) => answer(changed),
        Event::Planned(_, planned) => answer(planned),
    }
}

// What a planner tells after some calls.
fn after(calls: &[Call]) -> Result<Findings<Energy>, Fail> {
    let mut planner = opened()?;
    for call in calls {
        let _ = planner.carry_out(*call);
    }
    Ok(planner.close())
}

#[test]
fn a_replay_tells_what_the_calls_tell(rt: HostRuntime) -> Result<(), Fail> {
    let roster = shared::<Fail>(STROBE, FEED)?;
    let entries = replay::<Response, Energy>(rt.alloc(), roster, Response, &CALLS)?;
    assert_eq!(rt; entries.len(), 6);
    for (made, (entry, number)) in entries.into_iter().zip(ANSWERS).enumerate() {
        assert_eq!(rt; event_answer(entry.event), number);
        assert_eq!(rt; entry.findings, after(&CALLS[..=made])?);
    }
    Ok(())
}
