// Prints two searches for the cheapest set of the sample, a line for each call.
use crate::trouble::Trouble;
use model::roster::Roster;
use planner::events::{Call, Change};
use planner::planner::Planner;
use planner::replay::replay;
use sample::{LATER, SOONER};
use schedulability::response::Response;
use tariffs::energy::Energy;

// The best set is found in the first go, and known to be the best in the second.
const IN_TWO_GOES: [Call; 2] = [Call::Plan(6), Call::Plan(1)];

const ALTERED: [Call; 5] = [
    Call::Plan(3),
    Call::Change(Change::Alter(SOONER)),
    Call::Plan(2),
    Call::Change(Change::Alter(LATER)),
    Call::Plan(1_000_000),
];

// What prints, and the roster that is searched.
#[derive(Drop)]
pub(crate) struct Searches<'a> {
    pub(crate) rt: &'a HostRuntime,
    pub(crate) roster: Roster,
}

impl<'a> Searches<'a> {
    fn print_calls(&self, calls: &[Call]) -> Result<(), Trouble> {
        let entries = replay::<Response, Energy>(self.rt.alloc(), self.roster, Response, calls)?;
        for entry in &entries {
            println!(self.rt; "{}; {}", entry.event, entry.findings)?;
        }
        Ok(())
    }

    // The calls of the altered search made one by one, on a planner that is then closed.
    fn print_record(&self) -> Result<(), Trouble> {
        let mut planner = Planner::<Response, Energy>::open(self.roster, Response);
        planner.plan(3)?;
        planner.alter(SOONER)?;
        planner.plan(2)?;
        let _ = planner.alter(LATER);
        planner.plan(1_000_000)?;
        let mut list = [9; 3];
        planner.show(&mut list)?;
        let [first, second, rest] = list;
        println!(self.rt; "show: steps {first} {second}, the third place is left at {rest}")?;
        let findings = planner.close();
        println!(self.rt; "closed: {findings}")?;
        Ok(())
    }

    pub(crate) fn print(&self) -> Result<(), Trouble> {
        println!(self.rt; "the cheapest set by energy that passes the response test")?;
        self.print_calls(&IN_TWO_GOES)?;
        println!(self.rt;
            "with task 2 altered on the way to a deadline of 7999, and then of 10001"
        )?;
        self.print_calls(&ALTERED)?;
        println!(self.rt; "the same calls made one by one")?;
        self.print_record()
    }
}
