// Prints what the library says of a sample of two tasks under each of its nine sets, and then a refusal.
#![tactic(auto)]

mod trouble;

use model::kinds::Task;
use model::refusals::Refusal;
use model::roster::Roster;
use sample::{FEED, STROBE, shared};
use schedulability::density::Density;
use schedulability::margin::Margin;
use schedulability::pair::Pair;
use schedulability::response::Response;
use schedulability::test::Test;
use tariffs::charge::charge;
use tariffs::energy::Energy;
use tariffs::paired::Paired;
use tariffs::peak::Peak;
use timing::windows::{all_meet, windows};
use trouble::Trouble;

// No roster takes it: its deadline is above its period.
const LATE: Task = Task {
    priority: 3,
    cycles: 1_000,
    period: 2_000,
    deadline: 3_000,
    jitter: 0,
    floor: None,
};

// What prints, and the roster that it prints of.
#[derive(Drop)]
struct Tour<'a> {
    rt: &'a HostRuntime,
    roster: Roster,
}

// The set of a number, of three steps for each of two tasks.
// Two digits in base 3, as sets are numbered; to walk an odometer would be longer.
fn set_of(number: u8) -> [u8; 2] {
    [number / 3, number % 3]
}

// A bool prints as true or false, and a type with a Display of its own would be longer than this line.
fn word(yes: bool) -> &'static str {
    if yes { "yes" } else { "no" }
}

impl<'a> Tour<'a> {
    fn print_windows(&self, number: u8) -> Result<(), Trouble> {
        let set = set_of(number);
        let [first, second] = set;
        let mut found = [0; 2];
        windows(&self.roster, &set, &mut found)?;
        let [w, v] = found;
        let verdict = if all_meet(&self.roster, &set) {
            "all deadlines are met"
        } else {
            "a deadline is missed"
        };
        println!(self.rt; "set {number}: steps {first} {second}, windows {w} {v}, {verdict}")?;
        Ok(())
    }

    fn print_tests(&self, number: u8) -> Result<(), Trouble> {
        let margin = Margin {
            percent: 10,
            below: Response,
        };
        let both = Pair {
            first: Response,
            second: Density,
        };
        let set = set_of(number);
        let response = word(Response.ask(&self.roster, &set));
        let density = word(Density.ask(&self.roster, &set));
        let spare = word(margin.ask(&self.roster, &set));
        let pair = word(both.ask(&self.roster, &set));
        println!(self.rt;
            "  response {response}, density {density}, response with 10 percent {spare}, both {pair}"
        )?;
        Ok(())
    }

    fn print_charges(&self, number: u8) -> Result<(), Trouble> {
        let set = set_of(number);
        let energy: Energy = charge(&self.roster, &set);
        let peak: Peak = charge(&self.roster, &set);
        let paired: Paired<Energy, Peak> = charge(&self.roster, &set);
        println!(self.rt; "  energy {energy}, peak {peak}, energy then peak {paired}")?;
        Ok(())
    }

    fn print_sets(&self) -> Result<(), Trouble> {
        println!(self.rt; "a window of 0 says that the task misses its deadline")?;
        for number in 0..9u8 {
            self.print_windows(number)?;
            self.print_tests(number)?;
            self.print_charges(number)?;
        }
        Ok(())
    }

    // The density test passes no roster with sections, so it is asked again without them.
    fn print_without_sections(&mut self) -> Result<(), Trouble> {
        self.roster.strike_section(1, 0)?;
        self.roster.strike_section(2, 0)?;
        println!(self.rt; "without its sections")?;
        for number in 0..9u8 {
            println!(self.rt; "set {number}")?;
            self.print_tests(number)?;
        }
        Ok(())
    }

    fn print_bad_entry(&mut self) -> Result<(), Trouble> {
        if let Err(refusal) = self.roster.enter(LATE) {
            let number = refusal.number();
            println!(self.rt;
                "a task with period 2000 and deadline 3000: refusal {number}, {refusal}"
            )?;
        }
        Ok(())
    }
}

fn main(rt: HostRuntime) -> Result<(), Trouble> {
    let roster = shared::<Trouble>(STROBE, FEED)?;
    let mut tour = Tour { rt: &rt, roster };
    tour.print_sets()?;
    tour.print_without_sections()?;
    tour.print_bad_entry()
}
