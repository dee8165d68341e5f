// The search: one text for every test and every tariff.
ghost use Rattle.std.specs.Prelude.{◌≡◌, ℕ, ◌+◌, ◌<◌, ◌≤◌, ◌⊎◌, length, Some, Decides};
ghost use Rattle.model.specs.Of.{of};
ghost use Rattle.model.specs.Refusals.{roster_number, Outcome};
ghost use Rattle.planner.specs.Changes.{ChangeRule, left_by};
ghost use Rattle.planner.specs.Claim.{Named, told, told_by};
ghost use Rattle.planner.specs.Search.{cheaper as cheaper_of, looked_at};
ghost use Rattle.planner.specs.Shown.{found, found_in};
ghost use Rattle.planner.specs.State.{State, InBounds, sets_of, sought, Walked};

use super::Planner;
use crate::events::{Change, Progress};
use crate::findings::{Findings, Shown};
use crate::mark::Mark;
use model::refusals::RosterRefusal;
use model::roster::Roster;
use odometer::wheels::Odometer;
use schedulability::test::Test;
use tariffs::charge::charge;
use tariffs::tariff::Tariff;

// An odometer for the sets of a roster, at the first.
pub(super) fn first_set(roster: &Roster) -> Odometer
    ensures base { result.base ≡ length (of roster.now).steps }
    ensures places { result.places ≡ length (of roster.now).tasks }
    ensures number { result.number ≡ 0 }
{
    // A table has at most eight steps, so the cast loses nothing: try_from would add an arm that never runs.
    Odometer::new(roster.steps().len() as u8, roster.tasks().len())
}

// A change stays an enum that one match carries out: it is kept on record, and the claim names it.
pub(super) fn apply(roster: &mut Roster, change: Change) -> Result<(), RosterRefusal>
    ensures { Outcome roster_number (ChangeRule (of roster.old) change) (of roster.old) (left_by (of roster.old) change) (of roster.new) result }
{
    match change {
        Change::Enter(task) => roster.enter(task),
        Change::Alter(task) => roster.alter(task),
        Change::Strike(priority) => roster.strike(priority),
        Change::EnterSection(section) => roster.enter_section(section),
        Change::StrikeSection(owner, resource) => roster.strike_section(owner, resource),
    }
}

// What is shown stays unless the new set costs less.
fn cheaper<C: Tariff>(shown: Option<Shown<C>>, new: Shown<C>) -> Shown<C>
    ensures found { found result ≡ cheaper_of C.Amount.leq (found_in shown) (found new) }
    ensures either { (shown ≡ Some result) ⊎ (result ≡ new) }
{
    match shown {
        Some(old) if old.charge.at_most(&new.charge) => old,
        _ => new,
    }
}

impl<Q: Test, C: Tariff> Planner<Q, C> {
    // Whether the set that is next passes.
    fn next_passes(&self) -> bool
        ensures { Decides result ((sought Q.Test C.Tariff self.now).Passes self.now.search.settled) }
    {
        self.test.ask(&self.roster, self.sets.digits())
    }

    // The set that is next, with its charge.
    fn next_set(&self) -> Shown<C>
        ensures found { found result ≡ looked_at (sought Q.Test C.Tariff self.now) self.now.search.settled }
        ensures base { result.at.base ≡ length self.now.stands.steps }
        ensures places { result.at.places ≡ length self.now.stands.tasks }
    {
        Shown {
            at: self.sets,
            charge: charge(&self.roster, self.sets.digits()),
        }
    }

    // Looks at one set, and goes on to the next that is not settled by it: whatever walk led here is one stride longer.
    fn stride(&mut self)
        requires { self.old.search.settled < sets_of self.old.stands }
        ensures { (x : State Q C) (n : ℕ) → Walked Q.Test C.Tariff x n self.old → Walked Q.Test C.Tariff x (n + 1) self.new }
    {
        if self.next_passes() {
            self.shown = Some(cheaper(self.shown, self.next_set()));
            self.sets.advance(0);
        } else {
            self.sets.skip();
        }
    }

    // Whether a set is left to look at.
    fn is_open(&self) -> bool
        ensures left { Decides result (self.now.search.settled < sets_of self.now.stands) }
        ensures within { self.now.search.settled ≤ sets_of self.now.stands }
    {
        self.sets.number() < self.sets.total()
    }

    // Strides until all sets are settled, at most so many times; gives how many it made.
    pub(super) fn walk(&mut self, allowance: u32) -> u32
        ensures walked { Walked Q.Test C.Tariff self.old result self.new }
        ensures few { result ≤ allowance }
        ensures whole { result < allowance → self.new.search.settled ≡ sets_of self.new.stands }
    {
        for strides in 0..allowance {
            if !self.is_open() {
                return strides;
            }
            self.stride();
        }
        allowance
    }

    fn mark(&self) -> Mark
        ensures { result ≡ (told self.now).mark }
    {
        if self.is_open() {
            Mark::Open
        } else if self.shown.is_some() {
            Mark::Best
        } else {
            Mark::Nothing
        }
    }

    pub(super) fn progress(&self, strides: u32) -> Progress
        ensures mark { result.mark ≡ (told self.now).mark }
        ensures settled { result.settled ≡ (told self.now).settled }
        ensures strides { result.strides ≡ strides }
        ensures bounds { InBounds self.now }
    {
        Progress {
            mark: self.mark(),
            settled: self.sets.number(),
            strides,
        }
    }

    pub(crate) fn findings(&self) -> Findings<C>
        ensures told { told_by result ≡ told self.now }
        ensures steps { Named self.now.stands result }
        ensures bounds { InBounds self.now }
    {
        Findings {
            mark: self.mark(),
            settled: self.sets.number(),
            shown: self.shown,
        }
    }
}
