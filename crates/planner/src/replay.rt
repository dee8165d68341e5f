// A whole list of calls at once.
ghost use Rattle.std.specs.Prelude.{◌≡◌, IfOk};
ghost use Rattle.model.specs.Of.{of};
ghost use Rattle.planner.specs.Calls.{call_of};
ghost use Rattle.planner.specs.Claim.{Leads, Named, told, told_by};
ghost use Rattle.planner.specs.Record.{Recorded};

use crate::events::{Call, Event};
use crate::findings::Findings;
use crate::planner::Planner;
use model::roster::Roster;
use schedulability::test::Test;
use std::alloc::{AllocError, Global};
use tariffs::tariff::Tariff;

// What happened, and what the planner tells after it.
#[derive(Drop)]
pub struct Entry<C> {
    pub event: Event,
    pub findings: Findings<C>,
}

// Carries a call out.
fn record_call<Q: Test, C: Tariff>(planner: &mut Planner<Q, C>, call: Call) -> Entry<C>
    ensures call { call_of result.event ≡ call }
    ensures leads { Leads Q.Test C.Tariff planner.old result.event planner.new }
    ensures told { told_by result.findings ≡ told planner.new }
    ensures steps { Named planner.new.stands result.findings }
{
    let event = planner.carry_out(call);
    Entry {
        event,
        findings: planner.findings(),
    }
}

// Opens a planner, carries the calls out one after the other, and gives an entry for each.
pub fn replay<Q: Test + Drop, C: Tariff>(
    heap: Global,
    roster: Roster,
    test: Q,
    calls: &[Call],
) -> Result<Vec<Entry<C>>, AllocError>
    ensures { IfOk result (λ entries. Recorded Q.Test C.Tariff (of roster) test calls.now entries.items) }
{
    let mut entries = Vec::with_capacity(heap, calls.len())?;
    let mut planner = Planner::<Q, C>::open(roster, test);
    for call in calls {
        entries.push_reserved(record_call(&mut planner, *call));
    }
    Ok(entries)
}
