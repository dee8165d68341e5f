// Prints two searches for the cheapest set of a sample.
#![tactic(auto)]

mod search;
mod trouble;

use sample::{FEED, STROBE, shared};
use search::Searches;
use trouble::Trouble;

fn main(rt: HostRuntime) -> Result<(), Trouble> {
    let roster = shared::<Trouble>(STROBE, FEED)?;
    let searches = Searches { rt: &rt, roster };
    searches.print()
}
