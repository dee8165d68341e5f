// Why a call of a planner that is no change of the roster is refused.
ghost use Rattle.planner.specs.Refusals.{search_number};

use model::refusals::Refusal;
use thiserror::Error;

// A call on the search that cannot be carried out.
#[derive(Clone, Copy, PartialEq, Eq, Debug, Error)]
pub enum SearchRefusal {
    #[error("an allowance is 1 to 1,000,000 strides")]
    Allowance = 14,
    #[error("a list has fewer places than there are tasks")]
    ShortList = 15,
    #[error("no set is shown")]
    NothingShown = 17,
}

impl Refusal for SearchRefusal {
    ghost number_of = { search_number };

    fn number(self) -> u8 {
        // std has no `From` of an enum for its number
        self as u8
    }
}
