// What can end the program early.
use model::refusals::{RosterRefusal, StepsRefusal};
use planner::refusals::SearchRefusal;
use std::alloc::AllocError;
use std::io;
use thiserror::Error;

#[derive(Debug, Drop, Error)]
pub enum Trouble {
    #[error(transparent)]
    Steps(#[from] StepsRefusal),
    #[error(transparent)]
    Roster(#[from] RosterRefusal),
    #[error(transparent)]
    Search(#[from] SearchRefusal),
    #[error(transparent)]
    Memory(#[from] AllocError),
    #[error(transparent)]
    Io(#[from] io::Error),
}
