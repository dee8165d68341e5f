// What can end the program early.
use model::refusals::{CallRefusal, RosterRefusal, StepsRefusal};
use std::io;
use thiserror::Error;

#[derive(Debug, Drop, Error)]
pub enum Trouble {
    #[error(transparent)]
    Steps(#[from] StepsRefusal),
    #[error(transparent)]
    Roster(#[from] RosterRefusal),
    #[error(transparent)]
    Call(#[from] CallRefusal),
    #[error(transparent)]
    Io(#[from] io::Error),
}
