// Why a call is refused. Each case has its number, by which people and files name it.
ghost use Rattle.std.specs.Prelude.{◌≡◌, ℕ};
ghost use Rattle.model.specs.Refusals.{steps_number, roster_number, call_number};

use thiserror::Error;

// A refusal of any kind. Each kind casts itself: a generic function cannot cast an enum.
pub trait Refusal: Copy {
    ghost number_of: { Self → ℕ };

    fn number(self) -> u8
        ensures { result ≡ number_of self };
}

// A step table that breaks a rule.
#[derive(Clone, Copy, PartialEq, Eq, Debug, Error)]
pub enum StepsRefusal {
    #[error("a step table has 1 to 8 steps")]
    Count = 1,
    #[error("a clock, a voltage or the switch time is out of range")]
    Range = 2,
    #[error("a clock does not fall, or a voltage rises")]
    Falling = 3,
}

// A task or a section that breaks a rule of the roster it is meant for.
#[derive(Clone, Copy, PartialEq, Eq, Debug, Error)]
pub enum RosterRefusal {
    #[error("a number is past its bound")]
    Bound = 4,
    #[error("a deadline is above its period, or a jitter above its deadline")]
    Deadline = 5,
    #[error("a floor is no step of the table")]
    Floor = 6,
    #[error("another task has that priority")]
    Taken = 7,
    #[error("no task has that priority")]
    Absent = 8,
    #[error("sixteen tasks stand")]
    TasksFull = 9,
    #[error("a section has more cycles than its owner")]
    Overlong = 10,
    #[error("that task has a section on that resource")]
    SectionTaken = 11,
    #[error("that task has no section on that resource")]
    SectionAbsent = 12,
    #[error("thirty-two sections stand")]
    SectionsFull = 13,
}

// A question that cannot be answered as it was asked.
#[derive(Clone, Copy, PartialEq, Eq, Debug, Error)]
pub enum CallRefusal {
    #[error("a list has fewer places than there are tasks")]
    ShortList = 15,
    #[error("a set names a step that the table does not have")]
    NoSuchStep = 16,
}

impl Refusal for StepsRefusal {
    ghost number_of = { steps_number };

    fn number(self) -> u8 {
        self as u8
    }
}

impl Refusal for RosterRefusal {
    ghost number_of = { roster_number };

    fn number(self) -> u8 {
        self as u8
    }
}

impl Refusal for CallRefusal {
    ghost number_of = { call_number };

    fn number(self) -> u8 {
        self as u8
    }
}
