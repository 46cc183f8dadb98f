// Why a script cannot be read.
ghost use Rattle.std.specs.Prelude.{◌≡◌};
ghost use Rattle.script.specs.Scripts.{unread_at};
ghost use Rattle.script.specs.declared.fault.Stop.TheVariants.{Memory, Wrong as stopped};

use std::alloc::{AllocError, AllocFailed};
use std::fmt;

#[derive(Clone, Copy, PartialEq, Eq, Debug)]
pub enum Wrong {
    // The first word is no command.
    UnknownCommand,
    // The word behind `charge` is no kind of charge.
    UnknownCharge,
    TooFew,
    TooMany,
    NoNumber,
    // The number is outside what its place can hold.
    DoesNotFit,
    // No book gives an opening of a month above 359.
    NoOpening,
    // A set-up command that was given already.
    Repeated,
    // A fourth layer.
    FourthLayer,
    // A set-up command after a call.
    LateSetUp,
    // A call, or the end of the script, before the owners are given.
    NoOwners,
    // A layer, a call, or the end of the script, before the charge is given.
    NoCharge,
}

// What a whole script meets.
#[derive(Clone, Copy, PartialEq, Eq, Debug)]
pub enum Unread {
    // The line, counted from 1, and what is wrong with it.
    Line { line: usize, wrong: Wrong },
    // No memory was free.
    Memory,
}

// What one line of it meets.
#[derive(Clone, Copy)]
pub(crate) enum Stop {
    Wrong(Wrong),
    Memory,
}

impl Stop {
    // What a line meets, told with its number.
    pub(crate) fn at_line(self, line: usize) -> Unread
        ensures { result ≡ unread_at line self }
    {
        match self {
            Stop::Wrong(wrong) => Unread::Line { line, wrong },
            Stop::Memory => Unread::Memory,
        }
    }
}

// As it is: a derived From is no plainer: it says nothing of the fault that `?` passes up, which clauses name.
impl From<Wrong> for Stop {
    ghost from_gives = { λ wrong r. r ≡ stopped wrong };

    fn from(wrong: Wrong) -> Stop {
        Stop::Wrong(wrong)
    }
}

impl From<AllocError> for Stop {
    ghost from_gives = { λ _ r. r ≡ Memory };

    fn from(_error: AllocError) -> Stop {
        Stop::Memory
    }
}

impl<T: Drop> From<AllocFailed<T>> for Stop {
    ghost from_gives = { λ _ r. r ≡ Memory };

    fn from(_refused: AllocFailed<T>) -> Stop {
        Stop::Memory
    }
}

impl fmt::Display for Wrong {
    fn fmt<W: fmt::Write>(&self, f: &mut fmt::Formatter<W>) -> fmt::Result {
        f.write_str(match *self {
            Wrong::UnknownCommand => "unknown command",
            Wrong::UnknownCharge => "unknown kind of charge",
            Wrong::TooFew => "too few numbers",
            Wrong::TooMany => "too many numbers",
            Wrong::NoNumber => "a word that is no number",
            Wrong::DoesNotFit => "a number that does not fit",
            Wrong::NoOpening => "no book gives an opening of a month above 359",
            Wrong::Repeated => "this part of the set-up was given already",
            Wrong::FourthLayer => "more than three layers",
            Wrong::LateSetUp => "the set-up comes before all calls",
            Wrong::NoOwners => "no owners are given yet",
            Wrong::NoCharge => "no charge is given yet",
        })
    }
}

impl fmt::Display for Unread {
    fn fmt<W: fmt::Write>(&self, f: &mut fmt::Formatter<W>) -> fmt::Result {
        match *self {
            Unread::Line { line, wrong } => write!(f, "line {line}: {wrong}"),
            Unread::Memory => f.write_str("no memory"),
        }
    }
}
