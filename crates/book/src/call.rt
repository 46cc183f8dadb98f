// The calls of a book as a script writes them down, and what they are answered.
use crate::figures::{Filed, Metered};
use crate::written::Written;

#[derive(Clone, Copy)]
pub enum Call {
    File(Filed),
    Read(Metered),
    Open { month: u16 },
    Post(Written),
    Withdraw(Written),
    State { month: u16 },
}

// Whether a month is settled, at which mark, and whether an entry touched it since.
#[derive(Clone, Copy, PartialEq, Eq, Debug)]
pub enum State {
    Unsettled,
    Due { mark: u16 },
    Current { mark: u16 },
}

#[derive(Clone, Copy, PartialEq, Eq, Debug)]
pub enum Reply {
    // The number of the entry.
    Entered {
        number: usize,
    },
    // The opening, and the draft list of sixteen places with the nets in its first.
    Opened {
        opening: Written,
        // As it is: a rule of the project: the draft list has sixteen places, whatever the owners' count.
        draft: [i64; 16],
    },
    Posted,
    Withdrawn,
    Stands(State),
}
