// The answers to a script's calls as text, one line for each.
use crate::refusal::Refusal;
use book::{BookFault, Call, Reply, State};
use rolls::{ArchiveRoll, RECORD_LEN, Roll};
use std::alloc::AllocError;
use std::fmt;
use std::fmt::Write;

// A call of a book of so many owners, and what it answered; a reply comes to a call of its own kind alone.
#[derive(Clone, Copy)]
struct Answer<'a> {
    owners: usize,
    call: &'a Call,
    answer: &'a Result<Reply, BookFault>,
}

impl fmt::Display for Answer<'_> {
    fn fmt<W: fmt::Write>(&self, f: &mut fmt::Formatter<W>) -> fmt::Result {
        match (self.call, self.answer) {
            (_, Err(fault)) => write!(f, "{}", Refusal::from(*fault)),
            (Call::File(_), Ok(Reply::Entered { number })) => write!(f, "filed {number}"),
            (_, Ok(Reply::Entered { number })) => write!(f, "read {number}"),
            // The nets stand in the draft list's first places, one for each owner.
            (_, Ok(Reply::Opened { opening, draft })) => {
                write!(f, "opened {opening}")?;
                for net in draft.iter().take(self.owners) {
                    write!(f, " {net}")?;
                }
                Ok(())
            }
            (Call::Post(opening) | Call::Withdraw(opening), Ok(Reply::Posted)) => {
                write!(f, "posted {opening}")
            }
            (Call::Post(opening) | Call::Withdraw(opening), Ok(Reply::Withdrawn)) => {
                write!(f, "withdrawn {opening}")
            }
            (Call::State { month }, Ok(Reply::Stands(state))) => match state {
                State::Unsettled => write!(f, "unsettled {month}"),
                State::Due { mark } => write!(f, "due {month} {mark}"),
                State::Current { mark } => write!(f, "current {month} {mark}"),
            },
            _ => Ok(()),
        }
    }
}

// The answers to all calls, in order.
pub(crate) fn lay_answers(
    text: &mut String,
    owners: usize,
    calls: &[Call],
    answers: &[Result<Reply, BookFault>],
) -> Result<(), AllocError> {
    for (call, answer) in calls.iter().zip(answers) {
        let answer = Answer {
            owners,
            call,
            answer,
        };
        writeln!(text, "{answer}")?;
    }
    Ok(())
}

// The roll's lines, behind their count.
pub(crate) fn lay_lines(text: &mut String, roll: &ArchiveRoll<'_>) -> Result<(), AllocError> {
    let count = roll.written().len() / RECORD_LEN;
    writeln!(text, "lines {count}")?;
    for line in (0..count).filter_map(|place| roll.line(place)) {
        writeln!(text, "{line}")?;
    }
    Ok(())
}
