// A script of the office: the set-up of a book and the calls to make, read from text.
#![tactic(auto)]

mod calls;
mod command;
mod draft;
mod fault;
mod lines;
mod number;
mod script;
mod width;
mod words;

pub use fault::{Unread, Wrong};
pub use lines::read_script;
pub use script::{Layer, Plain, Script};
