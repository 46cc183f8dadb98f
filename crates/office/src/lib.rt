// The office: a script that has been read is run through the book, and its answers are laid out as text.
#![tactic(auto)]

mod answers;
mod halt;
mod refusal;
mod serve;
mod session;

pub use refusal::{Refusal, refusal_of};
pub use serve::serve_script;
pub use session::{Session, hold};
