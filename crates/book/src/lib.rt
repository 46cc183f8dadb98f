// The book of a settlement office: what owners file and meters read, and the bills that follow.
#![tactic(auto)]

mod book;
mod call;
mod current;
mod ending;
mod entering;
mod entry;
mod fault;
mod figures;
mod filing;
mod limits;
mod nets;
mod netting;
mod open;
mod opening;
mod post;
mod risen;
mod rows;
mod script;
mod standing;
mod standings;
mod state;
mod utility;
mod work;
mod writing;
mod written;

pub use book::Book;
pub use call::{Call, Reply, State};
pub use entry::{Entry, Filing, Reading};
pub use fault::BookFault;
pub use figures::{Filed, Metered};
pub use opening::Opening;
pub use script::replay;
pub use written::Written;
