// Lines, the rolls that keep them, and the archive they are written to.
#![tactic(auto)]

mod archive_roll;
mod fault;
mod field;
mod line;
mod page;
mod record;
mod roll;
mod summaries;
mod sums;
mod table_roll;
mod tally;

pub use archive_roll::ArchiveRoll;
pub use fault::{ArchiveFault, RollFault};
pub use line::Line;
pub use record::{RECORD_LEN, read_record};
pub use roll::Roll;
pub use summaries::summary;
pub use table_roll::TableRoll;
