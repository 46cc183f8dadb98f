// What is in force of one owner for a month.
use crate::entry::{Filing, Reading};

#[derive(Clone, Copy, Default)]
pub(crate) struct Standing {
    pub(crate) filing: Option<Filing>,
    pub(crate) reading: Option<Reading>,
}
