// The limits of months and entries.

// Months are counted from 0.
pub(crate) const LAST_MONTH: u16 = 359;

// A journal takes at most so many entries.
pub(crate) const MOST_ENTRIES: u16 = 8192;
