// What a charge answers: the owners' parts of the year's requirement in dollars, and their bills in cents.

use crate::amounts::Amounts;

#[derive(Clone, Copy)]
pub struct Billing {
    pub parts: Amounts,
    pub bills: Amounts,
}

// What an owner pays for each MWh and each MW, in hundredths of a cent.
#[derive(Clone, Copy, PartialEq, Eq, Debug)]
pub struct Rates {
    pub mwh: i64,
    pub mw: i64,
}

// The highest rates that are billed, in hundredths of a cent: for each MWh, and for each MW.
pub(crate) const HIGHEST_FOR_MWH: u64 = 10_000_000;

pub(crate) const HIGHEST_FOR_MW: u64 = 1_000_000_000;

// The largest part in dollars, and the largest bill in cents.
pub(crate) const LARGEST_AMOUNT: u64 = 10_000_000_000_000;
