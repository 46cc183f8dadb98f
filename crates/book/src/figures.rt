// What an owner files and what its meters read, before the book looks at any limit.

// An owner's yearly requirement for existing and for new facilities, and what it files of load and peak, from a first to a
// last month.
#[derive(Clone, Copy, PartialEq, Eq, Debug, Default)]
pub struct Filed {
    pub owner: u8,
    pub first: u16,
    pub last: u16,
    pub ehv: i64,
    pub nhv: i64,
    pub load: u32,
    pub peak: u32,
}

// An owner's load and peak in a month.
#[derive(Clone, Copy, PartialEq, Eq, Debug, Default)]
pub struct Metered {
    pub month: u16,
    pub owner: u8,
    pub load: u32,
    pub peak: u32,
}
