// The entries of a journal: what owners filed and what their meters read, within its limits.
ghost use Rattle.book.specs.Limits.{SpanWithin, FiguresWithin, ReadingWithin};

use crate::figures::{Filed, Metered};

#[derive(Clone, Copy)]
pub struct Filing {
    pub(crate) figures: Filed,
    ghost span: { SpanWithin figures.owner figures.first figures.last },
    ghost within: { FiguresWithin figures.ehv figures.nhv figures.load figures.peak },
}

#[derive(Clone, Copy)]
pub struct Reading {
    pub(crate) figures: Metered,
    ghost within: { ReadingWithin figures.month figures.owner figures.load figures.peak },
}

#[derive(Clone, Copy)]
pub enum Entry {
    Filing(Filing),
    Reading(Reading),
}
