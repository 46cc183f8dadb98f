// Writing an opening down.
ghost use Rattle.std.specs.Prelude.{◌≡◌, if◌then◌else◌, Some, None, nat_lt};
ghost use Rattle.std.specs.Option.{option_map};
ghost use Rattle.book.specs.Scripts.{written_as};

use crate::limits::LAST_MONTH;
use crate::written::Written;
use std::fmt;

impl Written {
    // The opening of this month at so many entries; none of a month above 359.
    pub fn new(month: u16, count: u16) -> Option<Written>
        ensures { option_map written_as result ≡ (if nat_lt 359 month then None else Some (month, count)) }
    {
        if month > LAST_MONTH {
            return None;
        }
        Some(Written { month, count })
    }

    // The month that was opened.
    pub fn month(&self) -> u16
        ensures { result ≡ self.now.month }
    {
        self.month
    }

    // How many entries it was opened at.
    pub fn count(&self) -> u16
        ensures { result ≡ self.now.count }
    {
        self.count
    }
}

impl fmt::Display for Written {
    ghost use Rattle.std.specs.Prelude.{Some};
    ghost use Rattle.book.specs.Scripts.{written_text};

    ghost output = { λ w. Some (written_text w) };

    fn fmt<W: fmt::Write>(&self, f: &mut fmt::Formatter<W>) -> fmt::Result {
        let Written { month, count } = *self;
        write!(f, "{month} {count}")
    }
}
