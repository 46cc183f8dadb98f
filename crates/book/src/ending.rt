// What an opening tells, and ending it without a posting.
ghost use Rattle.std.specs.Prelude.{◌≡◌, ℕ, List, [], ◌∷◌, ◌++◌, Ok, Option};
ghost use Rattle.rolls.specs.Rows.{Row};
ghost use Rattle.book.specs.Entries.{Noted};
ghost use Rattle.book.specs.Histories.{Event, Terms, event_of, withdraws, withdrawn};
ghost use Rattle.book.specs.Laws.{Accounts};

use crate::opening::Opening;

impl Opening {
    // The month that was opened.
    pub fn month(&self) -> u16
        ensures { result ≡ self.now.written.month }
    {
        self.written.month()
    }

    // How many entries it was worked out from.
    pub fn count(&self) -> u16
        ensures { result ≡ self.now.written.count }
    {
        self.written.count()
    }

    // Ends the opening and does nothing else.
    pub fn withdraw(mut self)
        ensures law { (t : Terms) (h : List Event) (marks : List (Option ℕ)) (entries : List Noted) (room : ℕ) (rows : List Row) (free : ℕ) → Accounts t h marks entries room rows free → Accounts t (h ++ event_of (withdraws self.written.month self.written.count) (Ok withdrawn) ∷ []) marks entries room rows free }
    {
        self.spent = true;
    }
}
