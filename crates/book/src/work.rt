// A month worked out from the owners' areas, the charge and the entries.
ghost use Rattle.std.specs.Prelude.{◌≡◌, map, length, IfOk, OnOk};
ghost use Rattle.book.specs.Answers.{nets_in, nets_answer, told};
ghost use Rattle.book.specs.Books.{areas_of};
ghost use Rattle.book.specs.Laws.{Balanced};
ghost use Rattle.book.specs.Meaning.{noted};
ghost use Rattle.book.specs.Workings.{Figures, worked, worked_out};

use crate::book::Book;
use crate::entry::Entry;
use crate::fault::BookFault;
use crate::nets::Nets;
use crate::netting::nets;
use crate::rows::{all_filed, all_read, all_rows, table_of};
use crate::standing::in_force;
use charges::Charge;

impl<C: Charge> Book<C> {
    // The nets of a month, or why there are none.
    // As it is: a type that keeps that nets are as many as the owners, and balance, is no plainer: it would hold the book beside them.
    pub(crate) fn work_out(&self, entries: &[Entry], month: u16) -> Result<Nets, BookFault>
        ensures value { told nets_in result ≡ nets_answer (worked_out (C.meaning self.now.charge) (areas_of self.now) month (map noted entries.now)) }
        ensures many { IfOk result (λ n. length (nets_in n) ≡ length (areas_of self.now)) }
        ensures balanced { OnOk result ((w : Figures) → worked_out (C.meaning self.now.charge) (areas_of self.now) month (map noted entries.now) ≡ worked w → Balanced (length (areas_of self.now)) w) }
    {
        let standings = in_force(&self.areas, entries, month);
        all_filed(&standings)?;
        all_read(&standings)?;
        let rows = all_rows(&self.areas, &standings);
        let table = table_of(&rows)?;
        let billing = self.charge.ask(month, &table)?;
        nets(&table, &billing.bills)
    }
}
