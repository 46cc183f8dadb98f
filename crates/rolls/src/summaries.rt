// The page that a bookkeeper reads: the sums of an archive's lines by month and owner.
ghost use Rattle.std.specs.Prelude.{◌≡◌, ◌≤◌, ◌++◌, length, drop, Some, None};
ghost use Rattle.rolls.specs.Meaning.{refusal};
ghost use Rattle.rolls.specs.Pages.{Fits, Lays};
ghost use Rattle.rolls.specs.Summaries.{summary_text, pair_text, closing};
ghost use Rattle.rolls.specs.Tallies.{month_sums, all_sums};

use crate::fault::ArchiveFault;
use crate::page::Page;
use crate::sums::{OWNERS, Sums};
use crate::tally::tally;

impl Page<'_> {
    // A pair's line: month, owner and sum.
    fn pair(&mut self, month: usize, owner: usize, sum: i64)
        requires { Fits self.old (pair_text month owner sum) }
        ensures { Lays self.old (pair_text month owner sum) self.new }
    {
        self.number(month);
        self.text(b" ");
        self.number(owner);
        self.text(b" ");
        self.number(sum);
        self.text(b"\n");
    }

    // The lines of a month's pairs.
    fn month(&mut self, month: usize, owners: &[Option<i64>; OWNERS])
        requires { Fits self.old (month_sums month owners.now) }
        ensures { Lays self.old (month_sums month owners.now) self.new }
    {
        for (owner, sum) in owners.iter().enumerate() {
            if let Some(sum) = sum {
                self.pair(month, owner, *sum);
            }
        }
    }

    // The lines of all pairs.
    fn sums(&mut self, sums: &Sums)
        requires { Fits self.old (all_sums sums.now) }
        ensures { Lays self.old (all_sums sums.now) self.new }
    {
        for (month, owners) in sums.months.iter().enumerate() {
            self.month(month, owners);
        }
    }

    // The last line of an archive that was read to its end.
    fn ended(&mut self, count: usize)
        requires { Fits self.old (closing count None) }
        ensures { Lays self.old (closing count None) self.new }
    {
        self.text(b"end ");
        self.number(count);
        self.text(b"\n");
    }

    // The last line where a record could not be read.
    fn stopped(&mut self, fault: ArchiveFault)
        requires { Fits self.old (closing 0 (Some (refusal fault))) }
        ensures { Lays self.old (closing 0 (Some (refusal fault))) self.new }
    {
        self.text(b"stop ");
        self.number(fault.place());
        self.text(b" ");
        self.number(fault.number());
        self.text(b"\n");
    }
}

// The longest archive that is summed.
const MOST_BYTES: usize = 65_529;

// Lays the summary of an archive into a page, keeps the page's rest, and answers how many bytes the text has.
pub fn summary(archive: &[u8], page: &mut [u8; 65536]) -> usize
    ensures count { result ≡ length (summary_text archive.now) }
    ensures text { page.new ≡ summary_text archive.now ++ drop result page.old }
    ensures page_suffices { result ≤ 65536 }
{
    let mut page = Page::new(page);
    if archive.len() > MOST_BYTES {
        page.text(b"too long\n");
        return page.end;
    }
    let mut sums = Sums::new();
    let read = tally(archive, &mut sums);
    page.text(b"month owner cents\n");
    page.sums(&sums);
    match read {
        Ok(count) => page.ended(count),
        Err(fault) => page.stopped(fault),
    }
    page.end
}
