// The book as a library: three owners file and are metered, a month is opened and billed, and its lines are printed.
#![tactic(auto)]

use anyhow::{Context, anyhow};
use book::{Book, BookFault, Entry, Filed, Metered};
use charges::{Charge, Volumetric};
use rolls::{ArchiveRoll, Roll};

// What an owner files for all months.
fn filed(owner: u8, ehv: i64, nhv: i64, load: u32, peak: u32) -> Filed {
    Filed {
        owner,
        first: 0,
        last: 359,
        ehv,
        nhv,
        load,
        peak,
    }
}

// What an owner's meters read in month 14.
fn metered(owner: u8, load: u32, peak: u32) -> Metered {
    Metered {
        month: 14,
        owner,
        load,
        peak,
    }
}

fn enter<C: Charge>(book: &Book<C>, journal: &mut Vec<Entry>) -> Result<(), BookFault> {
    book.file(journal, filed(0, 1000, 200, 100, 10))?;
    book.file(journal, filed(1, 1500, 0, 100, 6))?;
    book.file(journal, filed(2, 500, 0, 50, 4))?;
    book.read(journal, metered(0, 8, 1))?;
    book.read(journal, metered(1, 9, 1))?;
    book.read(journal, metered(2, 5, 0))?;
    Ok(())
}

// Opens a month and posts it: an opening is owed one of the two, a posting or a withdrawal.
fn bill<C: Charge, R: Roll>(
    book: &mut Book<C>,
    journal: &Vec<Entry>,
    roll: &mut R,
    month: u16,
) -> Result<(), BookFault> {
    let mut draft = [0; 3];
    let opening = book.open(journal, month, &mut draft)?;
    book.post(journal, roll, opening)?;
    Ok(())
}

fn print_lines<R: Roll>(rt: &impl Print, roll: &R) -> anyhow::Result<()> {
    println!(rt; "month owner mark cents")?;
    for line in (0..3).map(|place| roll.line(place)) {
        let line = line.context("a line is missing")?;
        println!(rt; "{line}")?;
    }
    Ok(())
}

fn refused(_fault: BookFault) -> anyhow::Error {
    anyhow!("a call is refused")
}

fn main(rt: HostRuntime) -> anyhow::Result<()> {
    let mut journal = Vec::with_capacity(rt.alloc(), 6)?;
    let mut bytes = [0; 81];
    let mut roll = ArchiveRoll::new(&mut bytes);
    let charge = Volumetric::new(8).map_err(|_| anyhow!("the charge is refused"))?;
    let mut book = Book::new(&[0, 1, 1], charge).map_err(|_| anyhow!("the owners are refused"))?;
    enter(&book, &mut journal).map_err(refused)?;
    bill(&mut book, &journal, &mut roll, 14).map_err(refused)?;
    print_lines(&rt, &roll)
}
