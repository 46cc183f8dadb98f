// Postings, corrections and states.
use crate::helpers::*;
use book::{Book, BookFault, Entry, Filed, Metered, Opening, State};
use charges::{Hybrid, Volumetric};
use rolls::{ArchiveRoll, Roll, TableRoll};
use std::process::Abort;
use std::test::Fail;

// The worked month billed at 6 entries and corrected at 7.
fn worked_month<R: Roll>(
    rt: &impl Abort,
    journal: &mut Vec<Entry>,
    roll: &mut R,
) -> Result<(), Fail> {
    let mut book = three_owners()?;
    enter(&book, journal)?;
    assert_eq!(rt; book.state(journal, 14), Ok(State::Unsettled));
    settle(&mut book, journal, roll, 14)?;
    check_lines(rt, roll, 0, 6, [278, -1793, 1515])?;
    assert_eq!(rt; book.state(journal, 14), Ok(State::Current { mark: 6 }));
    assert_eq!(rt;
        settle(&mut book, journal, roll, 14),
        Err(BookFault::Current)
    );
    require(&book, journal, 1200)?;
    assert_eq!(rt; book.state(journal, 14), Ok(State::Due { mark: 6 }));
    settle(&mut book, journal, roll, 14)?;
    check_lines(rt, roll, 3, 7, [-784, 1471, -687])?;
    assert_eq!(rt; book.state(journal, 14), Ok(State::Current { mark: 7 }));
    assert!(rt; roll.line(6).is_none());
    Ok(())
}

#[test]
fn worked_month_in_a_table(rt: HostRuntime) -> Result<(), Fail> {
    let mut journal = Vec::with_capacity(rt.alloc(), 8)?;
    let mut slots = [blank()?; 7];
    worked_month(&rt, &mut journal, &mut TableRoll::new(&mut slots))
}

#[test]
fn worked_month_in_an_archive(rt: HostRuntime) -> Result<(), Fail> {
    let mut journal = Vec::with_capacity(rt.alloc(), 8)?;
    let mut bytes = [0; 189];
    worked_month(&rt, &mut journal, &mut ArchiveRoll::new(&mut bytes))
}

// Corrects month 14 for a requirement of the second owner, and looks at the lines that follow.
fn correct<R: Roll>(
    rt: &impl Abort,
    book: &mut Book<Volumetric>,
    journal: &mut Vec<Entry>,
    roll: &mut R,
    ehv: i64,
    place: usize,
    cents: [i64; 3],
) -> Result<(), Fail> {
    require(book, journal, ehv)?;
    settle(book, journal, roll, 14)?;
    check_lines(rt, roll, place, journal.len().min(8192) as u16, cents)
}

// A month billed at 6 entries, with the first three lines of the roll.
fn billed<R: Roll>(journal: &mut Vec<Entry>, roll: &mut R) -> Result<Book<Volumetric>, Fail> {
    let mut book = three_owners()?;
    enter(&book, journal)?;
    settle(&mut book, journal, roll, 14)?;
    Ok(book)
}

fn five_corrections<R: Roll>(
    rt: &impl Abort,
    journal: &mut Vec<Entry>,
    roll: &mut R,
) -> Result<(), Fail> {
    let mut book = billed(journal, roll)?;
    correct(rt, &mut book, journal, roll, 1200, 3, [-784, 1471, -687])?;
    correct(rt, &mut book, journal, roll, 1500, 6, [784, -1471, 687])?;
    correct(rt, &mut book, journal, roll, 1200, 9, [-784, 1471, -687])?;
    // The same requirement filed again touches the month and changes nothing.
    correct(rt, &mut book, journal, roll, 1200, 12, [0, 0, 0])?;
    correct(rt, &mut book, journal, roll, 1500, 15, [784, -1471, 687])?;
    assert_eq!(rt; roll.free(), 0);
    Ok(())
}

#[test]
fn corrected_five_times(rt: HostRuntime) -> Result<(), Fail> {
    let mut journal = Vec::with_capacity(rt.alloc(), 16)?;
    let mut slots = [blank()?; 18];
    five_corrections(&rt, &mut journal, &mut TableRoll::new(&mut slots))
}

// Posts what was opened.
fn post_opened<R: Roll>(
    book: &mut Book<Volumetric>,
    journal: &Vec<Entry>,
    roll: &mut R,
    opened: Result<Opening, BookFault>,
) -> Result<(), BookFault> {
    let opening = opened?;
    book.post(journal, roll, opening)
}

fn overtaken<R: Roll>(rt: &impl Abort, journal: &mut Vec<Entry>, roll: &mut R) -> Result<(), Fail> {
    let mut book = three_owners()?;
    enter(&book, journal)?;
    let mut draft = [0; 3];
    let opening = book.open(journal, 14, &mut draft)?;
    let again = book.open(journal, 14, &mut draft);
    let required = require(&book, journal, 1200);
    let first = book.post(journal, roll, opening);
    let second = post_opened(&mut book, journal, roll, again);
    required?;
    first?;
    check_lines(rt, roll, 0, 6, [278, -1793, 1515])?;
    // A second opening at the same entries finds nothing new below it.
    assert_eq!(rt; second, Err(BookFault::Untouched));
    assert_eq!(rt; book.state(journal, 14), Ok(State::Due { mark: 6 }));
    settle(&mut book, journal, roll, 14)?;
    check_lines(rt, roll, 3, 7, [-784, 1471, -687])
}

#[test]
fn opening_overtaken_by_an_entry(rt: HostRuntime) -> Result<(), Fail> {
    let mut journal = Vec::with_capacity(rt.alloc(), 8)?;
    let mut slots = [blank()?; 6];
    overtaken(&rt, &mut journal, &mut TableRoll::new(&mut slots))
}

#[test]
fn opening_of_another_book(rt: HostRuntime) -> Result<(), Fail> {
    let mut book = three_owners()?;
    let other = Book::new(&[0, 1, 1], Hybrid::new(50)?)?;
    let mut journal = Vec::with_capacity(rt.alloc(), 8)?;
    let mut slots = [blank()?; 6];
    let mut roll = TableRoll::new(&mut slots);
    let mut draft = [0; 3];
    enter(&book, &mut journal)?;
    let opening = other.open(&journal, 14, &mut draft)?;
    book.post(&journal, &mut roll, opening)?;
    check_lines(&rt, &roll, 0, 6, [278, -1793, 1515])?;
    // An opening at more entries than the journal of this book has.
    require(&book, &mut journal, 1200)?;
    let opening = other.open(&journal, 14, &mut draft)?;
    journal.truncate(6);
    assert_eq!(rt;
        book.post(&journal, &mut roll, opening),
        Err(BookFault::BeyondJournal)
    );
    assert_eq!(rt; roll.free(), 3);
    Ok(())
}

fn short<R: Roll>(rt: &impl Abort, journal: &mut Vec<Entry>, roll: &mut R) -> Result<(), Fail> {
    let mut book = billed(journal, roll)?;
    require(&book, journal, 1200)?;
    assert_eq!(rt;
        settle(&mut book, journal, roll, 14),
        Err(BookFault::RollFull)
    );
    assert_eq!(rt; roll.free(), 2);
    assert!(rt; roll.line(3).is_none());
    assert_eq!(rt; book.state(journal, 14), Ok(State::Due { mark: 6 }));
    Ok(())
}

#[test]
fn roll_with_a_line_too_few(rt: HostRuntime) -> Result<(), Fail> {
    let mut journal = Vec::with_capacity(rt.alloc(), 8)?;
    let mut slots = [blank()?; 5];
    short(&rt, &mut journal, &mut TableRoll::new(&mut slots))
}

#[test]
fn states(rt: HostRuntime) -> Result<(), Fail> {
    let mut book = three_owners()?;
    let mut journal = Vec::with_capacity(rt.alloc(), 9)?;
    enter(&book, &mut journal)?;
    let mut slots = [blank()?; 3];
    settle(&mut book, &journal, &mut TableRoll::new(&mut slots), 14)?;
    // A reading and a filing of other months leave it current, one of an owner's own month does not.
    book.read(
        &mut journal,
        Metered {
            month: 13,
            ..metered(0, 1, 1)
        },
    )?;
    book.file(
        &mut journal,
        Filed {
            first: 15,
            ..filed(0, 1, 1, 1, 1)
        },
    )?;
    assert_eq!(rt; book.state(&journal, 14), Ok(State::Current { mark: 6 }));
    book.read(&mut journal, metered(2, 5, 0))?;
    assert_eq!(rt; book.state(&journal, 14), Ok(State::Due { mark: 6 }));
    assert_eq!(rt; book.state(&journal, 359), Ok(State::Unsettled));
    assert_eq!(rt; book.state(&journal, 360), Err(BookFault::Month));
    Ok(())
}
