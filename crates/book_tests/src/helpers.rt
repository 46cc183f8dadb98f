// A book of three owners, what they enter, and what openings and rolls come to.
use book::{Book, BookFault, Entry, Filed, Metered, Opening};
use charges::Volumetric;
use rolls::{Line, Roll};
use std::process::Abort;
use std::test::Fail;

// Three owners, one in the first area and two in the second, eight tenths carried grid-wide.
pub fn three_owners() -> Result<Book<Volumetric>, Fail> {
    Ok(Book::new(&[0, 1, 1], Volumetric::new(8)?)?)
}

// What an owner files for the first twenty months.
pub fn filed(owner: u8, ehv: i64, nhv: i64, load: u32, peak: u32) -> Filed {
    Filed {
        owner,
        first: 0,
        last: 19,
        ehv,
        nhv,
        load,
        peak,
    }
}

// What an owner's meters read in month 14.
pub fn metered(owner: u8, load: u32, peak: u32) -> Metered {
    Metered {
        month: 14,
        owner,
        load,
        peak,
    }
}

// What the three owners file for the first twenty months, and the readings of month 14.
pub fn enter(book: &Book<Volumetric>, journal: &mut Vec<Entry>) -> Result<(), Fail> {
    book.file(journal, filed(0, 1000, 200, 100, 10))?;
    book.file(journal, filed(1, 1500, 0, 100, 6))?;
    book.file(journal, filed(2, 500, 0, 50, 4))?;
    book.read(journal, metered(0, 8, 1))?;
    book.read(journal, metered(1, 9, 1))?;
    book.read(journal, metered(2, 5, 0))?;
    Ok(())
}

// What the second owner files for month 14 alone.
pub fn filed_late(ehv: i64) -> Filed {
    Filed {
        first: 14,
        last: 14,
        ..filed(1, ehv, 0, 100, 6)
    }
}

// The second owner's requirement for month 14.
pub fn require(book: &Book<Volumetric>, journal: &mut Vec<Entry>, ehv: i64) -> Result<(), Fail> {
    book.file(journal, filed_late(ehv))?;
    Ok(())
}

// Why a month was not opened.
pub fn refusal(answer: Result<Opening, BookFault>) -> Option<BookFault> {
    answer.map(|opening| opening.withdraw()).err()
}

// Opens a month and posts it.
pub fn settle<R: Roll>(
    book: &mut Book<Volumetric>,
    journal: &Vec<Entry>,
    roll: &mut R,
    month: u16,
) -> Result<(), BookFault> {
    let mut draft = [0; 3];
    let opening = book.open(journal, month, &mut draft)?;
    book.post(journal, roll, opening)
}

// A line that stands for a free one.
pub fn blank() -> Result<Line, Fail> {
    Line::new(0, 0, 1, 0).ok_or_else(|| Fail::new("outside the limits"))
}

// That the lines from a place on are of month 14 at this mark, one for each owner with these cents.
pub fn check_lines<R: Roll>(
    rt: &impl Abort,
    roll: &R,
    place: usize,
    mark: u16,
    cents: [i64; 3],
) -> Result<(), Fail> {
    for (i, cents) in cents.iter().enumerate() {
        let line = roll
            .line(place.saturating_add(i))
            .ok_or_else(|| Fail::new("no line"))?;
        assert_eq!(rt; line.month(), 14);
        assert_eq!(rt; usize::from(line.owner()), i);
        assert_eq!(rt; line.mark(), mark);
        assert_eq!(rt; line.cents(), *cents);
    }
    Ok(())
}
