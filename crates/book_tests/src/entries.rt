// Entries and openings: what they answer, and each refusal.
use crate::helpers::*;
use book::{Book, BookFault, Filed, Metered};
use charges::{ChargeFault, Volumetric};
use std::test::Fail;

#[test]
fn nets_of_the_worked_month(rt: HostRuntime) -> Result<(), Fail> {
    let book = three_owners()?;
    let mut journal = Vec::with_capacity(rt.alloc(), 8)?;
    enter(&book, &mut journal)?;
    let mut draft = [7; 4];
    let opening = book.open(&journal, 14, &mut draft)?;
    let held = (opening.month(), opening.count());
    opening.withdraw();
    assert_eq!(rt; held.0, 14);
    assert_eq!(rt; held.1, 6);
    assert!(rt; draft == [278, -1793, 1515, 7]);
    // The second owner's requirement is settled late; the first filing stays in the journal.
    assert_eq!(rt; book.file(&mut journal, filed_late(1200))?, 6);
    let mut draft = [7; 3];
    assert_eq!(rt; refusal(book.open(&journal, 14, &mut draft)), None);
    assert!(rt; draft == [-506, -322, 828]);
    Ok(())
}

#[test]
fn openings_refused(rt: HostRuntime) -> Result<(), Fail> {
    let book = three_owners()?;
    let mut journal = Vec::with_capacity(rt.alloc(), 8)?;
    let mut draft = [7; 3];
    let none = refusal(book.open(&journal, 14, &mut draft));
    assert_eq!(rt; none, Some(BookFault::NoFiling { owner: 0 }));
    enter(&book, &mut journal)?;
    assert_eq!(rt;
        refusal(book.open(&journal, 360, &mut draft)),
        Some(BookFault::Month)
    );
    let mut short = [7; 2];
    assert_eq!(rt;
        refusal(book.open(&journal, 14, &mut short)),
        Some(BookFault::ShortDraft)
    );
    assert!(rt; short == [7, 7]);
    let unread = refusal(book.open(&journal, 15, &mut draft));
    assert_eq!(rt; unread, Some(BookFault::NoReading { owner: 0 }));
    let unfiled = refusal(book.open(&journal, 20, &mut draft));
    assert_eq!(rt; unfiled, Some(BookFault::NoFiling { owner: 0 }));
    assert!(rt; draft == [7, 7, 7]);
    Ok(())
}

#[test]
fn entries_refused(rt: HostRuntime) -> Result<(), Fail> {
    let book = three_owners()?;
    let mut journal = Vec::with_capacity(rt.alloc(), 4)?;
    let filed = Filed::default();
    let filings = [
        (Filed { owner: 3, ..filed }, BookFault::UnknownOwner),
        (
            Filed {
                first: 5,
                last: 4,
                ..filed
            },
            BookFault::Month,
        ),
        (Filed { last: 360, ..filed }, BookFault::Month),
        (
            Filed {
                load: 180_000_001,
                ..filed
            },
            BookFault::Figure,
        ),
        (
            Filed {
                nhv: -2_000_000_001,
                ..filed
            },
            BookFault::Figure,
        ),
    ];
    for (figures, fault) in filings {
        assert_eq!(rt; book.file(&mut journal, figures), Err(fault));
    }
    let metered = Metered::default();
    let readings = [
        (
            Metered {
                month: 360,
                ..metered
            },
            BookFault::Month,
        ),
        (
            Metered {
                owner: 3,
                ..metered
            },
            BookFault::UnknownOwner,
        ),
        (
            Metered {
                peak: 100_001,
                ..metered
            },
            BookFault::Figure,
        ),
    ];
    for (figures, fault) in readings {
        assert_eq!(rt; book.read(&mut journal, figures), Err(fault));
    }
    assert_eq!(rt; journal.len(), 0);
    let largest = Filed {
        owner: 0,
        first: 359,
        last: 359,
        ehv: 2_000_000_000,
        nhv: -2_000_000_000,
        load: 180_000_000,
        peak: 1_000_000,
    };
    assert_eq!(rt; book.file(&mut journal, largest), Ok(0));
    let largest = Metered {
        month: 359,
        owner: 2,
        load: 100_000_000,
        peak: 100_000,
    };
    assert_eq!(rt; book.read(&mut journal, largest), Ok(1));
    Ok(())
}

#[test]
fn full_journal(rt: HostRuntime) -> Result<(), Fail> {
    let book = three_owners()?;
    let mut journal = Vec::with_capacity(rt.alloc(), 2)?;
    let room = journal.capacity();
    for _ in 0..room.min(8192) {
        book.read(&mut journal, Metered::default())?;
    }
    assert_eq!(rt;
        book.read(&mut journal, Metered::default()),
        Err(BookFault::JournalFull)
    );
    Ok(())
}

#[test]
fn owners_refused(rt: HostRuntime) -> Result<(), Fail> {
    assert!(rt; Book::new(&[], Volumetric::new(8)?).is_err());
    assert!(rt; Book::new(&[0, 3], Volumetric::new(8)?).is_err());
    assert!(rt; Book::new(&[0; 17], Volumetric::new(8)?).is_err());
    assert!(rt; Book::new(&[2; 16], Volumetric::new(8)?).is_ok());
    Ok(())
}

// Two owners in one area, all carried grid-wide: of each the requirement, the filed load and the load of month 0.
fn opened_with(rt: HostRuntime, owners: [(i64, u32, u32); 2]) -> Result<Option<BookFault>, Fail> {
    let book = Book::new(&[0, 0], Volumetric::new(10)?)?;
    let mut journal = Vec::with_capacity(rt.alloc(), 4)?;
    for (i, (ehv, filed_load, load)) in owners.iter().enumerate() {
        book.file(
            &mut journal,
            Filed {
                owner: i as u8,
                ehv: *ehv,
                load: *filed_load,
                ..Filed::default()
            },
        )?;
        book.read(
            &mut journal,
            Metered {
                owner: i as u8,
                load: *load,
                ..Metered::default()
            },
        )?;
    }
    let mut draft = [0; 2];
    Ok(refusal(book.open(&journal, 0, &mut draft)))
}

#[test]
fn totals_over_the_limits(rt: HostRuntime) -> Result<(), Fail> {
    let answer = opened_with(rt, [(2_000_000_000, 1, 0), (1, 1, 0)])?;
    assert_eq!(rt; answer, Some(BookFault::Totals));
    Ok(())
}

#[test]
fn charge_refuses(rt: HostRuntime) -> Result<(), Fail> {
    let answer = opened_with(rt, [(1000, 0, 1), (0, 0, 1)])?;
    let fault = ChargeFault {
        number: 12,
        place: 3,
        level: 0,
    };
    assert_eq!(rt; answer, Some(BookFault::Charge(fault)));
    Ok(())
}

#[test]
fn utility_rate_over_its_limit(rt: HostRuntime) -> Result<(), Fail> {
    // 1,001 dollars a MWh for the second owner alone; together less than a cent.
    let answer = opened_with(rt, [(0, 100_000_000, 1), (1001, 1, 1)])?;
    assert_eq!(rt; answer, Some(BookFault::UtilityRate { owner: 1 }));
    Ok(())
}

#[test]
fn utility_rate_at_its_limit(rt: HostRuntime) -> Result<(), Fail> {
    assert_eq!(rt; opened_with(rt, [(0, 100_000_000, 1), (1000, 1, 1)])?, None);
    Ok(())
}

#[test]
fn adjustment_without_weight(rt: HostRuntime) -> Result<(), Fail> {
    // Bills of -500 cents, utility amounts of -1,000, and nobody who requires anything.
    let answer = opened_with(rt, [(-100, 100, 10), (0, 100, 0)])?;
    assert_eq!(rt; answer, Some(BookFault::NoWeight));
    Ok(())
}
