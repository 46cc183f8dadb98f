// Scripts of calls: the worked month, its correction, and openings as they are written down.
use crate::helpers::*;
use book::{BookFault, Call, Filed, Reply, State, Written, replay};
use charges::Volumetric;
use rolls::{Roll, TableRoll};
use std::test::Fail;

fn file(owner: u8, ehv: i64, nhv: i64, load: u32, peak: u32) -> Call {
    Call::File(Filed {
        last: 359,
        ..filed(owner, ehv, nhv, load, peak)
    })
}

fn read(owner: u8, load: u32, peak: u32) -> Call {
    Call::Read(metered(owner, load, peak))
}

fn written(month: u16, count: u16) -> Result<Written, Fail> {
    Written::new(month, count).ok_or_else(|| Fail::new("no opening of that month"))
}

#[test]
fn worked_month(rt: HostRuntime) -> Result<(), Fail> {
    let calls = [
        file(0, 1000, 200, 100, 10),
        file(1, 1500, 0, 100, 6),
        file(2, 500, 0, 50, 4),
        read(0, 8, 1),
        read(1, 9, 1),
        read(2, 5, 0),
        Call::Open { month: 14 },
        Call::Post(written(14, 6)?),
        file(1, 1200, 0, 100, 6),
        Call::State { month: 14 },
        Call::Post(written(14, 8)?),
        Call::Withdraw(written(14, 60_000)?),
        Call::Post(written(14, 7)?),
        Call::State { month: 14 },
        Call::Open { month: 14 },
    ];
    let mut answers = [Ok(Reply::Withdrawn); 16];
    let mut journal = Vec::with_capacity(rt.alloc(), 8)?;
    let mut slots = [blank()?; 6];
    let mut roll = TableRoll::new(&mut slots);
    replay(
        &[0, 1, 1],
        Volumetric::new(8)?,
        &mut journal,
        &mut roll,
        &calls,
        &mut answers,
    )?;
    let mut draft = [0; 16];
    draft[..3].copy_from_slice(&[278, -1793, 1515]);
    let opened = Reply::Opened {
        opening: written(14, 6)?,
        draft,
    };
    let due = Reply::Stands(State::Due { mark: 6 });
    let current = Reply::Stands(State::Current { mark: 7 });
    assert_eq!(rt; answers[5], Ok(Reply::Entered { number: 5 }));
    assert_eq!(rt; answers[6], Ok(opened));
    assert_eq!(rt; answers[7], Ok(Reply::Posted));
    assert_eq!(rt; answers[8], Ok(Reply::Entered { number: 6 }));
    assert_eq!(rt; answers[9], Ok(due));
    assert_eq!(rt; answers[10], Err(BookFault::BeyondJournal));
    assert_eq!(rt; answers[12], Ok(Reply::Posted));
    assert_eq!(rt; answers[13], Ok(current));
    assert_eq!(rt; answers[14], Err(BookFault::Current));
    check_lines(&rt, &roll, 0, 6, [278, -1793, 1515])?;
    check_lines(&rt, &roll, 3, 7, [-784, 1471, -687])?;
    assert_eq!(rt; journal.len(), 7);
    Ok(())
}

#[test]
fn openings_written_down(rt: HostRuntime) {
    assert!(rt; Written::new(359, 65_535).is_some());
    assert!(rt; Written::new(360, 0).is_none());
}
