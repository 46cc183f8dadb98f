// What the tests share.
use charges::{Amounts, Charge, ChargeFault, OwnerRow, Table};
use std::process::Abort;
use std::test::Fail;

// A row with an area, two requirements, and the filed and the metered load and peak.
pub(crate) fn row(
    area: u8,
    required: (i64, i64),
    filed: (u32, u32),
    metered: (u32, u32),
) -> OwnerRow {
    OwnerRow {
        area,
        ehv: required.0,
        nhv: required.1,
        filed_load: filed.0,
        filed_peak: filed.1,
        load: metered.0,
        peak: metered.1,
    }
}

// The worked month.
pub(crate) fn worked() -> [OwnerRow; 3] {
    [
        row(0, (1000, 200), (100, 10), (8, 1)),
        row(1, (1500, 0), (100, 6), (9, 1)),
        row(1, (500, 0), (50, 4), (5, 0)),
    ]
}

// That the amounts are just these.
pub(crate) fn check_amounts(rt: &impl Abort, amounts: &Amounts, wanted: &[i64]) {
    assert_eq!(rt; amounts.all(), wanted);
}

// That the charge bills these rows so.
pub(crate) fn check_billed<C: Charge>(
    rt: &impl Abort,
    charge: &C,
    rows: &[OwnerRow],
    parts: &[i64],
    bills: &[i64],
) -> Result<(), Fail> {
    let table = Table::new(rows)?;
    let billing = charge.ask(0, &table)?;
    check_amounts(rt, &billing.parts, parts);
    check_amounts(rt, &billing.bills, bills);
    Ok(())
}

// That the charge refuses these rows with a number at a place.
pub(crate) fn check_refused<C: Charge>(
    rt: &impl Abort,
    charge: &C,
    rows: &[OwnerRow],
    number: u8,
    place: u8,
) -> Result<(), Fail> {
    check_risen(rt, charge, rows, number, place, 0)
}

// That the charge refuses these rows with a number at a place and a level.
pub(crate) fn check_risen<C: Charge>(
    rt: &impl Abort,
    charge: &C,
    rows: &[OwnerRow],
    number: u8,
    place: u8,
    level: u8,
) -> Result<(), Fail> {
    let table = Table::new(rows)?;
    let fault = ChargeFault {
        number,
        place,
        level,
    };
    assert_eq!(rt; charge.ask(0, &table).err(), Some(fault));
    Ok(())
}
