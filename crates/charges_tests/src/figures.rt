// Parts and bills.
use crate::helpers::*;
use charges::{Hybrid, Rates, Table, Volumetric};
use std::test::Fail;

#[test]
fn worked_month_by_volume(rt: HostRuntime) -> Result<(), Fail> {
    check_billed(
        &rt,
        &Volumetric::new(8)?,
        &worked(),
        &[1240, 1306, 654],
        &[9920, 11760, 6533],
    )
}

#[test]
fn worked_month_by_load_and_peak(rt: HostRuntime) -> Result<(), Fail> {
    check_billed(
        &rt,
        &Hybrid::new(50)?,
        &worked(),
        &[1440, 1120, 640],
        &[13120, 13760, 3200],
    )
}

#[test]
fn rates_of_the_worked_month(rt: HostRuntime) -> Result<(), Fail> {
    let table = Table::new(&worked())?;
    let volumetric = Volumetric::new(8)?;
    for (owner, mwh) in [124_000, 130_667, 130_667].iter().enumerate() {
        let wanted = Rates { mwh: *mwh, mw: 0 };
        assert_eq!(rt; volumetric.rates(&table, owner), Some(wanted));
    }
    let hybrid = Hybrid::new(50)?;
    let wanted = Rates {
        mwh: 64_000,
        mw: 800_000,
    };
    assert_eq!(rt; hybrid.rates(&table, 0), Some(wanted));
    assert_eq!(rt; hybrid.rates(&table, 1), Some(wanted));
    assert_eq!(rt; hybrid.rates(&table, 2), Some(wanted));
    assert_eq!(rt; volumetric.rates(&table, 3), None);
    assert_eq!(rt; hybrid.rates(&table, 3), None);
    Ok(())
}

// An area pool is rounded down below 0 too: half of -7 is -4, and -3 is left for the grid.
#[test]
fn negative_requirements(rt: HostRuntime) -> Result<(), Fail> {
    let one = [row(2, (-7, 0), (1, 1), (1, 1))];
    check_billed(&rt, &Volumetric::new(5)?, &one, &[-7], &[-700])?;
    let three = [
        row(0, (-7, 0), (1, 0), (3, 0)),
        row(1, (0, 0), (1, 0), (0, 0)),
        row(2, (0, 0), (1, 0), (1, 0)),
    ];
    check_billed(
        &rt,
        &Volumetric::new(10)?,
        &three,
        &[-3, -2, -2],
        &[-700, 0, -233],
    )
}

// The second owner's area files nothing and needs nothing; the owner still pays the grid's rate for its load.
#[test]
fn an_area_without_load(rt: HostRuntime) -> Result<(), Fail> {
    let rows = [
        row(0, (100, 100), (10, 1), (0, 0)),
        row(2, (0, 0), (0, 0), (5, 3)),
    ];
    check_billed(&rt, &Volumetric::new(0)?, &rows, &[200, 0], &[0, 5000])?;
    check_billed(&rt, &Hybrid::new(0)?, &rows, &[200, 0], &[0, 60000])
}

#[test]
fn sixteen_owners(rt: HostRuntime) -> Result<(), Fail> {
    let rows = [row(1, (100, 0), (10, 1), (2, 1)); 16];
    check_billed(&rt, &Volumetric::new(10)?, &rows, &[100; 16], &[2000; 16])?;
    check_billed(&rt, &Hybrid::new(100)?, &rows, &[100; 16], &[2000; 16])
}
