// Each refusal of a charge, just within its limit and just outside.
use crate::helpers::*;
use charges::{Hybrid, Volumetric};
use std::test::Fail;

#[test]
fn settings(rt: HostRuntime) {
    assert!(rt; Volumetric::new(10).is_ok() && Hybrid::new(100).is_ok());
    assert!(rt; Volumetric::new(11).is_err() && Hybrid::new(101).is_err());
}

// The second area's owner files no load: its pool has to be 0.
#[test]
fn a_pool_without_filed_use(rt: HostRuntime) -> Result<(), Fail> {
    let rows = [
        row(0, (0, 5), (10, 0), (1, 0)),
        row(1, (5, 0), (0, 0), (1, 0)),
    ];
    check_refused(&rt, &Volumetric::new(0)?, &rows, 12, 1)?;
    check_billed(&rt, &Volumetric::new(10)?, &rows, &[10, 0], &[100, 100])?;
    check_refused(&rt, &Hybrid::new(90)?, &rows, 12, 4)?;
    check_billed(&rt, &Hybrid::new(100)?, &rows, &[10, 0], &[100, 100])?;
    let none = [row(0, (0, 5), (0, 1), (1, 1))];
    check_refused(&rt, &Volumetric::new(10)?, &none, 12, 3)?;
    check_refused(&rt, &Hybrid::new(50)?, &none, 12, 3)
}

// The sum of both rates counts.
#[test]
fn a_rate_for_mwh(rt: HostRuntime) -> Result<(), Fail> {
    let within = [row(0, (6_000_000, 4_000_000), (10_000, 0), (1, 0))];
    check_billed(
        &rt,
        &Volumetric::new(0)?,
        &within,
        &[10_000_000],
        &[100_000],
    )?;
    check_billed(&rt, &Hybrid::new(100)?, &within, &[10_000_000], &[100_000])?;
    let outside = [row(0, (6_000_000, 4_000_001), (10_000, 0), (1, 0))];
    check_refused(&rt, &Volumetric::new(0)?, &outside, 13, 0)?;
    check_refused(&rt, &Hybrid::new(100)?, &outside, 13, 0)?;
    let second = [
        row(0, (0, 0), (10_000, 0), (1, 0)),
        row(1, (-10_000_001, 0), (10_000, 0), (1, 0)),
    ];
    check_refused(&rt, &Volumetric::new(0)?, &second, 13, 1)
}

#[test]
fn a_rate_for_mw(rt: HostRuntime) -> Result<(), Fail> {
    let within = [row(0, (0, 1_000_000_000), (0, 10_000), (0, 1))];
    check_billed(
        &rt,
        &Hybrid::new(0)?,
        &within,
        &[1_000_000_000],
        &[10_000_000],
    )?;
    let outside = [row(0, (0, 1_000_000_001), (0, 10_000), (0, 1))];
    check_refused(&rt, &Hybrid::new(0)?, &outside, 13, 0)
}

// Ten million hundredths of a cent for a hundred million MWh make the largest bill.
#[test]
fn a_bill(rt: HostRuntime) -> Result<(), Fail> {
    let within = [
        row(0, (0, 0), (0, 0), (0, 0)),
        row(0, (20_000_000, 0), (10_000, 1_000_000), (100_000_000, 0)),
    ];
    check_billed(
        &rt,
        &Hybrid::new(50)?,
        &within,
        &[0, 20_000_000],
        &[0, 10_000_000_000_000],
    )?;
    let outside = [
        row(0, (0, 0), (0, 0), (0, 0)),
        row(0, (20_000_000, 0), (10_000, 1_000_000), (100_000_000, 1)),
    ];
    check_refused(&rt, &Hybrid::new(50)?, &outside, 14, 1)
}
