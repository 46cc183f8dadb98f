// Transition layers: on each charge, on each other, and what they refuse.
use crate::helpers::*;
use charges::{Columns, Hybrid, Table, Transition, Volumetric};
use std::test::Fail;

// Caps of the first three owners; all others are uncapped.
fn caps(first: u32, second: u32, third: u32) -> [u32; 16] {
    [first, second, third, 0, 0, 0, 0, 0, 0, 0, 0, 0, 0, 0, 0, 0]
}

#[test]
fn on_the_volumetric_charge(rt: HostRuntime) -> Result<(), Fail> {
    check_billed(
        &rt,
        &Transition::new(Volumetric::new(8)?, 8, caps(200, 0, 100))?,
        &worked(),
        &[1262, 1306, 632],
        &[10096, 11760, 6313],
    )
}

#[test]
fn more_excess_than_headroom(rt: HostRuntime) -> Result<(), Fail> {
    check_billed(
        &rt,
        &Transition::new(Volumetric::new(8)?, 8, caps(100, 0, 0))?,
        &worked(),
        &[1180, 1480, 540],
        &[9440, 13326, 5393],
    )
}

// The columns of a layer on the volumetric charge in the worked month.
fn columns(caps: [u32; 16]) -> Result<Columns, Fail> {
    let table = Table::new(&worked())?;
    let layer = Transition::new(Volumetric::new(8)?, 8, caps)?;
    Ok(layer.columns(&table))
}

#[test]
fn columns_of_the_worked_month(rt: HostRuntime) -> Result<(), Fail> {
    let roomy = columns(caps(200, 0, 100))?;
    check_amounts(&rt, &roomy.burdens, &[160, -274, 114]);
    check_amounts(&rt, &roomy.headroom, &[40, 0, 0]);
    check_amounts(&rt, &roomy.excess, &[0, 0, 14]);
    check_amounts(&rt, &roomy.payments, &[14, 0, 0]);
    check_amounts(&rt, &roomy.mitigations, &[14, 0, -14]);
    check_amounts(&rt, &roomy.adjusted, &[174, -274, 100]);
    check_amounts(&rt, &roomy.finals, &[182, -274, 92]);
    check_amounts(&rt, &roomy.charges, &[22, 0, -22]);
    check_amounts(&rt, &roomy.rates, &[2200, 0, -4400]);
    let tight = columns(caps(100, 0, 0))?;
    check_amounts(&rt, &tight.burdens, &[160, -274, 114]);
    check_amounts(&rt, &tight.headroom, &[0, 0, 0]);
    check_amounts(&rt, &tight.excess, &[60, 0, 114]);
    check_amounts(&rt, &tight.payments, &[0, 174, 0]);
    check_amounts(&rt, &tight.mitigations, &[-60, 174, -114]);
    check_amounts(&rt, &tight.adjusted, &[100, -100, 0]);
    check_amounts(&rt, &tight.finals, &[100, -100, 0]);
    check_amounts(&rt, &tight.charges, &[-60, 174, -114]);
    check_amounts(&rt, &tight.rates, &[-6000, 17400, -22800]);
    Ok(())
}

#[test]
fn on_the_hybrid_charge(rt: HostRuntime) -> Result<(), Fail> {
    check_billed(
        &rt,
        &Transition::new(Hybrid::new(50)?, 8, caps(200, 0, 100))?,
        &worked(),
        &[1462, 1120, 618],
        &[13296, 13760, 2980],
    )
}

#[test]
fn on_another_layer(rt: HostRuntime) -> Result<(), Fail> {
    let first = Transition::new(Volumetric::new(8)?, 8, caps(200, 0, 100))?;
    check_billed(
        &rt,
        &Transition::new(first, 8, caps(100, 0, 0))?,
        &worked(),
        &[1202, 1480, 518],
        &[9616, 13326, 5173],
    )
}

// With no burden above its cap, and no cap to share again, nothing moves.
#[test]
fn a_layer_that_moves_nothing(rt: HostRuntime) -> Result<(), Fail> {
    let one = [row(1, (100, 0), (10, 1), (2, 1))];
    check_billed(
        &rt,
        &Transition::new(Volumetric::new(0)?, 0, caps(0, 0, 0))?,
        &one,
        &[100],
        &[2000],
    )
}

#[test]
fn settings(rt: HostRuntime) -> Result<(), Fail> {
    let most = caps(60_000_000, 60_000_000, 60_000_000);
    assert!(rt; Transition::new(Volumetric::new(8)?, 10, most).is_ok());
    assert!(rt; Transition::new(Volumetric::new(8)?, 11, most).is_err());
    assert!(rt; Transition::new(Volumetric::new(8)?, 10, caps(0, 0, 60_000_001)).is_err());
    Ok(())
}

// No peaks are filed: the fault rises whole through three layers.
#[test]
fn a_fault_through_three_layers(rt: HostRuntime) -> Result<(), Fail> {
    let rows = [row(0, (10, 0), (1, 0), (1, 0))];
    let below = Hybrid::new(50)?;
    check_risen(&rt, &below, &rows, 12, 4, 0)?;
    let first = Transition::new(below, 8, caps(1, 0, 0))?;
    check_risen(&rt, &first, &rows, 12, 4, 1)?;
    let second = Transition::new(first, 7, caps(2, 0, 0))?;
    check_risen(&rt, &second, &rows, 12, 4, 2)?;
    check_risen(
        &rt,
        &Transition::new(second, 6, caps(3, 0, 0))?,
        &rows,
        12,
        4,
        3,
    )
}

// The second area files no load, which the hybrid charge does not mind.
#[test]
fn an_area_without_load(rt: HostRuntime) -> Result<(), Fail> {
    let rows = [
        row(0, (0, 5), (10, 0), (1, 0)),
        row(1, (5, 0), (0, 0), (1, 0)),
    ];
    let layer = Transition::new(Hybrid::new(100)?, 0, caps(0, 0, 0))?;
    check_risen(&rt, &layer, &rows, 12, 1, 0)?;
    check_risen(
        &rt,
        &Transition::new(layer, 10, caps(0, 0, 0))?,
        &rows,
        12,
        1,
        1,
    )
}

// What stands below is asked first, though the layer would refuse too.
#[test]
fn below_is_asked_first(rt: HostRuntime) -> Result<(), Fail> {
    let rows = [
        row(0, (5, 0), (0, 0), (1, 0)),
        row(1, (5, 0), (10, 0), (1, 0)),
    ];
    check_risen(
        &rt,
        &Transition::new(Hybrid::new(0)?, 0, caps(0, 0, 0))?,
        &rows,
        12,
        4,
        1,
    )
}

// A charge of 10,000,000 over 10,000 MWh is just within the limit of a rate.
#[test]
fn a_rate(rt: HostRuntime) -> Result<(), Fail> {
    let within = [
        row(0, (0, 0), (10_000, 1_000_000), (0, 0)),
        row(0, (20_000_000, 0), (10_000, 1_000_000), (1, 0)),
    ];
    let layer = Transition::new(Hybrid::new(0)?, 10, caps(0, 0, 0))?;
    check_billed(&rt, &layer, &within, &[0, 20_000_000], &[0, 100_000])?;
    let outside = [
        row(0, (0, 0), (10_000, 1_000_000), (0, 0)),
        row(0, (20_000_002, 0), (10_000, 1_000_000), (1, 0)),
    ];
    check_risen(&rt, &layer, &outside, 13, 0, 0)
}

#[test]
fn a_bill(rt: HostRuntime) -> Result<(), Fail> {
    let within = [
        row(0, (0, 0), (10_000, 1_000_000), (0, 0)),
        row(0, (20_000_000, 0), (10_000, 1_000_000), (100_000_000, 0)),
    ];
    let layer = Transition::new(Hybrid::new(0)?, 10, caps(0, 0, 0))?;
    check_billed(
        &rt,
        &layer,
        &within,
        &[0, 20_000_000],
        &[0, 10_000_000_000_000],
    )?;
    let outside = [
        row(0, (0, 0), (10_000, 1_000_000), (0, 0)),
        row(0, (20_000_000, 0), (10_000, 1_000_000), (100_000_000, 1)),
    ];
    check_risen(&rt, &layer, &outside, 14, 1, 0)
}
