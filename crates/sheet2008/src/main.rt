// The rate sheet of 1 March 2008 beside what the transition layer works out from the same filings, dollar for dollar.
// Three of its cells cannot be read: PG&E's burden in column [30] and charge in column [38], and SCE's mitigation in column [35].
#![tactic(auto)]

use anyhow::{Context, ensure};
use charges::{Amounts, OwnerRow, Owners, Table, Transition, Volumetric};

// A column of the sheet: the nine owners' figures and then the total, 0 where a figure cannot be read.
#[derive(Clone, Copy)]
struct Column {
    number: u8,
    // As it is: as Option the figures are no plainer, with a Some around each of a hundred and twenty-seven.
    unread: Option<usize>,
    figures: [i64; 10],
}

const NAMES: [&str; 10] = [
    "PG&E",
    "SCE",
    "SDG&E",
    "Anaheim",
    "Azusa",
    "Banning",
    "Pasadena",
    "Riverside",
    "Vernon",
    "total",
];

// An owner with its area, its requirement for existing facilities and its filed load.
fn row(area: u8, ehv: i64, filed_load: u32) -> OwnerRow {
    OwnerRow {
        area,
        ehv,
        nhv: 0,
        filed_load,
        filed_peak: 0,
        load: 0,
        peak: 0,
    }
}

// The owners, with columns [28] and [24] as they were filed.
fn owners() -> [OwnerRow; 9] {
    [
        row(0, 157_620_655, 92_136_595),
        row(1, 159_363_861, 91_670_569),
        row(2, 19_708_518, 21_271_145),
        row(1, 21_670_561, 2_766_313),
        row(1, 1_008_851, 239_575),
        row(1, 830_074, 139_457),
        row(1, 8_706_949, 1_239_884),
        row(1, 13_680_083, 1_814_019),
        row(1, 8_551_622, 1_210_668),
    ]
}

// The caps of the first three owners; the others are uncapped.
fn caps() -> [u32; 16] {
    [
        32_000_000, 32_000_000, 8_000_000, 0, 0, 0, 0, 0, 0, 0, 0, 0, 0, 0, 0, 0,
    ]
}

// The sheet's dollar figures, column by column.
fn sheet() -> [Column; 13] {
    [
        // The parts for existing facilities.
        Column {
            number: 26,
            unread: None,
            figures: [
                167_205_686,
                174_559_615,
                35_265_870,
                5_267_629,
                456_200,
                265_555,
                2_360_994,
                3_454_265,
                2_305_361,
                391_141_175,
            ],
        },
        // The requirements for existing facilities.
        Column {
            number: 28,
            unread: None,
            figures: [
                157_620_655,
                159_363_861,
                19_708_518,
                21_670_561,
                1_008_851,
                830_074,
                8_706_949,
                13_680_083,
                8_551_622,
                391_141_175,
            ],
        },
        // The burdens.
        Column {
            number: 29,
            unread: None,
            figures: [
                9_585_031,
                15_195_754,
                15_557_352,
                -16_402_932,
                -552_651,
                -564_520,
                -6_345_955,
                -10_225_818,
                -6_246_261,
                0,
            ],
        },
        // The burdens again.
        Column {
            number: 30,
            unread: Some(0),
            figures: [
                0,
                15_195_754,
                15_557_352,
                -16_402_932,
                -552_651,
                -564_520,
                -6_345_955,
                -10_225_818,
                -6_246_261,
                0,
            ],
        },
        // The caps.
        Column {
            number: 31,
            unread: None,
            figures: [
                32_000_000, 32_000_000, 8_000_000, 0, 0, 0, 0, 0, 0, 72_000_000,
            ],
        },
        // Headroom.
        Column {
            number: 32,
            unread: None,
            figures: [22_414_969, 16_804_246, 0, 0, 0, 0, 0, 0, 0, 39_219_215],
        },
        // Excess.
        Column {
            number: 33,
            unread: None,
            figures: [0, 0, 7_557_352, 0, 0, 0, 0, 0, 0, 7_557_352],
        },
        // The payments.
        Column {
            number: 34,
            unread: None,
            figures: [4_319_255, 3_238_097, 0, 0, 0, 0, 0, 0, 0, 7_557_352],
        },
        // The mitigations.
        Column {
            number: 35,
            unread: Some(1),
            figures: [4_319_255, 0, -7_557_352, 0, 0, 0, 0, 0, 0, 0],
        },
        // The adjusted burdens.
        Column {
            number: 36,
            unread: None,
            figures: [
                13_904_287,
                18_433_850,
                8_000_000,
                -16_402_932,
                -552_651,
                -564_520,
                -6_345_955,
                -10_225_818,
                -6_246_261,
                0,
            ],
        },
        // What final burdens are more than adjusted ones.
        Column {
            number: 37,
            unread: None,
            figures: [4_023_774, -505_789, -3_517_985, 0, 0, 0, 0, 0, 0, 0],
        },
        // The transition charges.
        Column {
            number: 38,
            unread: Some(0),
            figures: [0, 2_732_307, -11_075_337, 0, 0, 0, 0, 0, 0, 0],
        },
        // The final burdens.
        Column {
            number: 39,
            unread: None,
            figures: [
                17_928_061,
                17_928_061,
                4_482_015,
                -16_402_932,
                -552_651,
                -564_520,
                -6_345_955,
                -10_225_818,
                -6_246_261,
                0,
            ],
        },
    ]
}

// Two columns put together, owner by owner.
// As it is: a map of the pairs is no plainer: it keeps an Option for each owner, and nothing makes one Option of them.
fn paired<F: Fn(i64, i64) -> Option<i64>>(
    one: &Amounts,
    other: &Amounts,
    together: F,
) -> Option<Amounts>
    requires { F.IsAlwaysCallable together }
{
    let mut all = [0; 9];
    for (place, (a, b)) in all.iter_mut().zip(one.all().iter().zip(other.all())) {
        *place = together(*a, *b)?;
    }
    Owners::new(&all)
}

// Our figures, in the order of the sheet's columns.
fn reckoned() -> Option<[Amounts; 13]> {
    let table = Table::new(&owners()).ok()?;
    let below = Volumetric::new(8).ok()?;
    let layer = Transition::new(below, 8, caps()).ok()?;
    let columns = layer.columns(&table);
    let required = table.by_owner().map(|row| row.ehv);
    let limits = caps().first_chunk::<9>()?.map(|cap| i64::from(cap));
    Some([
        paired(&columns.burdens, &required, |a, b| a.checked_add(b))?,
        required,
        columns.burdens,
        columns.burdens,
        Owners::new(&limits)?,
        columns.headroom,
        columns.excess,
        columns.payments,
        columns.mitigations,
        columns.adjusted,
        paired(&columns.finals, &columns.adjusted, |a, b| a.checked_sub(b))?,
        columns.charges,
        columns.finals,
    ])
}

// Prints a cell of the sheet beside ours, and says whether they are within ten dollars of each other.
fn print_cell(
    rt: &impl Print,
    number: u8,
    owner: &str,
    figure: Option<i64>,
    ours: i64,
) -> anyhow::Result<bool> {
    let Some(figure) = figure else {
        println!(rt; "[{number}]   {owner:<10} cannot be read {ours:>14}")?;
        return Ok(true);
    };
    let difference = ours.checked_sub(figure).context("a difference too large")?;
    println!(rt; "[{number}]   {owner:<10} {figure:>14} {ours:>14} {difference:>10}")?;
    Ok(difference.unsigned_abs() <= 10)
}

// Prints a column, the owners and then the total.
fn print_column(rt: &impl Print, column: &Column, ours: &Amounts) -> anyhow::Result<bool> {
    let sum = i64::try_from(ours.total())
        .ok()
        .context("a total too large")?;
    let totals = [sum];
    let ours = ours.all().iter().chain(&totals);
    let cells = NAMES.iter().zip(column.figures.iter().zip(ours));
    let mut close = true;
    for (place, (owner, (figure, ours))) in cells.enumerate() {
        let figure = (column.unread != Some(place)).then_some(*figure);
        close &= print_cell(rt, column.number, owner, figure, *ours)?;
    }
    Ok(close)
}

fn run(rt: &impl Print) -> anyhow::Result<()> {
    let ours = reckoned().context("the filings are refused")?;
    println!(rt; "column owner              sheet           ours difference")?;
    let mut close = true;
    for (column, ours) in sheet().iter().zip(&ours) {
        close &= print_column(rt, column, ours)?;
    }
    ensure!(close, "a figure is more than ten dollars off");
    Ok(())
}

fn main(rt: HostRuntime) -> anyhow::Result<()> {
    run(&rt)
}
