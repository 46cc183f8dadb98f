// Making a table, at each limit and past it.
use crate::helpers::*;
use charges::{OwnerRow, Table, TableFault};
use std::test::Fail;

fn fault(rows: &[OwnerRow]) -> Option<TableFault> {
    Table::new(rows).err()
}

#[test]
fn owners(rt: HostRuntime) {
    let one = row(2, (0, 0), (0, 0), (0, 0));
    assert_eq!(rt; fault(&[]), Some(TableFault::Owners));
    assert_eq!(rt; fault(&[one; 16]), None);
    assert_eq!(rt; fault(&[one; 17]), Some(TableFault::Owners));
    let nowhere = row(3, (0, 0), (180_000_001, 0), (0, 0));
    assert_eq!(rt; fault(&[one, nowhere]), Some(TableFault::Owners));
}

#[test]
fn zeros(rt: HostRuntime) -> Result<(), Fail> {
    let one = row(2, (7, 8), (0, 0), (0, 0));
    let table = Table::new(&[one; 3])?;
    check_amounts(&rt, &table.by_owner().zeros(), &[0, 0, 0]);
    Ok(())
}

#[test]
fn figures(rt: HostRuntime) {
    let most = (180_000_000, 1_000_000);
    let metered = (100_000_000, 100_000);
    assert_eq!(rt;
        fault(&[row(0, (-1_000_000_000, 2_000_000_000), most, metered)]),
        None
    );
    assert_eq!(rt;
        fault(&[row(0, (2_000_000_001, 0), most, metered)]),
        Some(TableFault::Figure)
    );
    assert_eq!(rt;
        fault(&[row(0, (0, -2_000_000_001), most, metered)]),
        Some(TableFault::Figure)
    );
    assert_eq!(rt;
        fault(&[row(0, (0, 0), (180_000_001, 0), metered)]),
        Some(TableFault::Figure)
    );
    assert_eq!(rt;
        fault(&[row(0, (0, 0), (0, 1_000_001), metered)]),
        Some(TableFault::Figure)
    );
    assert_eq!(rt;
        fault(&[row(0, (0, 0), most, (100_000_001, 0))]),
        Some(TableFault::Figure)
    );
    assert_eq!(rt;
        fault(&[row(0, (0, 0), most, (0, 100_001))]),
        Some(TableFault::Figure)
    );
}

#[test]
fn totals(rt: HostRuntime) {
    let half = row(0, (-1_000_000_000, 500_000_000), (0, 0), (0, 0));
    assert_eq!(rt; fault(&[half, half]), None);
    let more_ehv = row(0, (1_000_000_001, 0), (0, 0), (0, 0));
    assert_eq!(rt; fault(&[half, more_ehv]), Some(TableFault::Totals));
    let more_nhv = row(0, (1_000_000_000, 500_000_001), (0, 0), (0, 0));
    assert_eq!(rt; fault(&[half, more_nhv]), Some(TableFault::Totals));
}
