// The nets of a month: each bill, less the utility amount, less the share of what all bills differ from all utility amounts.
ghost use Rattle.std.specs.Prelude.{◌≡◌, ◌≤◌, ◌&&◌, List, length, ℤ, ◌-ℤ◌, IfOk, ◌==◌, unsigned_abs};
ghost use Rattle.division.specs.Shares.{int_sum, total};
ghost use Rattle.charges.specs.Amounts.{amounts_of, AllBelow};
ghost use Rattle.charges.specs.Checks.{first_fault, passes};
ghost use Rattle.charges.specs.Owners.{items_of};
ghost use Rattle.charges.specs.Tables.{rows_of};
ghost use Rattle.book.specs.Answers.{nets_in, nets_answer, told};
ghost use Rattle.book.specs.Workings.{net_checks, netted};

use crate::fault::BookFault;
use crate::nets::Nets;
use crate::utility::{all_rated, utility_amounts, weights};
use charges::{Amounts, Owners, Table};

// Whether no owner weighs anything.
fn without_weight(weights: &[u64]) -> bool
    ensures { result ≡ (total weights.now == 0) }
{
    weights.iter().all(|w| *w == 0)
}

// Whether there is no owner to bear an adjustment.
fn unborne(adjustment: i64, weights: &Owners<u64>) -> bool
    ensures { result ≡ (total (items_of weights.now) == 0 && passes 0 adjustment) }
{
    without_weight(weights.all()) && adjustment.unsigned_abs() > 0
}

// What all bills differ from all utility amounts.
fn difference(bills: &Amounts, amounts: &Amounts) -> i64
    requires bills { AllBelow 10000000000000 (amounts_of bills.now) }
    requires amounts { AllBelow 10000000000000 (amounts_of amounts.now) }
    ensures value { result ≡ int_sum (amounts_of bills.now) -ℤ int_sum (amounts_of amounts.now) }
    ensures bound { unsigned_abs result ≤ 320000000000000 }
{
    (bills.total() - amounts.total()) as i64
}

// An owner's bill, less its utility amount, less its share of the adjustment.
fn net(owner: &((i64, i64), i64)) -> i64
    requires bill { unsigned_abs owner.now.0.0 ≤ 10000000000000 }
    requires amount { unsigned_abs owner.now.0.1 ≤ 10000000000000 }
    requires share { unsigned_abs owner.now.1 ≤ 320000000000000 }
    ensures value { result ≡ owner.now.0.0 -ℤ owner.now.0.1 -ℤ owner.now.1 }
    ensures bound { unsigned_abs result ≤ 340000000000000 }
{
    let ((bill, amount), share) = *owner;
    bill - amount - share
}

// The nets that follow from the bills, or why there are none.
pub(crate) fn nets(table: &Table, bills: &Amounts) -> Result<Nets, BookFault>
    requires many { length (amounts_of bills.now) ≡ length (rows_of table.now) }
    requires small { AllBelow 10000000000000 (amounts_of bills.now) }
    ensures value { (parts : List ℤ) → told nets_in result ≡ nets_answer (netted (first_fault (net_checks (rows_of table.now) (amounts_of bills.now))) (rows_of table.now) parts (amounts_of bills.now)) }
    ensures many { IfOk result (λ n. length (nets_in n) ≡ length (rows_of table.now)) }
{
    all_rated(table)?;
    let amounts = utility_amounts(table);
    let weights = weights(table);
    let adjustment = difference(bills, &amounts);
    if unborne(adjustment, &weights) {
        return Err(BookFault::NoWeight);
    }
    let shares = weights.shares(adjustment).unwrap();
    let nets = bills.zip(&amounts).zip_map(&shares, net);
    Ok(Nets { amounts: nets })
}
