// The set-up of a script, and set-ups that the library refuses.
use crate::reading::fault;
use office::hold;
use script::{Plain, Unread, Wrong, read_script};
use std::alloc::Global;
use std::process::Abort;
use std::test::Fail;

// The script cannot be read, at this line and for this reason.
fn check_at(rt: &impl Abort, heap: Global, text: &str, line: usize, wrong: Wrong) {
    assert_eq!(rt;
        fault(heap, text),
        Some(Unread::Line { line, wrong }),
        "{}",
        text
    );
}

#[test]
fn scripts_without_a_set_up(rt: HostRuntime) {
    let heap = rt.alloc();
    check_at(&rt, heap, "", 1, Wrong::NoOwners);
    check_at(&rt, heap, "\n\n", 3, Wrong::NoOwners);
    check_at(&rt, heap, "charge hybrid 5", 2, Wrong::NoOwners);
    check_at(
        &rt,
        heap,
        "owners 0\n# charge hybrid 5\n",
        3,
        Wrong::NoCharge,
    );
    check_at(
        &rt,
        heap,
        "owners 0\nopen 5\ncharge hybrid 5",
        2,
        Wrong::NoCharge,
    );
    check_at(
        &rt,
        heap,
        "charge hybrid 5\nopen 5\nowners 0",
        2,
        Wrong::NoOwners,
    );
    check_at(
        &rt,
        heap,
        "owners 0\nlayer 8 5\ncharge hybrid 5",
        2,
        Wrong::NoCharge,
    );
    assert_eq!(rt; fault(heap, "owners 0\ncharge hybrid 5"), None);
}

#[test]
fn set_ups_out_of_order(rt: HostRuntime) {
    let heap = rt.alloc();
    check_at(&rt, heap, "owners 0\nowners 0", 2, Wrong::Repeated);
    check_at(
        &rt,
        heap,
        "charge hybrid 5\n\ncharge volumetric 5",
        3,
        Wrong::Repeated,
    );
    check_at(&rt, heap, "journal 5\njournal 5", 2, Wrong::Repeated);
    check_at(&rt, heap, "roll 5\nroll 5", 2, Wrong::Repeated);
    let four = "charge hybrid 5\nlayer 1\nlayer 2\nlayer 3\nlayer 4";
    check_at(&rt, heap, four, 5, Wrong::FourthLayer);
    let late = "owners 0\ncharge hybrid 5\nopen 5\nroll 5";
    check_at(&rt, heap, late, 4, Wrong::LateSetUp);
}

#[test]
fn numbers_of_the_set_up(rt: HostRuntime) {
    let heap = rt.alloc();
    check_at(&rt, heap, "owners 0 256", 1, Wrong::DoesNotFit);
    check_at(&rt, heap, "owners 0 x", 1, Wrong::NoNumber);
    check_at(&rt, heap, "charge", 1, Wrong::TooFew);
    check_at(&rt, heap, "charge hybrid", 1, Wrong::TooFew);
    check_at(&rt, heap, "charge hybrid 5 5", 1, Wrong::TooMany);
    check_at(&rt, heap, "charge hybrid 256", 1, Wrong::DoesNotFit);
    check_at(&rt, heap, "charge flat 5", 1, Wrong::UnknownCharge);
    check_at(&rt, heap, "journal 65536", 1, Wrong::DoesNotFit);
    check_at(&rt, heap, "journal", 1, Wrong::TooFew);
    check_at(&rt, heap, "roll -1", 1, Wrong::DoesNotFit);
    check_at(&rt, heap, "roll 1 1", 1, Wrong::TooMany);
}

#[test]
fn numbers_of_layers(rt: HostRuntime) {
    let heap = rt.alloc();
    check_at(&rt, heap, "charge hybrid 5\nlayer", 2, Wrong::TooFew);
    check_at(
        &rt,
        heap,
        "charge hybrid 5\nlayer 256",
        2,
        Wrong::DoesNotFit,
    );
    check_at(
        &rt,
        heap,
        "charge hybrid 5\nlayer 8 4294967296",
        2,
        Wrong::DoesNotFit,
    );
    let many = "charge hybrid 5\nlayer 8 1 2 3 4 5 6 7 8 9 10 11 12 13 14 15 16 17";
    check_at(&rt, heap, many, 2, Wrong::TooMany);
    let full = "owners 0\ncharge hybrid 5\nlayer 8 1 2 3 4 5 6 7 8 9 10 11 12 13 14 15 4294967295";
    assert_eq!(rt; fault(heap, full), None);
}

#[test]
fn set_up_as_it_is_written(rt: HostRuntime) -> Result<(), Fail> {
    let text = b"owners 2 255\ncharge hybrid 200\nlayer 8 7 6\njournal 65535\nroll 0";
    let script = read_script(rt.alloc(), text)?;
    assert!(rt; script.areas.len() == 2 && script.layers.len() == 1);
    assert!(rt; script.areas[0] == 2 && script.areas[1] == 255);
    assert!(rt; matches!(script.charge, Plain::Hybrid(200)));
    let layer = script.layers[0];
    assert!(rt;
        layer.tenths == 8 && layer.caps[0] == 7 && layer.caps[1] == 6 && layer.caps[2] == 0
    );
    assert!(rt; script.journal == 65_535 && script.roll == 0);
    let bare = read_script(rt.alloc(), b"owners\ncharge volumetric 3")?;
    assert!(rt; bare.areas.len() == 0 && matches!(bare.charge, Plain::Volumetric(3)));
    assert!(rt; bare.journal == 8192 && bare.roll == 2427);
    Ok(())
}

// What a session prints whose set-up is refused, without an archive.
fn check_refused(rt: &impl Abort, heap: Global, text: &str, told: &str) -> Result<(), Fail> {
    let script = read_script(heap, text.as_bytes())?;
    let session = hold(heap, &script)?;
    assert!(rt; session.text.as_str() == told, "{}", text);
    assert!(rt; session.archive.is_none());
    Ok(())
}

#[test]
fn refused_owners(rt: HostRuntime) -> Result<(), Fail> {
    let heap = rt.alloc();
    let one = "setup refused 1\n";
    check_refused(&rt, heap, "owners\ncharge hybrid 5\nopen 5", one)?;
    check_refused(&rt, heap, "owners 0 3\ncharge hybrid 5", one)?;
    check_refused(
        &rt,
        heap,
        "owners 0 0 0 0 0 0 0 0 0 0 0 0 0 0 0 0 0\ncharge hybrid 5",
        one,
    )?;
    check_refused(&rt, heap, "owners 3\ncharge hybrid 101", one)?;
    check_refused(&rt, heap, "owners\ncharge volumetric 8\nlayer 11", one)
}

#[test]
fn refused_settings(rt: HostRuntime) -> Result<(), Fail> {
    let heap = rt.alloc();
    let two = "setup refused 2\n";
    check_refused(&rt, heap, "owners 0\ncharge volumetric 11", two)?;
    check_refused(&rt, heap, "owners 0\ncharge hybrid 101\nopen 5", two)?;
    check_refused(&rt, heap, "owners 0\ncharge volumetric 8\nlayer 11", two)?;
    check_refused(
        &rt,
        heap,
        "owners 0\ncharge volumetric 8\nlayer 8 60000001",
        two,
    )?;
    check_refused(
        &rt,
        heap,
        "owners 0\ncharge hybrid 5\nlayer 8\nlayer 8 0 60000001",
        two,
    )?;
    check_refused(
        &rt,
        heap,
        "owners 0\ncharge hybrid 5\nlayer 8\nlayer 8\nlayer 12",
        two,
    )
}
