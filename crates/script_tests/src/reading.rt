// Calls, numbers and words.
use book::{Call, Filed, Metered};
use script::{Unread, Wrong, read_script};
use std::alloc::Global;
use std::process::Abort;
use std::test::Fail;

// What is wrong with a script, if anything is.
pub(crate) fn fault(heap: Global, text: &str) -> Option<Unread> {
    read_script(heap, text.as_bytes()).err()
}

// What is wrong with a call that stands in the third line.
fn fault_of_call(heap: Global, call: &str) -> Result<Option<Unread>, Fail> {
    let text = format!(in heap; "owners 0 1\ncharge hybrid 50\n{call}")?;
    Ok(fault(heap, text.as_str()))
}

// Each of the calls is wrong in the same way.
fn check_wrong(rt: &impl Abort, heap: Global, calls: &[&str], wrong: Wrong) -> Result<(), Fail> {
    for call in calls {
        assert_eq!(rt;
            fault_of_call(heap, call)?,
            Some(Unread::Line { line: 3, wrong }),
            "{}",
            call
        );
    }
    Ok(())
}

// Each of the calls can be read.
fn check_read(rt: &impl Abort, heap: Global, calls: &[&str]) -> Result<(), Fail> {
    for call in calls {
        assert_eq!(rt; fault_of_call(heap, call)?, None, "{}", call);
    }
    Ok(())
}

#[test]
fn numbers_at_their_limits(rt: HostRuntime) -> Result<(), Fail> {
    check_read(
        &rt,
        rt.alloc(),
        &[
            "file 255 65535 65535 9223372036854775807 -9223372036854775808 4294967295 4294967295",
            "file 007 0000000000000000000000001 -0 -0 00 -00 0",
            "read 65535 255 4294967295 4294967295",
            "open 65535",
            "post 359 65535",
            "withdraw 359 65535",
            "state 65535",
        ],
    )
}

#[test]
fn numbers_past_their_limits(rt: HostRuntime) -> Result<(), Fail> {
    check_wrong(
        &rt,
        rt.alloc(),
        &[
            "file 256 0 0 0 0 0 0",
            "file -1 0 0 0 0 0 0",
            "file 0 65536 0 0 0 0 0",
            "file 0 0 65536 0 0 0 0",
            "file 0 0 0 9223372036854775808 0 0 0",
            "file 0 0 0 0 -9223372036854775809 0 0",
            "file 0 0 0 0 0 4294967296 0",
            "file 0 0 0 0 0 0 4294967296",
            "file 0 0 0 0 0 0 -1",
            "file 0 0 0 123456789012345678901234567890 0 0 0",
            "file 0 0 0 -18446744073709551616 0 0 0",
            "read 65536 0 0 0",
            "read 0 256 0 0",
            "read 0 0 4294967296 0",
            "read 0 0 0 -1",
            "open 65536",
            "open -1",
            "open 18446744073709551616",
            "state 65536",
            "post 65536 0",
            "post 0 65536",
            "withdraw 0 -1",
        ],
        Wrong::DoesNotFit,
    )
}

#[test]
fn openings_that_no_book_gives(rt: HostRuntime) -> Result<(), Fail> {
    check_wrong(
        &rt,
        rt.alloc(),
        &["post 360 1", "withdraw 360 1", "post 65535 0"],
        Wrong::NoOpening,
    )
}

#[test]
fn words_that_are_no_numbers(rt: HostRuntime) -> Result<(), Fail> {
    check_wrong(
        &rt,
        rt.alloc(),
        &[
            "open +5",
            "open -",
            "open --5",
            "open 5-",
            "open 1,000",
            "open 5\r",
            "open 5\t",
            "open \t5",
            "open 0x5",
            "open 5/",
            "open 5:",
            "open #",
            "state ten",
            "read 1 0 8 1.5",
        ],
        Wrong::NoNumber,
    )
}

#[test]
fn unknown_words(rt: HostRuntime) -> Result<(), Fail> {
    check_wrong(
        &rt,
        rt.alloc(),
        &[
            "opens 5", "ope 5", "OPEN 5", "open\t5", "5", "\r", "\topen 5", "-", "owner 0",
        ],
        Wrong::UnknownCommand,
    )
}

#[test]
fn counts_of_numbers(rt: HostRuntime) -> Result<(), Fail> {
    check_wrong(
        &rt,
        rt.alloc(),
        &[
            "file",
            "file 0 0 0 0 0 0",
            "read 0 0 0",
            "open",
            "post 14",
            "withdraw 14",
            "state",
        ],
        Wrong::TooFew,
    )?;
    check_wrong(
        &rt,
        rt.alloc(),
        &[
            "file 0 0 0 0 0 0 0 0",
            "read 0 0 0 0 0",
            "open 1 2",
            "post 14 6 1",
            "withdraw 14 6 1",
            "state 1 2",
        ],
        Wrong::TooMany,
    )
}

#[test]
fn blanks_and_comments(rt: HostRuntime) -> Result<(), Fail> {
    check_read(
        &rt,
        rt.alloc(),
        &[
            "",
            "\n",
            "   \n\n",
            "# open x",
            "  #open",
            "#",
            "  open   5  ",
            "open 5",
            "open 5\n",
            "open 5\n\n   ",
        ],
    )
}

#[test]
fn calls_as_they_are_written(rt: HostRuntime) -> Result<(), Fail> {
    let text = b"owners 0\ncharge volumetric 8\nfile 1 2 3 -4 5 6 7\nread 8 9 10 11\npost 12 13\n";
    let script = read_script(rt.alloc(), text)?;
    assert!(rt; script.calls.len() == 3);
    let Call::File(filed) = script.calls[0] else {
        return Err(Fail::new("no filing"));
    };
    let wanted = Filed {
        owner: 1,
        first: 2,
        last: 3,
        ehv: -4,
        nhv: 5,
        load: 6,
        peak: 7,
    };
    assert_eq!(rt; filed, wanted);
    let Call::Read(metered) = script.calls[1] else {
        return Err(Fail::new("no reading"));
    };
    let wanted = Metered {
        month: 8,
        owner: 9,
        load: 10,
        peak: 11,
    };
    assert_eq!(rt; metered, wanted);
    let Call::Post(written) = script.calls[2] else {
        return Err(Fail::new("no posting"));
    };
    assert!(rt; written.month() == 12 && written.count() == 13);
    Ok(())
}
