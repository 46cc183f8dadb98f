// Lines, records, rolls and summaries on examples.
#![tactic(auto)]

#[cfg(test)]
mod tests {
    use rolls::{
        ArchiveFault, ArchiveRoll, Line, Roll, RollFault, TableRoll, read_record, summary,
    };
    use std::process::Abort;
    use std::test::Fail;

    // Month 14, owner 2, mark 9, -150 cents.
    const WORKED: [u8; 27] = [
        1, 0, 2, 0, 14, 2, 0, 1, 2, 3, 0, 4, 0, 0, 0, 9, 4, 0, 8, 255, 255, 255, 255, 255, 255,
        255, 106,
    ];

    fn line(month: u16, owner: u8, mark: u16, cents: i64) -> Result<Line, Fail> {
        Line::new(month, owner, mark, cents).ok_or_else(|| Fail::new("outside the limits"))
    }

    #[test]
    fn worked_record(rt: HostRuntime) -> Result<(), Fail> {
        assert_eq!(rt; line(14, 2, 9, -150)?.encode(), WORKED);
        let back = read_record(&WORKED, 0)?;
        assert_eq!(rt; back.month(), 14);
        assert_eq!(rt; back.owner(), 2);
        assert_eq!(rt; back.mark(), 9);
        assert_eq!(rt; back.cents(), -150);
        Ok(())
    }

    #[test]
    fn limits_of_a_line(rt: HostRuntime) {
        let most = 800_000_000_000_000;
        assert!(rt; Line::new(359, 15, 8192, most).is_some());
        assert!(rt; Line::new(0, 0, 1, -most).is_some());
        assert!(rt; Line::new(360, 15, 8192, most).is_none());
        assert!(rt; Line::new(359, 16, 8192, most).is_none());
        assert!(rt; Line::new(359, 15, 0, most).is_none());
        assert!(rt; Line::new(359, 15, 8193, most).is_none());
        assert!(rt; Line::new(359, 15, 8192, most + 1).is_none());
        assert!(rt; Line::new(359, 15, 8192, -most - 1).is_none());
        assert!(rt; Line::new(0, 0, 1, i64::MIN).is_none());
    }

    // Reads the worked record with one byte changed.
    fn changed(at: usize, byte: u8) -> Option<ArchiveFault> {
        let mut bytes = WORKED;
        if at < 27 {
            bytes[at] = byte;
        }
        read_record(&bytes, 7).err()
    }

    #[test]
    fn wrong_headings(rt: HostRuntime) {
        let heading = Some(ArchiveFault::Heading { place: 7 });
        for at in [0, 1, 2, 5, 6, 7, 9, 10, 11, 16, 17, 18] {
            assert_eq!(rt; changed(at, 9), heading, "a tag or a length");
        }
        assert_eq!(rt; changed(4, 15), None, "a value");
    }

    #[test]
    fn values_at_their_limits(rt: HostRuntime) {
        let value = Some(ArchiveFault::Value { place: 7 });
        assert_eq!(rt; changed(3, 1), None, "month 270");
        assert_eq!(rt; changed(3, 2), value, "month 526");
        assert_eq!(rt; changed(8, 15), None);
        assert_eq!(rt; changed(8, 16), value);
        assert_eq!(rt; changed(15, 1), None);
        assert_eq!(rt; changed(15, 0), value);
        assert_eq!(rt; changed(14, 31), None, "mark 7945");
        assert_eq!(rt; changed(14, 32), value, "mark 8201");
        assert_eq!(rt; changed(20, 253), None, "-562 million million cents");
        assert_eq!(rt; changed(20, 252), value, "-844 million million cents");
        assert_eq!(rt; changed(19, 0), value, "72 thousand million million cents");
    }

    // Fields are read in order, each heading before its value.
    #[test]
    fn first_fault_first(rt: HostRuntime) {
        let mut bytes = WORKED;
        bytes[15] = 0;
        bytes[16] = 0;
        assert_eq!(rt;
            read_record(&bytes, 3).err(),
            Some(ArchiveFault::Value { place: 3 })
        );
        bytes[9] = 0;
        assert_eq!(rt;
            read_record(&bytes, 3).err(),
            Some(ArchiveFault::Heading { place: 3 })
        );
        let short = Some(ArchiveFault::Short { place: 3 });
        assert_eq!(rt; read_record(&bytes[0..26], 3).err(), short);
    }

    fn cents_at<R: Roll>(roll: &R, place: usize) -> Option<i64> {
        roll.line(place).map(|line| line.cents())
    }

    // Fills a roll with three free lines, and asks it.
    fn fill<R: Roll>(rt: &impl Abort, roll: &mut R) -> Result<(), Fail> {
        assert_eq!(rt; roll.free(), 3);
        assert_eq!(rt; cents_at(roll, 0), None);
        assert_eq!(rt; roll.add(line(14, 0, 6, 278)?), Ok(()));
        assert_eq!(rt; roll.add(line(14, 1, 6, -1793)?), Ok(()));
        assert_eq!(rt; roll.free(), 1);
        assert_eq!(rt; roll.add(line(14, 2, 6, 1515)?), Ok(()));
        assert_eq!(rt; roll.add(line(14, 0, 7, -784)?), Err(RollFault::Full));
        assert_eq!(rt; roll.free(), 0);
        assert_eq!(rt; cents_at(roll, 0), Some(278));
        assert_eq!(rt; cents_at(roll, 1), Some(-1793));
        assert_eq!(rt; cents_at(roll, 2), Some(1515));
        assert_eq!(rt; cents_at(roll, 3), None);
        Ok(())
    }

    #[test]
    fn table_roll(rt: HostRuntime) -> Result<(), Fail> {
        let other = line(0, 0, 1, 5)?;
        let mut slots = [other, other, other];
        let mut roll = TableRoll::new(&mut slots);
        fill(&rt, &mut roll)
    }

    #[test]
    fn archive_roll(rt: HostRuntime) -> Result<(), Fail> {
        let mut bytes = [77; 100];
        let mut roll = ArchiveRoll::new(&mut bytes);
        fill(&rt, &mut roll)?;
        let third = line(14, 2, 6, 1515)?.encode();
        let written = roll.written();
        assert_eq!(rt; written.len(), 81);
        assert_eq!(rt; &written[54..], &third[..]);
        Ok(())
    }

    // The summary of an archive is this text, and the page's rest is kept.
    fn shows(rt: &impl Abort, archive: &[u8], text: &[u8]) {
        let mut page = [7; 65_536];
        let count = summary(archive, &mut page);
        assert_eq!(rt; &page[..count], text);
        assert!(rt; count == 65_536 || page[count] == 7);
    }

    #[test]
    fn summaries(rt: HostRuntime) {
        shows(&rt, b"", b"month owner cents\nend 0\n");
        shows(&rt, &WORKED, b"month owner cents\n14 2 -150\nend 1\n");
        shows(&rt, &WORKED[0..26], b"month owner cents\nstop 0 19\n");
        let mut wrong = WORKED;
        wrong[5] = 3;
        shows(&rt, &wrong, b"month owner cents\nstop 0 20\n");
        wrong[3] = 2;
        shows(&rt, &wrong, b"month owner cents\nstop 0 21\n");
    }

    // Fills bytes with the worked record again and again.
    fn repeat(bytes: &mut [u8]) {
        for record in bytes.chunks_mut(WORKED.len()) {
            record.copy_from_slice(&WORKED[..record.len()]);
        }
    }

    // The longest archive that is summed is 2,427 records; one byte more is too long.
    #[test]
    fn longest_archive(rt: HostRuntime) {
        let mut bytes = [0; 65_530];
        repeat(&mut bytes);
        shows(
            &rt,
            &bytes[0..65_529],
            b"month owner cents\n14 2 -364050\nend 2427\n",
        );
        shows(&rt, &bytes, b"too long\n");
    }

    #[test]
    fn fault_in_the_last_record(rt: HostRuntime) {
        let mut bytes = [0; 65_529];
        repeat(&mut bytes);
        bytes[65_502] = 9;
        shows(
            &rt,
            &bytes,
            b"month owner cents\n14 2 -363900\nstop 2426 20\n",
        );
        shows(
            &rt,
            &bytes[0..65_502],
            b"month owner cents\n14 2 -363900\nend 2426\n",
        );
        shows(
            &rt,
            &bytes[0..65_503],
            b"month owner cents\n14 2 -363900\nstop 2426 19\n",
        );
    }
}
