#![tactic(auto)]

// Tests of the job reader on whole files.
#[cfg(test)]
mod tests {
    use job::{Arm, Counts, Field, Position, open, read};
    use std::alloc::Global;
    use std::test::Fail;

    // Writes the bytes of a job file.
    #[derive(Drop)]
    struct Writer {
        bytes: Vec<u8>,
    }

    impl Writer {
        fn new(heap: Global) -> Writer {
            Writer {
                bytes: Vec::new(heap),
            }
        }

        fn byte(&mut self, b: u8) -> Result<(), Fail> {
            self.bytes.push(b)?;
            Ok(())
        }

        fn bytes(&mut self, bytes: &[u8]) -> Result<(), Fail> {
            self.bytes.extend_from_slice(bytes)?;
            Ok(())
        }

        fn word(&mut self, n: u16) -> Result<(), Fail> {
            self.bytes(&n.to_le_bytes())
        }

        fn signed(&mut self, n: i16) -> Result<(), Fail> {
            self.bytes(&n.to_le_bytes())
        }

        fn letters(&mut self) -> Result<(), Fail> {
            self.bytes(b"TLAD")
        }
    }

    // The number and the place of a refusal, or two zeros for a file that is accepted: the tests keep the values that they were written with.
    fn outcome(file: &[u8]) -> (u8, usize) {
        read(file)
            .err()
            .map_or((0, 0), |fault| (fault.question.number(), fault.place))
    }

    #[test]
    fn refused_openings(rt: HostRuntime) {
        assert_eq!(rt; outcome(b""), (11, 0));
        assert_eq!(rt; outcome(b"TLA"), (11, 0));
        assert_eq!(rt; outcome(b"TLAX\x00\x00\x00"), (11, 0));
        assert_eq!(rt; outcome(b"TLAD"), (13, 4));
        assert_eq!(rt; outcome(b"TLAD\x08\x00\x00"), (12, 4));
        assert_eq!(rt; outcome(b"TLAD\x00\x00"), (13, 5));
        assert_eq!(rt; outcome(b"TLAD\x00\x81\x00"), (14, 5));
        assert_eq!(rt; outcome(b"TLAD\x00\x00\x00\x07"), (15, 7));
        assert_eq!(rt; outcome(b"TLAD\x00\x00\x00"), (0, 0));
    }

    #[test]
    fn refused_headers(rt: HostRuntime) {
        assert_eq!(rt; outcome(b"TLAD\x01\x01\x00\x02"), (13, 7));
        assert_eq!(rt; outcome(b"TLAD\x02\x00\x00"), (14, 5));
        assert_eq!(rt; outcome(b"TLAD\x02\xd1\x07"), (14, 5));
        assert_eq!(rt;
            outcome(b"TLAD\x02\xd0\x07\x01\x00\xd1\x07\x00\x00"),
            (14, 9)
        );
        assert_eq!(rt;
            outcome(b"TLAD\x02\xd0\x07\x01\x00\xd0\x07\x00\x00"),
            (0, 0)
        );
        assert_eq!(rt; outcome(b"TLAD\x04\x00\x00\x00\x00"), (14, 5));
        assert_eq!(rt; outcome(b"TLAD\x04\x01\x10\x00\x00"), (14, 5));
        assert_eq!(rt; outcome(b"TLAD\x04\x00\x10\x00\x00"), (0, 0));
    }

    #[test]
    fn refused_records(rt: HostRuntime) {
        assert_eq!(rt; outcome(b"TLAD\x00\x01\x00"), (13, 7));
        assert_eq!(rt; outcome(b"TLAD\x00\x01\x00\x10"), (12, 7));
        assert_eq!(rt; outcome(b"TLAD\x00\x01\x00\x03\x01\x00\x02"), (13, 10));
        assert_eq!(rt; outcome(b"TLAD\x00\x01\x00\x04"), (13, 8));
        assert_eq!(rt; outcome(b"TLAD\x00\x01\x00\x04\x00"), (14, 8));
        assert_eq!(rt; outcome(b"TLAD\x00\x01\x00\x04\x11"), (14, 8));
        assert_eq!(rt;
            outcome(b"TLAD\x00\x01\x00\x04\x02\x01\x02\x03\x04\x05\x06\x07"),
            (13, 9)
        );
        assert_eq!(rt; outcome(b"TLAD\x00\x01\x00\x08\x03\x41\x42"), (13, 9));
        assert_eq!(rt; outcome(b"TLAD\x00\x01\x00\x08\x00"), (0, 0));
    }

    // Writes record w, whose map is the low four bits of w.
    fn write_record(out: &mut Writer, w: u8) -> Result<(), Fail> {
        let map = w & 15;
        out.byte(map)?;
        if map & 1 != 0 {
            out.signed(i16::from(w) * 100)?;
        }
        if map & 2 != 0 {
            out.signed(-i16::from(w))?;
        }
        if map & 4 != 0 {
            write_poses(out, w)?;
        }
        if map & 8 != 0 {
            write_note(out, w)?;
        }
        Ok(())
    }

    // Writes the pose list of record w: 1 to 16 poses (w, -number).
    fn write_poses(out: &mut Writer, w: u8) -> Result<(), Fail> {
        let count = w % 16 + 1;
        out.byte(count)?;
        for number in 0..count {
            out.signed(i16::from(w))?;
            out.signed(-i16::from(number))?;
        }
        Ok(())
    }

    // Writes the note of record w: w bytes.
    fn write_note(out: &mut Writer, w: u8) -> Result<(), Fail> {
        out.byte(w)?;
        for _ in 0..w {
            out.byte(0x2a)?;
        }
        Ok(())
    }

    // Writes a job with all header fields and 128 records.
    fn write_job(out: &mut Writer) -> Result<(), Fail> {
        out.letters()?;
        out.byte(7)?;
        for n in [9u16, 65535, 1, 2000, 0, 4096, 128] {
            out.word(n)?;
        }
        for w in 0..128u8 {
            write_record(out, w)?;
        }
        Ok(())
    }

    #[test]
    fn written_values_are_read(rt: HostRuntime) -> Result<(), Fail> {
        let mut out = Writer::new(rt.alloc());
        write_job(&mut out)?;
        let job = read(out.bytes.as_slice())?;
        assert_eq!(rt; job.len(), 128);
        assert_eq!(rt; (job.limits().shoulder, job.limits().elbow), (9, 65535));
        assert_eq!(rt; job.ration(), 4096);
        let arm = Arm {
            first: 1,
            second: 2000,
            window: 0,
        };
        assert_eq!(rt; job.arm(), Some(arm));
        Ok(())
    }

    #[test]
    fn written_positions_are_read(rt: HostRuntime) -> Result<(), Fail> {
        let mut out = Writer::new(rt.alloc());
        write_job(&mut out)?;
        let job = read(out.bytes.as_slice())?;
        let mut x = 0;
        let mut y = 0;
        for w in 0..128u8 {
            if w & 1 != 0 {
                x = i16::from(w) * 100;
            }
            if w & 2 != 0 {
                y = -i16::from(w);
            }
            assert_eq!(rt; job.position(u16::from(w)), Some(Position { x, y }));
        }
        assert!(rt; job.position(128).is_none());
        Ok(())
    }

    fn counts(shoulder: i16, elbow: i16) -> Counts {
        Counts { shoulder, elbow }
    }

    #[test]
    fn written_poses_are_read(rt: HostRuntime) -> Result<(), Fail> {
        let mut out = Writer::new(rt.alloc());
        write_job(&mut out)?;
        let job = read(out.bytes.as_slice())?;
        assert_eq!(rt; job.pose_count(3), 0);
        assert!(rt; job.pose(3, 0).is_none());
        assert_eq!(rt; job.pose_count(127), 16);
        assert_eq!(rt; job.pose(127, 0), Some(counts(127, 0)));
        assert_eq!(rt; job.pose(127, 15), Some(counts(127, -15)));
        assert!(rt; job.pose(127, 16).is_none());
        assert_eq!(rt; job.pose_count(128), 0);
        Ok(())
    }

    #[test]
    fn cut_files_are_refused(rt: HostRuntime) -> Result<(), Fail> {
        let mut out = Writer::new(rt.alloc());
        write_job(&mut out)?;
        let file = out.bytes.as_slice();
        for n in 0..file.len() {
            let (number, place) = outcome(&file[0..n]);
            assert!(rt;
                if n < 4 {
                    number == 11 && place == 0
                } else {
                    number == 13 && place <= n
                }
            );
        }
        assert_eq!(rt; outcome(file), (0, 0));
        Ok(())
    }

    // Writes the longest record: both numbers, 16 poses and a note of 255 bytes.
    fn write_long_record(out: &mut Writer) -> Result<(), Fail> {
        out.byte(15)?;
        out.signed(-32768)?;
        out.signed(32767)?;
        write_poses(out, 15)?;
        write_note(out, 255)
    }

    #[test]
    fn longest_job(rt: HostRuntime) -> Result<(), Fail> {
        let mut out = Writer::new(rt.alloc());
        out.letters()?;
        out.byte(7)?;
        for n in [0u16, 0, 2000, 2000, 2000, 4096, 128] {
            out.word(n)?;
        }
        for _ in 0..128u8 {
            write_long_record(&mut out)?;
        }
        assert_eq!(rt; outcome(out.bytes.as_slice()), (0, 0));
        out.byte(0)?;
        assert_eq!(rt; outcome(out.bytes.as_slice()), (15, 41747));
        Ok(())
    }

    // The kind of a field by a letter, with its place and size where it is a part: the test keeps the values that it was written with.
    fn sketch(field: Option<Field>) -> (u8, usize, usize) {
        match field {
            Some(Field::X(_)) => (b'x', 0, 0),
            Some(Field::Y(_)) => (b'y', 0, 0),
            Some(Field::Poses(part)) => (b'p', part.place, part.bytes.len()),
            Some(Field::Note(part)) => (b'n', part.place, part.bytes.len()),
            None => (0, 0, 0),
        }
    }

    #[test]
    fn fields_in_bit_order(rt: HostRuntime) -> Result<(), Fail> {
        let file = b"TLAD\x00\x01\x00\x0f\x01\x00\x02\x00\x01\x03\x00\x04\x00\x02\x41\x42";
        let (_, mut records) = open(file)?;
        let mut fields = records.next_record()?.ok_or("no record")?;
        assert_eq!(rt; sketch(fields.next_field()), (b'x', 0, 0));
        assert_eq!(rt; sketch(fields.next_field()), (b'y', 0, 0));
        assert_eq!(rt; sketch(fields.next_field()), (b'p', 13, 4));
        assert_eq!(rt; sketch(fields.next_field()), (b'n', 18, 2));
        assert_eq!(rt; sketch(fields.next_field()), (0, 0, 0));
        Ok(())
    }

    #[test]
    fn an_unread_record_is_refused_alike_again(rt: HostRuntime) -> Result<(), Fail> {
        let file = b"TLAD\x00\x02\x00\x01\x05\x00\x03\x06\x00\x07";
        let (_, mut records) = open(file)?;
        assert!(rt; records.next_record()?.is_some());
        let first = records.next_record().err().ok_or("read")?;
        assert_eq!(rt; (first.question.number(), first.place), (13, 13));
        let again = records.next_record().err().ok_or("read")?;
        assert_eq!(rt; (again.question.number(), again.place), (13, 13));
        Ok(())
    }
}
