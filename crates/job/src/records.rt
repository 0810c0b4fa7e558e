ghost use Rattle.std.specs.Prelude.{◌≡◌, ℕ, ◌+◌, ◌<◌, length, IfSome, IfOk, nat_lt};
ghost use Rattle.std.specs.Option.{option_map};
ghost use Rattle.std.specs.Iterator.{YieldsFirstBy, item_count};
ghost use Rattle.job.specs.Reading.{opt, poses, note, entry};
ghost use Rattle.job.specs.Bytes.{poses_of_bytes};
ghost use Rattle.job.specs.Outcomes.{Next};
ghost use Rattle.job.specs.Views.{Reads, record_v, Lies, Places, field_v, Without, taken, unhanded, first_of, rest_of};

use crate::cursor::{Cursor, Guard, Part};
use crate::faults::{Fault, Question};
pub use crate::reader::Records;

// The fields of one record that are still to be handed out.
#[derive(Clone, Copy)]
pub struct Record<'a> {
    x: Option<i16>,
    y: Option<i16>,
    poses: Option<Part<'a>>,
    note: Option<Part<'a>>,
}

// One field of a record.
#[derive(Clone, Copy)]
pub enum Field<'a> {
    X(i16),
    Y(i16),
    Poses(Part<'a>),
    Note(Part<'a>),
}

// The bits of a record's map, and those that name nothing: the file has them as numbers.
const X: u8 = 1;

const Y: u8 = 2;

const POSES: u8 = 4;

const NOTE: u8 = 8;

const UNNAMED: u8 = 240;

impl<'a> Cursor<'a> {
    // A pose list after its count.
    fn next_poses(&mut self) -> Result<Part<'a>, Fault>
        ensures reads { Reads (λ p. poses_of_bytes p.bytes.now) poses self.old self.new result }
        ensures moves { IfOk result (λ p. (p.place ≡ self.old.at + 1) × Lies self.old.file.now p × (self.new.at ≡ self.old.at + 1 + length p.bytes.now)) }
    {
        let refusal = self.fault(Question::Range);
        let n = self.next_byte()?;
        if !(1..=16).contains(&n) {
            return Err(refusal);
        }
        self.next_part(n as usize * 4)
    }

    // A note after its length.
    fn next_note(&mut self) -> Result<Part<'a>, Fault>
        ensures reads { Reads (λ p. p.bytes.now) note self.old self.new result }
        ensures moves { IfOk result (λ p. (p.place ≡ self.old.at + 1) × Lies self.old.file.now p) }
    {
        let n = self.next_byte()?;
        self.next_part(n as usize)
    }

    // A record: its map, and the fields that the map names.
    fn next_record(&mut self) -> Result<Record<'a>, Fault>
        ensures reads { Reads record_v entry self.old self.new result }
        ensures places { IfOk result (Places self.old.file.now self.old.at) }
    {
        let refusal = self.fault(Question::Map);
        let map = self.next_byte()?;
        if map & UNNAMED != 0 {
            return Err(refusal);
        }
        let x = self.optional(map & X != 0, Cursor::next_signed)?;
        let y = self.optional(map & Y != 0, Cursor::next_signed)?;
        let poses = self.optional(map & POSES != 0, Cursor::next_poses)?;
        let note = self.optional(map & NOTE != 0, Cursor::next_note)?;
        Ok(Record { x, y, poses, note })
    }
}

impl<'a> Records<'a> {
    // The next record, or None after the last. Where it answers no record, the reader is back on that record's map byte.
    pub fn next_record(&mut self) -> Result<Option<Record<'a>>, Fault>
        ensures reads { Reads (option_map record_v) (opt (nat_lt 0 self.old.left) entry) self.old.cursor self.new.cursor result }
        ensures places { IfOk result (λ o. IfSome o (Places self.old.cursor.file.now self.old.cursor.at)) }
        ensures back { Without result (self.new.cursor.at ≡ self.old.cursor.at) }
        ensures left { self.new.left + taken result ≡ self.old.left }
        ensures law { Next self.old.cursor.file.now self.old.left self.old.cursor.at self.new.cursor.at result }
    {
        let mut guard = Guard {
            back: Some(self.cursor.at),
            cursor: &mut self.cursor,
        };
        if self.left == 0 {
            return Ok(None);
        }
        let record = guard.cursor.next_record()?;
        guard.back = None;
        self.left -= 1;
        Ok(Some(record))
    }
}

impl<'a> Record<'a> {
    // Hands out the record's fields one by one, in bit order. Tried by `map(Field::X)` and `or_else`: the check takes no function whose result names a lifetime that its
    // argument does not.
    pub fn next_field(&mut self) -> Option<Field<'a>>
        ensures field { option_map field_v result ≡ first_of (unhanded self.old) }
        ensures others { unhanded self.new ≡ rest_of (unhanded self.old) }
    {
        if let Some(x) = self.x.take() {
            return Some(Field::X(x));
        }
        if let Some(y) = self.y.take() {
            return Some(Field::Y(y));
        }
        if let Some(part) = self.poses.take() {
            return Some(Field::Poses(part));
        }
        if let Some(part) = self.note.take() {
            return Some(Field::Note(part));
        }
        None
    }
}

impl<'a> Iterator for Record<'a> {
    type Item = Field<'a>;

    ghost next_gives = { YieldsFirstBy field_v unhanded };

    ghost remaining = { item_count unhanded };

    fn next(&mut self) -> Option<Field<'a>> {
        self.next_field()
    }
}
