ghost use Rattle.std.specs.Prelude.{◌≡◌, ℕ, ◌+◌, ◌<◌, ◌≤◌, length, IfOk, unwrap_or, slice_index};

use crate::faults::{Fault, Question};

// A file, and a place in it.
#[derive(Clone, Copy)]
pub struct Cursor<'a> {
    pub(crate) file: &'a [u8],
    pub(crate) at: usize,
    // Each element of the file is a byte: the laws of the layout ask for it.
    ghost bytes: { (i : ℕ) → slice_index file.now i < 256 },
}

// Some bytes of a file, with the place of the first. A part has no file beside it, so that it lies in one is a clause.
#[derive(Clone, Copy)]
pub struct Part<'a> {
    pub place: usize,
    pub bytes: &'a [u8],
}

impl<'a> Cursor<'a> {
    ghost use Rattle.job.specs.Reading.{byte, word, signed, chunk, ranged};
    ghost use Rattle.job.specs.Views.{Reads, part_v, Lies, IsRead};
    ghost use Rattle.std.specs.Fn.{FnOnceReturnsAtMut};
    ghost use Rattle.std.specs.Bool.{MatchBool};

    // The refusal of what begins here.
    pub(crate) fn fault(&self, question: Question) -> Fault
        ensures { result ≡ record { question = question; place = self.now.at } }
    {
        Fault {
            question,
            place: self.at,
        }
    }

    // The next n bytes, a whole field.
    pub(crate) fn next_part(&mut self, n: usize) -> Result<Part<'a>, Fault>
        ensures reads { Reads part_v (chunk n) self.old self.new result }
        ensures moves { IfOk result (λ p. (p.place ≡ self.old.at) × Lies self.old.file.now p × (length p.bytes.now ≡ n) × (self.new.at ≡ self.old.at + n)) }
    {
        let place = self.at;
        let bytes = self
            .file
            .get(place..)
            .and_then(|rest| rest.get(..n))
            .ok_or(self.fault(Question::Whole))?;
        self.at += n;
        Ok(Part { place, bytes })
    }

    pub(crate) fn next_byte(&mut self) -> Result<u8, Fault>
        ensures reads { Reads (λ n. n) byte self.old self.new result }
        ensures moves { IfOk result (λ n. self.new.at ≡ self.old.at + 1) }
    {
        let part = self.next_part(1)?;
        Ok(part.bytes[0])
    }

    pub(crate) fn next_word(&mut self) -> Result<u16, Fault>
        ensures reads { Reads (λ n. n) word self.old self.new result }
        ensures moves { IfOk result (λ n. self.new.at ≡ self.old.at + 2) }
    {
        let part = self.next_part(2)?;
        Ok(u16::from_le_bytes([part.bytes[0], part.bytes[1]]))
    }

    pub(crate) fn next_signed(&mut self) -> Result<i16, Fault>
        ensures reads { Reads (λ n. n) signed self.old self.new result }
        ensures moves { IfOk result (λ n. self.new.at ≡ self.old.at + 2) }
    {
        let n = self.next_word()?;
        Ok(n.cast_signed())
    }

    // What `read` reads, if it is there.
    pub(crate) fn optional<T, F: FnOnce(&mut Cursor<'a>) -> Result<T, Fault>>(
        &mut self,
        there: bool,
        read: F,
    ) -> Result<Option<T>, Fault>
        requires { F.IsAlwaysCallable read }
        ensures { MatchBool there (IsRead (FnOnceReturnsAtMut F.FnOnce read self.old) result self.new) ((result ≡ Ok None) × (self.new ≡ self.old)) }
    {
        if there {
            Ok(Some(read(self)?))
        } else {
            Ok(None)
        }
    }

    // A number from low to high.
    pub(crate) fn next_ranged(&mut self, low: u16, high: u16) -> Result<u16, Fault>
        ensures reads { Reads (λ n. n) (ranged low high) self.old self.new result }
        ensures within { IfOk result (λ n. n ≤ high) }
    {
        let refusal = self.fault(Question::Range);
        let n = self.next_word()?;
        if (low..=high).contains(&n) {
            Ok(n)
        } else {
            Err(refusal)
        }
    }
}

// Puts the cursor back to the kept place on drop; where none is kept it stays.
pub(crate) struct Guard<'g, 'a> {
    pub(crate) cursor: &'g mut Cursor<'a>,
    pub(crate) back: Option<usize>,
}

impl Drop for Guard<'_, '_> {
    fn drop(self)
        ensures place { self.exit.0.now.at ≡ unwrap_or self.entry.back self.entry.cursor.now.at }
        ensures file { self.exit.0.now.file ≡ self.entry.cursor.now.file }
    {
        let Guard { cursor, back } = self;
        if let Some(place) = back {
            cursor.at = place;
        }
    }
}
