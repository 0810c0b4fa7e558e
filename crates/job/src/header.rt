ghost use Rattle.std.specs.Prelude.{◌≡◌, ℕ, ◌≤◌, IfOk};
ghost use Rattle.job.specs.Reading.{limits, arm, opening, head_fields, heading};
ghost use Rattle.job.specs.Outcomes.{Opened};
ghost use Rattle.job.specs.Views.{Reads, begun, opened, head_v};

use crate::cursor::Cursor;
use crate::faults::{Fault, Question};
use crate::reader::Records;
use crate::values::Arm;
use ladder::poses::Limits;

// The bits of the header's map, and those that name nothing: the file has them as numbers.
const LIMITS: u8 = 1;

const ARM: u8 = 2;

const RATION: u8 = 4;

const UNNAMED: u8 = 248;

// What a file says before its records; a value that is not written is None.
#[derive(Clone, Copy, PartialEq, Eq, Debug)]
pub struct Header {
    pub limits: Option<Limits>,
    pub arm: Option<Arm>,
    pub ration: Option<u16>,
}

// The letters and the map, and a cursor on what follows.
fn begin<'a>(file: &'a [u8]) -> Result<(u8, Cursor<'a>), Fault>
    ensures reads { begun result ≡ opening file.now 0 }
    ensures kept { IfOk result (λ t. t.1.file ≡ file.entry) }
{
    match file {
        [b'T', b'L', b'A', b'D', map, rest @ ..] => {
            if *map & UNNAMED != 0 {
                return Err(Fault {
                    question: Question::Map,
                    place: 4,
                });
            }
            Ok((
                *map,
                Cursor {
                    file,
                    at: file.len() - rest.len(),
                },
            ))
        }
        [b'T', b'L', b'A', b'D'] => Err(Fault {
            question: Question::Whole,
            place: 4,
        }),
        _ => Err(Fault {
            question: Question::Letters,
            place: 0,
        }),
    }
}

impl<'a> Cursor<'a> {
    // The step limits.
    fn next_limits(&mut self) -> Result<Limits, Fault>
        ensures { Reads (λ v. v) limits self.old self.new result }
    {
        Ok(Limits {
            shoulder: self.next_word()?,
            elbow: self.next_word()?,
        })
    }

    // The arm's numbers.
    fn next_arm(&mut self) -> Result<Arm, Fault>
        ensures { Reads (λ v. v) arm self.old self.new result }
    {
        Ok(Arm {
            first: self.next_ranged(1, 2000)?,
            second: self.next_ranged(1, 2000)?,
            window: self.next_ranged(0, 2000)?,
        })
    }

    // The header's fields that the map names, and the count of records.
    fn next_header(&mut self, map: u8) -> Result<(Header, u16), Fault>
        ensures reads { Reads (λ t. (head_v t.0, t.1)) (head_fields map) self.old self.new result }
        ensures few { IfOk result (λ t. t.1 ≤ 128) }
    {
        let limits = self.optional(map & LIMITS != 0, Cursor::next_limits)?;
        let arm = self.optional(map & ARM != 0, Cursor::next_arm)?;
        let ration = self.optional(map & RATION != 0, |cursor| cursor.next_ranged(1, 4096))?;
        let count = self.next_ranged(0, 128)?;
        Ok((
            Header {
                limits,
                arm,
                ration,
            },
            count,
        ))
    }
}

// Reads what stands before the records: the header, and a reader of the records.
pub fn open<'a>(file: &'a [u8]) -> Result<(Header, Records<'a>), Fault>
    ensures reads { opened result ≡ heading file.now 0 }
    ensures kept { IfOk result (λ t. t.1.cursor.file ≡ file.entry) }
    ensures few { IfOk result (λ t. t.1.left ≤ 128) }
    ensures law { Opened file.now result }
{
    let (map, mut cursor) = begin(file)?;
    let (header, left) = cursor.next_header(map)?;
    Ok((header, Records { cursor, left }))
}
