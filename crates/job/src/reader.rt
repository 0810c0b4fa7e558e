ghost use Rattle.std.specs.Prelude.{◌≤◌};

use crate::cursor::Cursor;

// A file's records from the cursor on. No file has more than 128.
#[derive(Drop)]
pub struct Records<'a> {
    pub(crate) cursor: Cursor<'a>,
    pub(crate) left: u16,
    ghost few: { left ≤ 128 },
}
