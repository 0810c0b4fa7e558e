ghost use Rattle.std.specs.Prelude.{◌≡◌, ◌≤◌, length};

use crate::values::Position;

// A waypoint of a job: its position, and the bytes of its pose list where they lie in the file, if one is written. Without a list it is all zeros, so an
// empty table is made at one stroke.
#[derive(Clone, Copy)]
pub(crate) struct Row<'a> {
    pub(crate) position: Position,
    pub(crate) poses: Option<&'a [u8]>,
}

// The waypoints of a job in order, at most 128. The reader allocates nothing, so they lie in fixed places with a length beside; the kit's
// ArrayVec would hold them too, but cannot be copied, and a job can.
#[derive(Clone, Copy)]
pub(crate) struct Table<'a> {
    rows: [Row<'a>; 128],
    len: u16,
    ghost size: { length rows ≡ 128 },
    ghost fits: { len ≤ 128 },
}

impl<'a> Row<'a> {
    ghost use Rattle.std.specs.Prelude.{[]};
    ghost use Rattle.job.specs.Rows.{row_v};

    // A waypoint with no poses.
    pub(crate) fn bare(position: Position) -> Row<'a>
        ensures { row_v result ≡ record { position = position; poses = [] } }
    {
        Row {
            position,
            poses: None,
        }
    }
}

impl<'a> Table<'a> {
    ghost use Rattle.std.specs.Prelude.{◌<◌, ◌++◌, ◌∷◌, []};
    ghost use Rattle.std.specs.List.{slice_get};
    ghost use Rattle.job.specs.Rows.{in_use};

    // No waypoints.
    pub(crate) fn new() -> Table<'a>
        ensures { in_use result ≡ [] }
    {
        Table {
            rows: [Row::bare(Position::default()); 128],
            len: 0,
        }
    }

    // One waypoint more.
    pub(crate) fn push(&mut self, row: Row<'a>)
        requires { length (in_use self.old) < 128 }
        ensures { in_use self.new ≡ in_use self.old ++ row.entry ∷ [] }
    {
        self.rows[self.len as usize] = row;
        self.len += 1;
    }

    // How many waypoints there are.
    pub(crate) fn len(&self) -> u16
        ensures { result ≡ length (in_use self.now) }
    {
        self.len
    }

    // Waypoint w, if there are so many.
    pub(crate) fn get(&self, w: u16) -> Option<Row<'a>>
        ensures { result ≡ slice_get (in_use self.now) w }
    {
        self.rows[..self.len as usize].get(w as usize).copied()
    }
}
