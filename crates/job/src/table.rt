ghost use Rattle.std.specs.Prelude.{◌≡◌, ◌≤◌, [], map};
ghost use Rattle.job.specs.Reading.{via, many, entry};
ghost use Rattle.job.specs.Resolved.{waypoint, waypoints, origin};
ghost use Rattle.job.specs.Rows.{row_v, in_use, entered};
ghost use Rattle.job.specs.Views.{Reads, record_v, field_v};

use crate::faults::Fault;
use crate::reader::Records;
use crate::records::{Field, Record};
use crate::rows::{Row, Table};
use crate::values::Position;

impl<'a> Row<'a> {
    // The row with one field of its record entered.
    fn with(mut self, field: Field<'a>) -> Row<'a>
        ensures { row_v result ≡ entered (row_v self.entry) (field_v field.entry) }
    {
        match field {
            Field::X(x) => self.position.x = x,
            Field::Y(y) => self.position.y = y,
            Field::Poses(part) => self.poses = Some(part.bytes),
            Field::Note(_) => {}
        }
        self
    }
}

// The row of a record that follows one at the position before.
fn row_of<'a>(fields: Record<'a>, before: Position) -> Row<'a>
    ensures { row_v result ≡ waypoint before (record_v fields.entry) }
{
    fields.fold(Row::bare(before), Row::with)
}

// Reads the records into the rows of a table that is empty, one for each. The table is filled where it lies: handed back by value it would be moved
// several times over, which a small file feels.
pub(crate) fn read_rows<'a>(records: &mut Records<'a>, table: &mut Table<'a>) -> Result<(), Fault>
    requires empty { in_use table.old ≡ [] }
    ensures { Reads (λ _. map row_v (in_use table.new)) (via (waypoints origin) (many records.old.left entry)) records.old.cursor records.new.cursor result }
{
    let mut before = Position::default();
    while let Some(fields) = records.next_record()? {
        let row = row_of(fields, before);
        table.push(row);
        before = row.position;
    }
    Ok(())
}
