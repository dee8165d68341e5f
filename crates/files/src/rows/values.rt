// Reads a line of values.
ghost use Rattle.std.specs.Prelude.{◌≡◌, ℕ, length, Option as OptionOf, MatchResult};
ghost use Rattle.text.specs.Lines.{space, parts};
ghost use Rattle.files.specs.Blocks.{width};
ghost use Rattle.files.specs.Columns.{order_of};
ghost use Rattle.files.specs.Faults.{of_value};
ghost use Rattle.files.specs.Layout.{IsValue, Row, RowFault};

use super::{Columns, MOST_COLUMNS, fills};
use crate::blocks::Block;
use crate::fault::{Fault, FileRefusal, Place};
use arrayvec::ArrayVec;
use text::items::Items;
use text::numbers::number;
use text::reader::Line;

impl Columns {
    // The columns in the order of their names.
    fn order(&self) -> &[usize]
        ensures { result.now ≡ order_of self.now }
    {
        &self.order[..self.block.width()]
    }
}

// A dash stands for a value that is lacking, in a column that may lack it; any other item is a number.
fn read_value(block: Block, column: usize, item: &[u8], place: Place) -> Result<Option<u32>, Fault>
    ensures { MatchResult result (λ v. IsValue block column item.now v) (λ f. ((v : OptionOf ℕ) → IsValue block column item.now v → ⊥) × (f ≡ of_value place)) }
{
    if item == b"-".as_slice() && block.may_lack(column) {
        return Ok(None);
    }
    number(item).map(Some).ok_or(Fault {
        cause: FileRefusal::Value.into(),
        place,
    })
}

// Reads as many values as the block has columns.
fn read_values(columns: &Columns, line: Line) -> Result<ArrayVec<Option<u32>, MOST_COLUMNS>, Fault>
    requires { length (parts space line.text.now) ≡ width columns.now.block }
    ensures { MatchResult result (λ row. Row columns.now.block (order_of columns.now) row.items line.entry.text.now) (RowFault columns.now.block (order_of columns.now) line.entry.number line.entry.text.now) }
{
    let mut row = ArrayVec::from([None; MOST_COLUMNS]);
    row.truncate(columns.block.width());
    for (i, (item, column)) in Items::new(line.text).zip(columns.order()).enumerate() {
        let place = Place::Item {
            line: line.number,
            item: i + 1,
        };
        row[*column] = read_value(columns.block, *column, item, place)?;
    }
    Ok(row)
}

// Reads a line of values, and gives them in the block's own order.
pub(crate) fn read_row(
    columns: &Columns,
    line: Line,
) -> Result<ArrayVec<Option<u32>, MOST_COLUMNS>, Fault>
    ensures { MatchResult result (λ row. Row columns.now.block (order_of columns.now) row.items line.entry.text.now) (RowFault columns.now.block (order_of columns.now) line.entry.number line.entry.text.now) }
{
    if !fills(columns.block, line.text) {
        return Err(Fault::at_line(FileRefusal::Count, line.number));
    }
    read_values(columns, line)
}
