// Lines of names and lines of values.
ghost use Rattle.std.specs.Prelude.{◌≡◌, length, take, Decides};
ghost use Rattle.text.specs.Lines.{space, parts};
ghost use Rattle.files.specs.Blocks.{width};
ghost use Rattle.files.specs.Layout.{IsOrder};
ghost use Rattle.files.specs.OneProof.{isorder_prop};

mod names;
mod values;

use crate::blocks::Block;
pub(crate) use names::read_columns;
use text::items::count;
pub(crate) use values::read_row;

// The most columns that a block has.
pub const MOST_COLUMNS: usize = 6;

// The columns of a block in the order in which a line names them.
#[derive(Clone, Copy)]
pub struct Columns {
    block: Block,
    // An array, with a place for each column of the widest block: a `Columns` is Copy, and an `ArrayVec` is not.
    order: [usize; MOST_COLUMNS],
    ghost isorder: { IsOrder (width block) (take (width block) order) } by { isorder_prop (width block) (take (width block) order) },
}

// Whether a line has as many items as the block has columns.
fn fills(block: Block, text: &[u8]) -> bool
    ensures { Decides result (length (parts space text.now) ≡ width block) }
{
    count(text) == block.width()
}
