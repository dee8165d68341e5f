// Reads a line of names.
ghost use Rattle.std.specs.Prelude.{◌≡◌, ℕ, List, take, MatchOption, MatchResult};
ghost use Rattle.files.specs.Blocks.{width};
ghost use Rattle.files.specs.Columns.{order_of, Adds, AddsNone};
ghost use Rattle.files.specs.Faults.{at_line};
ghost use Rattle.files.specs.Layout.{Names};
ghost use Rattle.files.specs.declared.fault.FileRefusal.TheVariants as refusals;

use super::{Columns, MOST_COLUMNS, fills};
use crate::blocks::Block;
use crate::fault::{Fault, FileRefusal};
use text::items::Items;
use text::reader::Line;

// The column that an item names, unless it was named before.
fn new_column(block: Block, seen: &[usize], item: &[u8]) -> Option<usize>
    ensures { MatchOption result (AddsNone block seen.now item.now) (λ k. Adds block seen.now item.now k) }
{
    block.column(item).filter(|column| !seen.contains(column))
}

// The columns that a line names, unless it does not name each of them once.
fn read_order(block: Block, text: &[u8]) -> Option<[usize; MOST_COLUMNS]>
    ensures { MatchOption result ((order : List ℕ) → Names block order text.now → ⊥) (λ o. Names block (take (width block) o) text.now) }
{
    if !fills(block, text) {
        return None;
    }
    // An array and not an `ArrayVec`: `Columns` keeps it as one, since it is Copy.
    let mut order = [0; MOST_COLUMNS];
    for (place, item) in Items::new(text).enumerate() {
        order[place] = new_column(block, &order[..place], item)?;
    }
    Some(order)
}

// Reads a line of names: each column of the block once, in any order.
pub(crate) fn read_columns(block: Block, line: Line) -> Result<Columns, Fault>
    ensures { MatchResult result (λ c. (c.block ≡ block) × Names block (order_of c) line.entry.text.now) (λ f. ((order : List ℕ) → Names block order line.entry.text.now → ⊥) × (f ≡ at_line refusals.Names line.entry.number)) }
{
    let Some(order) = read_order(block, line.text) else {
        return Err(Fault::at_line(FileRefusal::Names, line.number));
    };
    Ok(Columns { block, order })
}
