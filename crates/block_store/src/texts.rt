//! The bytes of texts.

ghost use Rattle.std.specs.Prelude.{◌≡◌, Ok, IfOk};
ghost use Rattle.block_store.specs.Actions.{joined_bytes};
ghost use Rattle.block_store.specs.Texts.{text_of};
ghost use Rattle.block_store.specs.Undo.{appended};

use crate::values::Cell;
use ak_words::{NoMemory, Rule};

/// Appends the bytes before the first zero byte.
pub fn append_text(cells: &[Cell], out: &mut Vec<u8>) -> Result<Result<(), Rule>, NoMemory>
    ensures { IfOk result (λ answer. appended answer out.new.items ≡ joined_bytes (Ok out.old.items) (text_of cells.now)) }
{
    'text: for cell in cells {
        match cell {
            Cell::Byte(0) => return Ok(Ok(())),
            Cell::Byte(byte) => out.push(*byte)?,
            Cell::Unknown => return Ok(Err(Rule::C4)),
            Cell::Part { .. } => return Ok(Err(Rule::C16)),
        }
    }
    Ok(Err(Rule::C5))
}
