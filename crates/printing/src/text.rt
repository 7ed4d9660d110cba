// The text of a row, of a refusal, and of the bytes of a table.
ghost use Rattle.std.specs.Prelude.{◌≡◌, is_ok, IfOk, MatchResult, string_bytes};
ghost use Rattle.reader.specs.Table.{opened};
ghost use Rattle.printing.specs.Text.{row_text, refused_text, table_text};

use crate::lines::{Refused, RowLines};
use reader::{Row, Table};
use std::alloc::{AllocError, Global};

// The lines of a row.
pub fn row_text(heap: Global, row: &Row) -> Result<String, AllocError>
    ensures { IfOk result (λ s. string_bytes s ≡ row_text row.now) }
{
    RowLines(row).to_string(heap)
}

// The line of a refusal. Its number and its place stay apart, as its callers have always passed them.
pub fn refused_text(heap: Global, number: u8, place: u32) -> Result<String, AllocError>
    ensures { IfOk result (λ s. string_bytes s ≡ refused_text number place) }
{
    Refused { number, place }.to_string(heap)
}

// Looks over the bytes of a table: the lines of the table that they lay out, or else the line of their refusal.
pub fn show_table(heap: Global, bytes: &[u8]) -> Result<Result<String, String>, AllocError>
    ensures sound { IfOk result (λ shown. is_ok shown ≡ is_ok (opened bytes.now)) }
    ensures text { IfOk result (λ shown. MatchResult shown (λ s. string_bytes s ≡ table_text bytes.now) (λ s. string_bytes s ≡ table_text bytes.now)) }
{
    let mut table = Table::resting();
    Ok(match table.open(bytes) {
        Ok(()) => Ok(row_text(heap, table.row())?),
        Err(fault) => Err(refused_text(heap, fault.number(), fault.place())?),
    })
}
