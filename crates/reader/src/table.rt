// Tables: rows with the facts that every table keeps.
ghost use Rattle.std.specs.Prelude.{◌≡◌, ◌<◌, ◌≤◌, Ok, MatchResult};
ghost use Rattle.reader.specs.Row.{blank, StepsFit, ErrorsFit};
ghost use Rattle.reader.specs.Layout.{LaidOut, Breaks};
ghost use Rattle.reader.specs.Table.{opened, opening};

use crate::draft::Draft;
use crate::fault::Fault;
use crate::row::Row;
use crate::unread::Unread;

// A row that keeps the limits and facts of a table.
#[derive(Clone, Copy)]
pub struct Table {
    row: Row,
    ghost some: { 1 ≤ row.states },
    ghost few: { row.states ≤ 64 },
    ghost begins: { row.start < row.states },
    ghost room: { row.count ≤ 256 },
    ghost fits: { StepsFit row },
    ghost fails: { ErrorsFit row },
}

impl Table {
    // One state, which is the start, and nothing else.
    pub fn resting() -> Table
        ensures { result.row ≡ blank 1 0 }
    {
        Table {
            row: Row::blank(1, 0),
        }
    }

    // What the table tells.
    pub fn row(&self) -> &Row
        ensures { result.now ≡ self.now.row }
    {
        &self.row
    }

    // Fills the table with what the bytes lay out; a refusal leaves it as it was. It succeeds exactly on the
    // bytes that lay out a table, and a refusal points at the first record that breaks the layout.
    pub fn open(&mut self, bytes: &[u8]) -> Result<(), Fault>
        ensures outcome { (result, self.new.row) ≡ opening bytes.now self.old.row }
        ensures told { MatchResult result (λ _. LaidOut bytes.now self.new.row) (λ f. Breaks bytes.now f) }
        ensures opens { (row : Row) → LaidOut bytes.now row → (result ≡ Ok tt) × (self.new.row ≡ row) }
    {
        let row = read(bytes)?;
        *self = Table { row };
        Ok(())
    }
}

// The row that the bytes lay out, or their first fault.
fn read(bytes: &[u8]) -> Result<Row, Fault>
    ensures { result ≡ opened bytes.now }
{
    let mut draft = Draft::new();
    let mut unread = Unread::of(bytes);
    while !draft.is_closed() {
        let placed = unread.read_record()?;
        draft.take(&placed)?;
    }
    if !unread.rest.is_empty() {
        return Err(Fault::Trailing(unread.at));
    }
    Ok(draft.row)
}
