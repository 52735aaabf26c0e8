//! Marking: which locks are in K, and which rows are kept.
#![tactic(auto)]

ghost use Rattle.std.specs.Prelude.{◌≡◌, true, ◌≤◌, length};
ghost use Rattle.laws.specs.Memory.{over};
ghost use Rattle.model.specs.Given.{given, deps_of};
ghost use Rattle.model.specs.Marking.{lock_marks, row_marks, marked, marks_answer, marking, page_of};

use given::Table;
use model::{MOST_LOCKS, MOST_ROWS, Refusal};
use peeling::Peeling;

mod peeling;

/// Writes the locks' marks and the rows'.
fn write_marks(table: Table, locks: &mut [u8], marks: &mut [u8])
    requires { (length locks.old ≡ 256) × (1024 ≤ length marks.old) }
    ensures locks { locks.new ≡ lock_marks (deps_of table.entry.rows table.entry.words.now) }
    ensures rows { marks.new ≡ over (row_marks (deps_of table.entry.rows table.entry.words.now)) marks.old }
{
    let mut peeling = Peeling::new(table, locks);
    peeling.peel();
    let (kept, past) = marks.split_at_mut(table.rows);
    for (row, mark) in kept.iter_mut().enumerate() {
        *mark = u8::from(peeling.keeps(row));
    }
    past[..MOST_ROWS - table.rows].fill(0);
}

/// Writes the mark page of a table that is well formed.
// Words and row count as two arguments and no `Table`, here and at `mark`: callers have what reading left, and may not be asked for more.
pub fn mark_rows(table: &[u16], rows: usize, page: &mut [u8])
    requires { (given rows table.now ≡ true) × (1280 ≤ length page.old) }
    ensures { page.new ≡ over (page_of (deps_of rows table.now)) page.old }
{
    let (locks, marks) = page.split_at_mut(MOST_LOCKS);
    write_marks(Table { words: table, rows }, locks, marks);
}

/// Writes the mark page of any table that is given, or refuses.
#[tactic(auto, using(model::proofs::Marks::marking_small, model::proofs::Marks::marking_rows, model::proofs::Marks::marking_passes))]
pub fn mark(table: &[u16], rows: usize, page: &mut [u8]) -> Result<(), Refusal>
    ensures { marked (marks_answer result) page.new ≡ marking rows table.now page.old }
{
    if page.len() < MOST_LOCKS + MOST_ROWS {
        return Err(Refusal::Small);
    }
    let table = Table::new(table, rows)?;
    mark_rows(table.words, table.rows, page);
    Ok(())
}
