//! Test 14: whether a table given to a call is well formed; and the tables that are.
#![tactic(auto)]

ghost use Rattle.std.specs.Prelude.{IfOk, IfErr, false, All, ◌≡◌, true, ◌+◌, ◌*◌, ◌≤◌, ◌<◌, ◌↔◌, IsTrue, length};
ghost use Rattle.std.specs.List.Sorted.{IsStrictlyIncreasing};
ghost use Rattle.laws.specs.Memory.{part};
ghost use Rattle.model.specs.declared.Refusal.TheVariants.{Rows};
ghost use Rattle.model.specs.Rows.{most_rows};
ghost use Rattle.model.specs.Table.{row_size};
ghost use Rattle.model.specs.Given.{given};
ghost use Rattle.model.proofs.Given.{dep_at};
ghost use Rattle.given.specs.Working.{Locks, Unused, Places, RowParts};

use index::Index;
use model::{MOST_LOCKS, MOST_ROWS, MOST_THREADS, Refusal, UNUSED};

/// Each of the words is the number of a lock.
fn all_locks(words: &[u16]) -> bool
    ensures { IsTrue result ↔ Locks words.now }
{
    words.iter().all(|word| usize::from(*word) < MOST_LOCKS)
}

/// Each of the words is above the one before it.
fn rising(words: &[u16]) -> bool
    ensures { IsTrue result ↔ IsStrictlyIncreasing words.now }
{
    words.windows(2).all(|pair| pair[0] < pair[1])
}

/// None of the words is a lock.
fn all_unused(words: &[u16]) -> bool
    ensures { IsTrue result ↔ Unused words.now }
{
    words.iter().all(|word| *word == UNUSED)
}

/// Of the seven places the first `size` rise, are below 256 and have not the wanted lock, and the others are unused.
fn places_ok(places: &[u16], size: usize, wanted: u16) -> bool
    requires { (length places.now ≡ 7) × (size ≤ 7) }
    ensures { IsTrue result ↔ Places places.now size wanted }
{
    let (held, rest) = places.split_at(size);
    all_locks(held) && rising(held) && all_unused(rest) && !held.contains(&wanted)
}

/// The thread and the locks are within the limits, and H has one to seven locks in its places, which are words 3 to 9.
fn row_ok(row: &[u16]) -> bool
    requires { length row.now ≡ 12 }
    ensures { IsTrue result ↔ RowParts row.now }
{
    let size = usize::from(row[2]);
    usize::from(row[0]) < MOST_THREADS
        && usize::from(row[1]) < MOST_LOCKS
        && (1..=7).contains(&size)
        && places_ok(&row[3..10], size, row[1])
}

/// The twelve words of a row.
fn row_of(words: &[u16], row: usize) -> &[u16]
    requires { (row < most_rows) × (row * row_size + row_size ≤ length words.now) }
    ensures value { result.now ≡ part (row * row_size) row_size words.now }
    ensures long { length result.now ≡ row_size }
    ensures place { (result.ref_ptr.0 ≡ words.entry.ref_ptr.0) × (result.ref_ptr.1 ≡ words.entry.ref_ptr.1 + row * row_size * 2) }
{
    &words[row * index::ROW..row * index::ROW + index::ROW]
}

/// The words of the table are those of so many rows, and these are well formed.
// Words and row count as two arguments: this is the test that makes a `Table` of them, for any words and any count.
pub fn well_formed(table: &[u16], rows: usize) -> bool
    ensures { result ≡ given rows table.now }
{
    if MOST_ROWS < rows || table.len() < rows * index::ROW {
        return false;
    }
    let mut index = Index::new();
    for i in 0..rows {
        let row = row_of(table, i);
        let key = &row[..index::KEY];
        if !row_ok(row) || index.find(table, i, key).is_some() {
            return false;
        }
        index.link(key, i);
    }
    true
}

/// A well-formed table: rows of twelve words, one after the other.
// Nothing compares or prints it.
#[derive(Clone, Copy)]
pub struct Table<'a> {
    pub words: &'a [u16],
    pub rows: usize,
    pub ghost well_formed: { given rows words.now ≡ true },
}

impl<'a> Table<'a> {
    /// The table of so many rows that the words begin with, if they are well formed.
    pub fn new(words: &'a [u16], rows: usize) -> Result<Table<'a>, Refusal>
        ensures table { IfOk result (λ table. (table.words.now ≡ words.now) × (table.rows ≡ rows)) }
        ensures lent { IfOk result (λ table. table.words.ref_ptr ≡ words.entry.ref_ptr) }
        ensures refused { IfErr result (λ refusal. (refusal ≡ Rows) × (given rows words.now ≡ false)) }
    {
        if !well_formed(words, rows) {
            return Err(Refusal::Rows);
        }
        Ok(Table { words, rows })
    }

    // That the row is one of the table's is the bound of an index at each call, and no fact that travels with a value.

    /// The thread of a row.
    #[tactic(auto, using(crate::proofs::Tables::row_here, crate::proofs::Tables::thread_at))]
    pub fn thread(&self, row: usize) -> u16
        requires { row < self.now.rows }
        ensures { result ≡ (dep_at self.now.words.now row).thread }
    {
        row_of(self.words, row)[0]
    }

    /// The lock that a row wants.
    #[tactic(auto, using(crate::proofs::Tables::row_here, crate::proofs::Tables::wanted_at, crate::proofs::Tables::wanted_lock))]
    pub fn wanted(&self, row: usize) -> u16
        requires { row < self.now.rows }
        ensures value { result ≡ (dep_at self.now.words.now row).wanted }
        ensures lock { result < 256 }
    {
        row_of(self.words, row)[1]
    }

    /// The locks that a row holds.
    #[tactic(auto, using(crate::proofs::Tables::row_here))]
    pub fn held(&self, row: usize) -> &'a [u16]
        requires { row < self.now.rows }
        ensures value { result.now ≡ (dep_at self.now.words.now row).held }
        ensures locks { All (λ lock. lock < 256) result.now }
        ensures place { (result.ref_ptr.0 ≡ self.now.words.ref_ptr.0) × (result.ref_ptr.1 ≡ self.now.words.ref_ptr.1 + (row * row_size + 3) * 2) }
    {
        let words = row_of(self.words, row);
        &words[3..][..usize::from(words[2])]
    }
}
