//! An index of the rows of a table by their keys.
#![tactic(auto)]

ghost use Rattle.std.specs.Prelude.{◌≡◌, List, ℕ, ◌+◌, ◌*◌, ◌≤◌, ◌<◌, ◌↔◌, IsTrue, length, get_or, set};
ghost use Rattle.model.specs.Rows.{most_rows};
ghost use Rattle.model.specs.Table.{row_size, key_size, key_at};
ghost use Rattle.index.specs.Index.{buckets, bucket_of, no_rows, with_row, Linked, Indexes, Found};

use model::MOST_ROWS;

/// How many words a row has.
pub const ROW: usize = 12;

/// How many of them, from the first on, are its key.
pub const KEY: usize = 10;

/// How many buckets there are.
pub const BUCKETS: usize = 512;

/// An index of a table's rows.
// An entry is one more than a row's number, and 0 is none: with an `Option` the arrays would be twice as large, and working memory is 4,096 bytes and no more (docs/DECISIONS.md, "Code").
// Nothing compares or prints it.
#[derive(Drop)]
pub struct Index {
    /// The last row of each bucket.
    pub head: [u16; BUCKETS],
    /// For each row the one before it in its bucket.
    pub next: [u16; MOST_ROWS],
}

// A key's bucket. Any rule serves that spreads the keys. A key is lent as a slice and not as an array, since a part of a table serves as one as it lies.
#[tactic(auto, unfolding(crate::specs::Index::bucket_of))]
fn bucket(key: &[u16]) -> usize
    requires { length key.now ≡ key_size }
    ensures value { result ≡ bucket_of key.now }
    ensures below { result < buckets }
{
    let names = usize::from(key[0]) * 331 + usize::from(key[1]) * 67;
    let held = usize::from(key[3]) * 17
        + usize::from(key[4]) * 29
        + usize::from(key[5]) * 41
        + usize::from(key[6]) * 53;
    (names + held) % BUCKETS
}

// The words are those of the key. Word by word, and no `==` of the slices: that compares in groups of words, and takes half as long again for ten of them.
fn has_key(words: &[u16], key: &[u16]) -> bool
    requires { (length words.now ≡ key_size) × (length key.now ≡ key_size) }
    ensures { IsTrue result ↔ words.now ≡ key.now }
{
    words.iter().zip(key).all(|(word, wanted)| word == wanted)
}

/// The last row below `rows` that has the key, by the two arrays of an index of the table's rows, wherever they lie.
pub fn find(table: &[u16], rows: usize, key: &[u16], head: &[u16], next: &[u16]) -> Option<usize>
    requires within { (rows ≤ most_rows) × (rows * row_size ≤ length table.now) }
    requires a_key { length key.now ≡ key_size }
    requires arrays { (length head.now ≡ buckets) × (length next.now ≡ most_rows) }
    requires linked { Linked table.now rows head.now next.now }
    ensures { Found table.now key.now rows result }
{
    let mut entry = head[bucket(key)];
    while let Some(row) = usize::from(entry).checked_sub(1) {
        if has_key(&table[row * ROW..row * ROW + KEY], key) {
            return Some(row);
        }
        entry = next[row];
    }
    None
}

/// Row `rows`, which has the key, becomes the last of its bucket in the two arrays of an index, wherever they lie: it is found from now on.
pub fn link(key: &[u16], rows: usize, head: &mut [u16], next: &mut [u16])
    requires room { rows < most_rows }
    requires a_key { length key.now ≡ key_size }
    requires arrays { (length head.old ≡ buckets) × (length next.old ≡ most_rows) }
    ensures head_after { head.new ≡ set head.old (bucket_of key.now) (rows + 1) }
    ensures next_after { next.new ≡ set next.old rows (get_or head.old (bucket_of key.now) 0) }
{
    let bucket = bucket(key);
    next[rows] = head[bucket];
    // `as` loses nothing here: there are at most 1,024 rows, and a `try_from` would add an error that cannot come.
    head[bucket] = (rows + 1) as u16;
}

impl Index {
    /// The index of no rows, whatever the table is.
    pub fn new() -> Index
        ensures empty { result ≡ no_rows }
        ensures indexes { (ws : List ℕ) → Indexes ws 0 result }
    {
        Index {
            head: [0; BUCKETS],
            next: [0; MOST_ROWS],
        }
    }

    /// The last row below `rows` that has the key.
    // Table and row count are arguments and no fields: the table lies in lent memory that is written to between two searches.
    pub fn find(&self, table: &[u16], rows: usize, key: &[u16]) -> Option<usize>
        requires within { (rows ≤ most_rows) × (rows * row_size ≤ length table.now) }
        requires a_key { length key.now ≡ key_size }
        requires indexed { Indexes table.now rows self.now }
        ensures { Found table.now key.now rows result }
    {
        find(table, rows, key, &self.head, &self.next)
    }

    /// Row `rows`, which has the key, becomes the last of its bucket: it is found from now on.
    pub fn link(&mut self, key: &[u16], rows: usize)
        requires room { rows < most_rows }
        requires a_key { length key.now ≡ key_size }
        ensures { self.new ≡ with_row key.now rows self.old }
    {
        link(key, rows, &mut self.head, &mut self.next);
    }
}
