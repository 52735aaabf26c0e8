//! Rows in the lent table, with an index of them.
ghost use Rattle.std.specs.Prelude.{◌≡◌, [], ◌∷◌, ◌++◌, ℕ, List, ◌+◌, ◌≤◌, ◌<◌, length, IfSome};
ghost use Rattle.std.proofs.lemmas.List.Edits.{sets};
ghost use Rattle.model.specs.Rows.{most_rows};
ghost use Rattle.model.specs.Table.{row_size, table_room};
ghost use Rattle.index.specs.Index.{Indexes, Found};

use index::{Index, KEY, ROW};
use model::{MOST_ROWS, Refusal};

// Which word of a row has the position of its first arising, and which counts how often it arose.
const FIRST: usize = KEY;

const TIMES: usize = KEY + 1;

/// A table needs so many words to be lent.
pub(crate) const ROOM: usize = MOST_ROWS * ROW;

/// The rows so far: `count` rows at the beginning of the lent table, and an index of them.
// Nothing compares or prints it.
#[derive(Drop)]
pub(crate) struct Rows<'a> {
    table: &'a mut [u16],
    count: usize,
    index: Index,
    // That no row's count is at its end is no field here but `CanCount` in clauses: it is no invariant, and holds for so many events as a trace has.
    ghost few: { count ≤ most_rows },
    ghost room: { table_room ≤ length table.now },
    ghost indexed: { Indexes table.now count index },
}

impl<'a> Rows<'a> {
    ghost use Rattle.reader.specs.Working.{Tabled, CanCount, Noted};

    /// No rows yet.
    pub(crate) fn new(table: &'a mut [u16]) -> Rows<'a>
        requires { table_room ≤ length table.old }
        ensures lent { result.table.ghost_name ≡ table.entry.ghost_name }
        ensures none { Tabled [] table.old result }
    {
        Rows {
            table,
            count: 0,
            index: Index::new(),
        }
    }

    /// How many rows there are.
    pub(crate) fn count(&self) -> usize
        ensures { result ≡ self.now.count }
    {
        self.count
    }

    // The row that has the key.
    fn find(&self, key: &[u16; KEY]) -> Option<usize>
        ensures within { IfSome result (λ row. row < self.now.count) }
        ensures found { Found self.now.table.now key.now self.now.count result }
    {
        self.index.find(self.table, self.count, key)
    }

    /// A dependency arises at `place`: its row is counted once more, or it gets a row if there is room for one.
    pub(crate) fn note(&mut self, key: [u16; KEY], place: u16) -> Result<(), Refusal>
        requires { CanCount self.old }
        ensures lent { self.new.table.ghost_name ≡ self.old.table.ghost_name }
        ensures noted { Noted key place self.old result self.new }
    {
        if let Some(row) = self.find(&key) {
            self.table[row * ROW + TIMES] += 1;
            return Ok(());
        }
        if self.count == MOST_ROWS {
            return Err(Refusal::Full);
        }
        put(self.table, self.count * ROW, &key, place);
        self.index.link(&key, self.count);
        self.count += 1;
        Ok(())
    }
}

// A row of the key at `at`, which arose once, at `place`. A slice and a place in it, and no part: the clause says what the whole table holds.
fn put(table: &mut [u16], at: usize, key: &[u16; KEY], place: u16)
    requires { at + row_size ≤ length table.old }
    ensures { table.new ≡ sets table.old at (key.now ++ place ∷ 1 ∷ []) }
{
    table[at..at + KEY].copy_from_slice(key);
    table[at + FIRST] = place;
    table[at + TIMES] = 1;
}
