//! K: the locks that are not tied to the rest are taken out of a wider set, until none is left to take out.
ghost use Rattle.std.specs.Prelude.{◌≡◌, ◌≤◌, ◌<◌, ◌↔◌, IsTrue, ℕ, length, get_or};
ghost use Rattle.model.specs.Given.{deps_of};
ghost use Rattle.model.specs.Marking.{lock_marks};
ghost use Rattle.model.proofs.Given.{dep_at};
ghost use Rattle.marks.specs.Working.{On, Meets, Asks, Follows, Found, Peels, Tried, Swept};

use given::Table;
use model::MOST_LOCKS;

/// Two rows: one that asks for a lock, and one that holds it.
#[derive(Clone, Copy, Debug, PartialEq, Eq)]
pub(crate) struct Pair {
    pub asker: u16,
    pub holder: u16,
}

/// The locks that are still marked, and for each lock the pair of rows at which the last search for it stopped.
// Nothing compares or prints it.
#[derive(Drop)]
pub(crate) struct Peeling<'t, 'l> {
    table: Table<'t>,
    locks: &'l mut [u8],
    pairs: [Pair; MOST_LOCKS],
    ghost peels: { Peels table.words.now table.rows locks.now pairs },
}

impl<'t, 'l> Peeling<'t, 'l> {
    // `row < rows` and `lock < 256` are the bounds of an index at each call, and no facts that travel with a value; what a method leaves as it was, each promises of itself.

    /// Every lock that some row wants is marked, and no other.
    pub fn new(table: Table<'t>, locks: &'l mut [u8]) -> Peeling<'t, 'l>
        requires { length locks.old ≡ 256 }
        ensures table { (result.table.words.now ≡ table.entry.words.now) × (result.table.rows ≡ table.entry.rows) }
        ensures same_reference { result.locks.ghost_name ≡ locks.entry.ghost_name }
        ensures wanted { (row : ℕ) → row < table.entry.rows → On result.locks.now (dep_at table.entry.words.now row).wanted }
    {
        locks.fill(0);
        for row in 0..table.rows {
            locks[usize::from(table.wanted(row))] = 1;
        }
        Peeling {
            table,
            locks,
            pairs: [Pair {
                asker: 0,
                holder: 0,
            }; MOST_LOCKS],
        }
    }

    /// Takes out locks until those of K are marked, and no other.
    pub fn peel(&mut self)
        ensures table { self.new.table ≡ self.old.table }
        ensures same_reference { self.new.locks.ghost_name ≡ self.old.locks.ghost_name }
        ensures marks { self.new.locks.now ≡ lock_marks (deps_of self.old.table.rows self.old.table.words.now) }
    {
        while self.sweep() {}
    }

    /// The row wants a lock that is marked, and holds one.
    pub fn keeps(&self, row: usize) -> bool
        requires { row < self.now.table.rows }
        ensures { IsTrue result ↔ (On self.now.locks.now (dep_at self.now.table.words.now row).wanted × Meets self.now.locks.now (dep_at self.now.table.words.now row)) }
    {
        self.is_marked(self.table.wanted(row)) && self.holds_marked(row)
    }

    /// The lock is marked.
    fn is_marked(&self, lock: u16) -> bool
        requires { lock < 256 }
        ensures { IsTrue result ↔ On self.now.locks.now lock }
    {
        self.locks[usize::from(lock)] == 1
    }

    /// The row holds a lock that is marked.
    fn holds_marked(&self, row: usize) -> bool
        requires { row < self.now.table.rows }
        ensures { IsTrue result ↔ Meets self.now.locks.now (dep_at self.now.table.words.now row) }
    {
        self.table
            .held(row)
            .iter()
            .any(|lock| self.is_marked(*lock))
    }

    /// The row wants the lock, and holds one that is marked.
    fn asks(&self, row: usize, lock: u16) -> bool
        requires { row < self.now.table.rows }
        ensures { IsTrue result ↔ Asks self.now.locks.now lock (dep_at self.now.table.words.now row) }
    {
        self.table.wanted(row) == lock && self.holds_marked(row)
    }

    /// The row is of another thread, and wants a lock that is marked.
    fn follows(&self, row: usize, thread: u16) -> bool
        requires { row < self.now.table.rows }
        ensures { IsTrue result ↔ Follows self.now.locks.now thread (dep_at self.now.table.words.now row) }
    {
        self.table.thread(row) != thread && self.is_marked(self.table.wanted(row))
    }

    /// The first pair, from where the last search stopped, that ties the lock to those that are marked.
    // Its loops are where marking spends its time. Within the code of a sweep, which would have them twice, they take up to three times as long.
    #[inline(never)]
    fn tying_pair(&self, lock: u16) -> Option<Pair>
        requires { lock < 256 }
        ensures { Found (dep_at self.now.table.words.now) self.now.table.rows self.now.locks.now lock result }
    {
        let from = self.pairs[usize::from(lock)];
        let mut first = usize::from(from.holder);
        let mut found = None;
        // Three loops, left by a label, and no `contains`: the form that docs/DECISIONS.md, "Forms", fixes.
        'pair: for asker in usize::from(from.asker)..self.table.rows {
            if self.asks(asker, lock) {
                let thread = self.table.thread(asker);
                for holder in first..self.table.rows {
                    if self.follows(holder, thread) {
                        for held in self.table.held(holder) {
                            if *held == lock {
                                // `as` loses nothing here: there are at most 1,024 rows.
                                found = Some(Pair {
                                    asker: asker as u16,
                                    holder: holder as u16,
                                });
                                break 'pair;
                            }
                        }
                    }
                }
            }
            first = 0;
        }
        found
    }

    /// Takes the lock out if it is marked and no pair ties it. As the marks only grow fewer, no pair that was passed ties it again.
    fn try_lock(&mut self, lock: u16) -> bool
        requires { lock < 256 }
        ensures table { self.new.table ≡ self.old.table }
        ensures same_reference { self.new.locks.ghost_name ≡ self.old.locks.ghost_name }
        ensures tried { Tried self.old.table.words.now self.old.table.rows self.old.locks.now result self.new.locks.now lock }
    {
        let place = usize::from(lock);
        if self.locks[place] != 1 {
            return false;
        }
        if let Some(pair) = self.tying_pair(lock) {
            self.pairs[place] = pair;
            return false;
        }
        self.locks[place] = 0;
        true
    }

    /// Tries every lock upwards and then downwards, and says whether one was taken out.
    fn sweep(&mut self) -> bool
        ensures table { self.new.table ≡ self.old.table }
        ensures same_reference { self.new.locks.ghost_name ≡ self.old.locks.ghost_name }
        ensures swept { Swept self.old.table.words.now self.old.table.rows self.old.locks.now result self.new.locks.now }
    {
        // `MOST_LOCKS as u16` is a constant that fits.
        let mut changed = false;
        for lock in 0..MOST_LOCKS as u16 {
            changed |= self.try_lock(lock);
        }
        for lock in (0..MOST_LOCKS as u16).rev() {
            changed |= self.try_lock(lock);
        }
        changed
    }
}
