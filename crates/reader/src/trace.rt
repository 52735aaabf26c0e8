//! Events over what the threads hold and the rows so far.
ghost use Rattle.std.specs.Prelude.{◌≡◌, List, [], ◌∷◌, ℕ, ◌+◌, ◌*◌, ◌≤◌, ◌<◌, length, take};
ghost use Rattle.model.specs.Holds.{most_held};
ghost use Rattle.model.specs.Image.{event_size, events_from};
ghost use Rattle.model.specs.Reading.{outcome, answer_of, told};
ghost use Rattle.model.specs.Refusals.{verdict_of};
ghost use Rattle.model.specs.Rows.{widest};
ghost use Rattle.model.specs.Table.{table_room};
ghost use Rattle.model.specs.Trace.{State, start, trace};

use crate::image::{self, EVENT_SIZE};
use crate::table::Rows;
use holds::{Hold, MOST_HELD};
use index::KEY;
use model::{Event, EventKind, Limits, MOST_LOCKS, MOST_THREADS, Refusal, Refused};

/// What the threads of a trace hold after some events.
// The rows are a value beside it and no field: where a struct lies within a struct, the proof does not learn what its reference leaves in the lent table.
// Nothing compares or prints it.
#[derive(Drop)]
pub(crate) struct Threads {
    limits: Limits,
    // For each lock one more than the thread that holds it, or 0. An `Option` would take twice as much, and working memory is 4,096 bytes and no more (docs/DECISIONS.md, "Code").
    owner: [u8; MOST_LOCKS],
    holds: [Hold; MOST_THREADS],
    ghost threads: { limits.threads ≤ widest.threads },
    ghost locks: { limits.locks ≤ widest.locks },
}

impl Threads {
    ghost use Rattle.reader.specs.declared.table.Rows.{Rows};
    ghost use Rattle.reader.specs.Working.{Tabled, CanCount, Within, names_verdict, Stands, Did};

    // Nothing is held yet.
    fn new(limits: Limits) -> Threads
        requires { (limits.threads ≤ widest.threads) × (limits.locks ≤ widest.locks) }
        ensures limits { result.limits ≡ limits }
        ensures start { (t₀ : List ℕ) (rows : Rows) → Tabled [] t₀ rows → Stands start t₀ result rows }
    {
        Threads {
            limits,
            owner: [0; MOST_LOCKS],
            holds: [Hold::none(); MOST_THREADS],
        }
    }

    // An acquire.
    fn acquire(&mut self, event: Event, place: u16, rows: &mut Rows<'_>) -> Result<(), Refusal>
        requires within { Within self.old.limits event }
        requires can_count { CanCount rows.old }
        ensures limits { self.new.limits ≡ self.old.limits }
        ensures lent { rows.new.table.ghost_name ≡ rows.old.table.ghost_name }
        ensures did { event.kind ≡ 1 → Did self.old rows.old place event result self.new rows.new }
    {
        let thread = usize::from(event.thread);
        let lock = usize::from(event.lock);
        let hold = self.holds[thread];
        // `.yes`, here and in `release`: `ask` hands the state back beside the answer (docs/DECISIONS.md, "Forms").
        if hold.ask(event.lock).yes {
            return Ok(());
        }
        if self.owner[lock] != 0 {
            return Err(Refusal::Taken);
        }
        if MOST_HELD <= hold.size {
            return Err(Refusal::Deep);
        }
        let taken = hold.take(event.lock);
        if 0 < hold.size {
            rows.note(key_of(event, hold), place)?;
        }
        self.owner[lock] = event.thread + 1;
        self.holds[thread] = taken;
        Ok(())
    }

    // A release.
    fn release(&mut self, event: Event) -> Result<(), Refusal>
        requires { Within self.old.limits event }
        ensures limits { self.new.limits ≡ self.old.limits }
        ensures did { (place : ℕ) (rows : Rows) → event.kind ≡ 2 → Did self.old rows place event result self.new rows }
    {
        let thread = usize::from(event.thread);
        let hold = self.holds[thread];
        if !hold.ask(event.lock).yes {
            return Err(Refusal::NotHeld);
        }
        self.owner[usize::from(event.lock)] = 0;
        self.holds[thread] = hold.release(event.lock);
        Ok(())
    }

    // Refuses a thread past the limits, then a lock.
    fn check_names(&self, event: Event) -> Result<(), Refusal>
        ensures { verdict_of result ≡ names_verdict self.now.limits event }
    {
        if self.limits.threads <= u16::from(event.thread) {
            return Err(Refusal::Thread);
        }
        if self.limits.locks <= event.lock {
            return Err(Refusal::Lock);
        }
        Ok(())
    }

    // One event: its kind decides. What `acquire`, `release` and `step` each promise is `Did` of another step, and that the limits stay.
    fn step(&mut self, event: Event, place: u16, rows: &mut Rows<'_>) -> Result<(), Refusal>
        requires { CanCount rows.old }
        ensures limits { self.new.limits ≡ self.old.limits }
        ensures lent { rows.new.table.ghost_name ≡ rows.old.table.ghost_name }
        ensures did { Did self.old rows.old place event result self.new rows.new }
    {
        let kind = EventKind::try_from(event.kind)?;
        self.check_names(event)?;
        match kind {
            EventKind::Acquire => self.acquire(event, place, rows),
            EventKind::Release => self.release(event),
        }
    }
}

// The words by which a dependency is told apart.
fn key_of(event: Event, hold: Hold) -> [u16; KEY]
    requires { hold.size ≤ most_held }
    ensures { result ≡ event.thread ∷ event.lock ∷ hold.size ∷ take 7 hold.places }
{
    // `as` and no `try_from`: at most eight locks are held, so no error could come.
    let mut key = [0; KEY];
    key[0] = u16::from(event.thread);
    key[1] = event.lock;
    key[2] = hold.size as u16;
    key[3..].copy_from_slice(&hold.places[..7]);
    key
}

/// All events of a trace, from the beginning: how many rows they give.
pub(crate) fn run(events: &[u8], limits: Limits, table: &mut [u16]) -> Result<usize, Refused>
    requires widest { (limits.threads ≤ widest.threads) × (limits.locks ≤ widest.locks) }
    requires few { length events.now ≤ event_size * 4096 }
    requires room { table_room ≤ length table.old }
    ensures { (count : ℕ) → length events.now ≡ event_size * count → outcome (answer_of result) table.new ≡ told (trace limits (events_from count events.now)) table.old }
{
    let mut threads = Threads::new(limits);
    let mut rows = Rows::new(table);
    let (events, _) = events.as_chunks::<EVENT_SIZE>();
    // `place as u16` loses nothing, as there are at most 4,096 events; a `try_from` would add an error that cannot come.
    for (place, bytes) in events.iter().enumerate() {
        if let Err(refusal) = threads.step(image::event_of(bytes), place as u16, &mut rows) {
            return Err(Refused {
                refusal,
                place,
                rows: rows.count(),
            });
        }
    }
    Ok(rows.count())
}
