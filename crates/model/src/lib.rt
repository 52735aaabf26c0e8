//! What the calls take and answer. What it means stands in specs/, and the laws of that in proofs/.
#![tactic(auto)]

ghost use Rattle.std.specs.Prelude.{◌≡◌};
ghost use Rattle.model.specs.Refusals.{number_of, refused_at_once};
ghost use Rattle.model.specs.Kinds.{IsKindOf};

use std::error::Error;
use std::fmt;

/// An event as it lies in an image: kind 1 acquires and kind 2 releases. No rule reads the site.
#[derive(Clone, Copy, Debug, PartialEq, Eq)]
pub struct Event {
    // A number and no `EventKind`: the laws of traces speak of events of any kind (`refusal` in specs/Trace.antt), and reading refuses in the order of events.
    pub kind: u8,
    pub thread: u8,
    pub lock: u16,
    pub site: u16,
}

/// What an event does with its lock.
#[derive(Clone, Copy, Debug, PartialEq, Eq)]
pub enum EventKind {
    Acquire,
    Release,
}

impl TryFrom<u8> for EventKind {
    type Error = Refusal;

    ghost try_from_gives = { IsKindOf };

    fn try_from(kind: u8) -> Result<Self, Refusal> {
        match kind {
            1 => Ok(EventKind::Acquire),
            2 => Ok(EventKind::Release),
            _ => Err(Refusal::Kind),
        }
    }
}

/// A trace has at most so many threads.
pub const MOST_THREADS: usize = 32;

/// A trace has at most so many locks.
pub const MOST_LOCKS: usize = 256;

/// A table has at most so many rows.
pub const MOST_ROWS: usize = 1024;

/// The word in a place for a held lock that is not used.
pub const UNUSED: u16 = 65535;

/// Threads are below `threads`, and locks below `locks`.
#[derive(Clone, Copy, Debug, PartialEq, Eq)]
pub struct Limits {
    pub threads: u16,
    pub locks: u16,
}

/// Why a call refuses. The cases have the numbers 1 to 14, in this order.
#[derive(Clone, Copy, Debug, PartialEq, Eq)]
pub enum Refusal {
    /// An image of fewer than 20 bytes.
    Short = 1,
    /// An image of more than 65,536 bytes.
    Long = 2,
    /// An image that does not begin with its mark.
    Mark = 3,
    /// Threads, locks or events out of range.
    Counts = 4,
    /// Events that do not begin at byte 20 or after and end with the image, or a whole length that is not the image's.
    Places = 5,
    /// An event that neither acquires nor releases.
    Kind = 6,
    /// A thread that the header does not count.
    Thread = 7,
    /// A lock that the header does not count.
    Lock = 8,
    /// An acquire of a lock that another thread holds.
    Taken = 9,
    /// An acquire of a ninth lock.
    Deep = 10,
    /// A release of a lock that the thread does not hold.
    NotHeld = 11,
    /// A row more than a table may have.
    Full = 12,
    /// Lent memory that is too short.
    Small = 13,
    /// A table given to a call that is not well formed.
    Rows = 14,
}

impl Refusal {
    /// The number that C programs and printed answers give the refusal.
    pub fn number(self) -> u16
        ensures { result ≡ number_of self }
    {
        // An enum's number is had by `as`.
        self as u16
    }
}

impl fmt::Display for Refusal {
    ghost use Rattle.std.specs.Prelude.{Some};
    ghost use Rattle.model.specs.Texts.{text_of};

    ghost output = { λ refusal. Some (text_of refusal) };

    fn fmt<W: fmt::Write>(&self, f: &mut fmt::Formatter<W>) -> fmt::Result {
        f.write_str(match self {
            Refusal::Short => "the image is too short for a header",
            Refusal::Long => "the image is too long",
            Refusal::Mark => "the image does not begin with its mark",
            Refusal::Counts => "threads, locks or events are out of range",
            Refusal::Places => "the events do not lie where the header says",
            Refusal::Kind => "the event neither acquires nor releases",
            Refusal::Thread => "the header does not count the thread",
            Refusal::Lock => "the header does not count the lock",
            Refusal::Taken => "another thread holds the lock",
            Refusal::Deep => "the thread holds eight locks already",
            Refusal::NotHeld => "the thread does not hold the lock",
            Refusal::Full => "the table is full",
            Refusal::Small => "the lent memory is too short",
            Refusal::Rows => "the table is not well formed",
        })
    }
}

impl Error for Refusal {}

/// How reading was refused: why, at which event (0 where it was refused before the first), and how many rows it left in the table.
#[derive(Clone, Copy, Debug, PartialEq, Eq)]
pub struct Refused {
    pub refusal: Refusal,
    // A number and no `Option`: by the rules (docs/RULES.md) a place that no rule names is 0, and `answer_of` promises it.
    pub place: usize,
    pub rows: usize,
}

/// A refusal before the first event.
impl From<Refusal> for Refused {
    ghost from_gives = { λ refusal refused. refused ≡ refused_at_once refusal };

    fn from(refusal: Refusal) -> Self {
        Refused {
            refusal,
            place: 0,
            rows: 0,
        }
    }
}

impl fmt::Display for Refused {
    ghost use Rattle.std.specs.Prelude.{Some};
    ghost use Rattle.model.specs.Texts.{refused_text};

    ghost output = { λ refused. Some (refused_text refused) };

    fn fmt<W: fmt::Write>(&self, f: &mut fmt::Formatter<W>) -> fmt::Result {
        match self.refusal {
            Refusal::Kind
            | Refusal::Thread
            | Refusal::Lock
            | Refusal::Taken
            | Refusal::Deep
            | Refusal::NotHeld
            | Refusal::Full => write!(f, "event {}: {}", self.place, self.refusal),
            _ => write!(f, "{}", self.refusal),
        }
    }
}

impl Error for Refused {}
