//! The header of an image, and its events as they lie.
ghost use Rattle.std.specs.Prelude.{◌≡◌, ◌+◌, ◌≤◌, ℕ, List, length};
ghost use Rattle.laws.specs.Memory.{part};
ghost use Rattle.model.specs.Image.{header_size, counts_fit, places_fit, event_of};
ghost use Rattle.reader.specs.Header.{header_of, IsHeaderOf};

use model::{Event, Limits, MOST_LOCKS, MOST_THREADS, Refusal};

/// What an image begins with.
const MARK: [u8; 4] = *b"LKT1";

/// How many bytes a header has.
pub(crate) const HEADER_SIZE: usize = 20;

/// How many bytes an event has.
pub(crate) const EVENT_SIZE: usize = 6;

/// An image has at most so many bytes.
const LONGEST: usize = 65536;

/// A trace has at most so many events.
const MOST_EVENTS: u32 = 4096;

/// What a header says: the limits of threads and locks, how many events there are, where they begin, and how long the image is.
#[derive(Clone, Copy, Debug, PartialEq, Eq)]
pub(crate) struct Header {
    pub limits: Limits,
    events: u32,
    offset: u32,
    whole: u32,
}

// What the image says is cast to `usize` by `as`, which the check proves to lose nothing: Rust has no `From<u32>` for it, and `try_from` would add an error that cannot come.
impl Header {
    /// The header of an image, or the refusal of the first of checks 1 to 5 that refuses it.
    #[tactic(auto, unfolding(model::specs::Image::header))]
    pub(crate) fn parse(image: &[u8]) -> Result<Header, Refusal>
        ensures { IsHeaderOf image.now result }
    {
        if image.len() < HEADER_SIZE {
            return Err(Refusal::Short);
        }
        if image.len() > LONGEST {
            return Err(Refusal::Long);
        }
        if !image.starts_with(&MARK) {
            return Err(Refusal::Mark);
        }
        let header = Header::read(image);
        if !header.counts_fit() {
            return Err(Refusal::Counts);
        }
        if !header.places_fit(image.len()) {
            return Err(Refusal::Places);
        }
        Ok(header)
    }

    // What the first twenty bytes say, whether it fits or not.
    fn read(image: &[u8]) -> Header
        requires { header_size ≤ length image.now }
        ensures { result ≡ header_of image.now }
    {
        Header {
            limits: Limits {
                threads: u16::from_le_bytes(bytes_at(image, 4)),
                locks: u16::from_le_bytes(bytes_at(image, 6)),
            },
            events: u32::from_le_bytes(bytes_at(image, 8)),
            offset: u32::from_le_bytes(bytes_at(image, 12)),
            whole: u32::from_le_bytes(bytes_at(image, 16)),
        }
    }

    #[tactic(auto, unfolding(model::specs::Image::counts_fit))]
    fn counts_fit(&self) -> bool
        ensures { (b : List ℕ) → self.now ≡ header_of b → result ≡ counts_fit b }
    {
        (1..=MOST_THREADS).contains(&usize::from(self.limits.threads))
            && (1..=MOST_LOCKS).contains(&usize::from(self.limits.locks))
            && self.events <= MOST_EVENTS
    }

    // The events begin behind the header and end with the image, which is `len` bytes long.
    #[tactic(auto, unfolding(model::specs::Image::places_fit))]
    fn places_fit(&self, len: usize) -> bool
        ensures { (b : List ℕ) → self.now ≡ header_of b → len ≡ length b → result ≡ places_fit b }
    {
        let whole = self.whole as usize;
        HEADER_SIZE <= self.offset()
            && whole == len
            && self.offset() + EVENT_SIZE * self.events as usize == whole
    }

    /// Where the notes end and the events begin.
    pub(crate) fn offset(&self) -> usize
        ensures { result ≡ self.now.offset }
    {
        self.offset as usize
    }
}

// The `N` bytes from `at` on: the one place where a slice and a place in it become an array.
fn bytes_at<const N: usize>(image: &[u8], at: usize) -> [u8; N]
    requires { at + N ≤ length image.now }
    ensures { result ≡ part at N image.now }
{
    let mut bytes = [0; N];
    bytes.copy_from_slice(&image[at..at + N]);
    bytes
}

/// The event that six bytes write.
pub(crate) fn event_of(bytes: &[u8; EVENT_SIZE]) -> Event
    ensures { result ≡ event_of bytes.now }
{
    let [kind, thread, lock_low, lock_high, site_low, site_high] = *bytes;
    Event {
        kind,
        thread,
        lock: u16::from_le_bytes([lock_low, lock_high]),
        site: u16::from_le_bytes([site_low, site_high]),
    }
}
