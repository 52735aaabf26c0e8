//! What one thread holds, in eight places. A state goes into each method by value and comes back.
#![tactic(auto)]

ghost use Rattle.std.specs.Prelude.{◌≡◌};
ghost use Rattle.model.specs.Holds.{nothing};
ghost use Rattle.holds.specs.Hold.{laid, in_use, asked_of, taken_of, released_of};

pub use model::UNUSED;

/// A thread holds at most so many locks.
pub const MOST_HELD: usize = 8;

/// The locks in the first `size` places, rising; the other places unused.
// Places with a size beside them and no `Vec`: a library here has no heap, and a state goes by value (docs/DECISIONS.md, "Forms").
#[derive(Clone, Copy, Debug, PartialEq, Eq)]
pub struct Hold {
    pub places: [u16; MOST_HELD],
    pub size: usize,
}

/// A state that was asked, and whether it holds the lock.
// A struct and not a `bool` alone: by a rule of the project `ask`, as `take` and `release`, hands the state back (docs/DECISIONS.md, "Forms").
#[derive(Clone, Copy, Debug, PartialEq, Eq)]
pub struct Asked {
    pub hold: Hold,
    pub yes: bool,
}

impl Hold {
    /// Nothing is held.
    pub fn none() -> Hold
        ensures { result ≡ laid nothing }
    {
        Hold {
            places: [UNUSED; MOST_HELD],
            size: 0,
        }
    }

    /// Whether lock `m` is held.
    pub fn ask(self, m: u16) -> Asked
        ensures { result ≡ asked_of self m }
    {
        Asked {
            hold: self,
            yes: self.used().contains(&m),
        }
    }

    /// With lock `m`, which is not held yet. Unchanged where all places are used.
    pub fn take(mut self, m: u16) -> Hold
        ensures { result ≡ taken_of self m }
    {
        let last = self.size;
        if MOST_HELD <= last {
            // No `Option`: the clause gives this answer for every state, and `take` hands the state back (docs/DECISIONS.md, "Forms").
            return self;
        }
        // It goes in front of the first lock above it, and those from there on move up by one place.
        let at = self.used().iter().position(|x| m < *x).unwrap_or(last);
        self.places[last] = m;
        self.places[at..=last].rotate_right(1);
        self.size += 1;
        self
    }

    /// Without lock `m`.
    pub fn release(self, m: u16) -> Hold
        ensures { result ≡ released_of self m }
    {
        let mut left = Hold::none();
        for x in self.used() {
            if *x != m {
                left.places[left.size] = *x;
                left.size += 1;
            }
        }
        left
    }

    // The used places: never more than there are, whatever `size` says.
    fn used(&self) -> &[u16]
        ensures { result.now ≡ in_use self.now }
    {
        &self.places[..self.size.min(MOST_HELD)]
    }
}
