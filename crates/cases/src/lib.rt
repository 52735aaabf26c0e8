//! What the programs that run cases share.
#![tactic(auto)]

ghost use Rattle.std.specs.Prelude.{◌≡◌, ◌≤◌, ◌<◌, Ok, IfOk, IfSome, IfNone, true, length, flat_map};
ghost use Rattle.std.specs.Int.{w32, to_le_bytes};
ghost use Rattle.std.specs.List.{FoldsTo};
ghost use Rattle.std.specs.Io.KnownBytes.{Consumes};
ghost use Rattle.cases.specs.Cases.{SameWithin, DiffersAt, Mixes};

use std::io;
use std::io::{ErrorKind, Read};

/// A case's table has at most so many words.
pub const MOST_WORDS: usize = 13_000;

/// Whether the input had enough bytes to fill the buffer. Where it had not, nothing is said of the buffer.
// A `bool`, since no value goes with the answer.
pub fn read_whole<R: Read>(input: &mut R, buffer: &mut [u8]) -> io::Result<bool>
    ensures { result ≡ Ok true → Consumes (R.remaining input.old) (R.remaining input.new) buffer.new }
{
    match input.read_exact(buffer) {
        Ok(()) => Ok(true),
        Err(error) if error.kind() == ErrorKind::UnexpectedEof => Ok(false),
        Err(error) => Err(error),
    }
}

// The number that the bytes are, low byte first. A function of its own, so that its clause is at hand where the array is filled.
fn number_of(bytes: [u8; 4]) -> u32
    ensures { to_le_bytes w32 result ≡ bytes }
{
    u32::from_le_bytes(bytes)
}

/// The next numbers of 4 bytes, low byte first, or `None` where the input ends before them.
pub fn read_numbers<R: Read, const N: usize>(input: &mut R) -> io::Result<Option<[u32; N]>>
    ensures { IfOk result (λ read. IfSome read (λ numbers. Consumes (R.remaining input.old) (R.remaining input.new) (flat_map (to_le_bytes w32) numbers))) }
{
    let mut numbers = [0; N];
    for number in &mut numbers {
        let mut bytes = [0; 4];
        if !read_whole(input, &mut bytes)? {
            return Ok(None);
        }
        *number = number_of(bytes);
    }
    Ok(Some(numbers))
}

/// The first place from `from` on at which the two differ.
pub fn first_changed<T: PartialEq>(before: &[T], after: &[T], from: usize) -> Option<usize>
    requires { length before.now ≡ length after.now }
    ensures place { IfSome result (λ k. (from ≤ k) × (k < length after.now)) }
    ensures differs { IfSome result (DiffersAt T.eq before.now after.now) }
    ensures first { IfSome result (SameWithin T.eq before.now after.now from) }
    ensures none { IfNone result (SameWithin T.eq before.now after.now from (length after.now)) }
{
    // By place: with `find` on the range, or `skip` on the items, the proof that the places before are the same did not close.
    for place in from..after.len() {
        if before[place] != after[place] {
            return Some(place);
        }
    }
    None
}

const MODULUS: u64 = 4_294_967_291;

/// A number that changes with any of the values.
pub fn checksum<T: Copy + Into<u32>>(values: &[T]) -> u64
    ensures { FoldsTo (Mixes T.converts) 7 values.now result }
{
    let mut sum = 7;
    for &value in values {
        let number: u32 = value.into();
        sum = (sum * 31 + u64::from(number)) % MODULUS;
    }
    sum
}
