//! Says of each case on standard input what the three calls on an image answer and leave.
//!
//! A case is four numbers of 4 bytes, low byte first, and then bytes: the image's length (at most 65,600), how many of its bytes are sent (the
//! others are 0), the words of the lent table (at most 13,000), and 1 for rows in full or 0 for their sum. Before each call the lent table holds
//! known words.
#![tactic(auto)]

ghost use Rattle.std.specs.Prelude.{◌≡◌, ◌≤◌, length};
ghost use Rattle.cases.specs.declared.TheConstants.{MOST_WORDS};
ghost use Rattle.read_cases.specs.declared.TheConstants.{MOST_BYTES};

use cases::{MOST_WORDS, checksum, first_changed, read_numbers, read_whole};
use index::ROW;
use model::Refusal;
use std::io;
use std::io::Write;

const MOST_BYTES: usize = 65_600;

// What the numbers before a case say of it. They are cast to `usize` by `as`, for which Rust has no `From<u32>`.
// Nothing compares or prints it.
#[derive(Clone, Copy)]
struct Header {
    length: usize,
    sent: usize,
    words: usize,
    // A number of the case, which picks what is said and no step of the calls.
    in_full: bool,
    ghost image_fits: { length ≤ MOST_BYTES },
    ghost sent_fits: { sent ≤ length },
    ghost table_fits: { words ≤ MOST_WORDS },
}

impl From<[u32; 4]> for Header {
    fn from([length, sent, words, form]: [u32; 4]) -> Self {
        let length = MOST_BYTES.min(length as usize);
        Header {
            length,
            sent: length.min(sent as usize),
            words: MOST_WORDS.min(words as usize),
            in_full: form % 256 == 1,
        }
    }
}

// The word that lies at a place of the table before the call. `as` loses nothing, as the check proves.
fn word_before(place: usize) -> u16 {
    (place % 30_011 + 77) as u16
}

// Calls with an image and a table, which holds the words of `before`, and says what is answered and left.
// `answer` and `main` of the other program have this frame, and differ in what they read, call and say, which is all of their body.
// `in_full` is the case's own number.
fn answer<W: Write>(
    out: &mut W,
    image: &[u8],
    before: &[u16],
    table: &mut [u16],
    in_full: bool,
) -> io::Result<()>
    requires { length before.now ≡ length table.old }
{
    let header = reader::header_refusal(image)
        .err()
        .map_or(0, Refusal::number);
    let notes = reader::notes(image);
    write!(
        out,
        "header {header} notes {} {}",
        notes.len(),
        checksum(notes)
    )?;
    table.copy_from_slice(before);
    let (number, place, rows) = match reader::read(image, table) {
        Ok(rows) => (0, 0, rows),
        Err(refused) => (refused.refusal.number(), refused.place, refused.rows),
    };
    write!(out, " read {number} {place} {rows}")?;
    let end = table.len().min(rows.saturating_mul(ROW));
    if let Some(changed) = first_changed(before, table, end) {
        write!(out, " changed {changed}")?;
    }
    let rows = &table[..end];
    if !in_full {
        return writeln!(out, " sum {}", checksum(rows));
    }
    writeln!(out)?;
    for (row, words) in rows.chunks_exact(ROW).enumerate() {
        write!(out, "  row {row}:")?;
        for word in words {
            write!(out, " {word}")?;
        }
        writeln!(out)?;
    }
    Ok(())
}

fn main(rt: HostRuntime) -> io::Result<()> {
    let mut input = rt.stdin();
    let mut out = rt.stdout();
    // Arrays and not vectors: a case never fails for want of memory, and the program assumes nothing of how memory is got.
    let mut image = [0; MOST_BYTES];
    // Filled where it lies: `array::from_fn` would take its 26,000 bytes of stack twice.
    let mut before = [0; MOST_WORDS];
    for (place, word) in before.iter_mut().enumerate() {
        *word = word_before(place);
    }
    let mut table = [0; MOST_WORDS];
    // Until the input ends. A range and no endless loop, so that the program has an end for every input.
    for _ in 0..u64::MAX {
        // The numbers' bytes are read at once: a read for each number would be a call of the system for each.
        let mut head = [0; 16];
        if !read_whole(&mut input, &mut head)? {
            break;
        }
        let Some(numbers) = read_numbers(&mut &head[..])? else {
            break;
        };
        let header = Header::from(numbers);
        image.fill(0);
        if !read_whole(&mut input, &mut image[..header.sent])? {
            break;
        }
        answer(
            &mut out,
            &image[..header.length],
            &before[..header.words],
            &mut table[..header.words],
            header.in_full,
        )?;
    }
    Ok(())
}
