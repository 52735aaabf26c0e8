//! Says of each case on standard input what marking answers and leaves.
//!
//! A case is numbers, low byte first: the words of the table (4 bytes, at most 13,000), how many of them are sent (4, the others are 0), the row
//! count (8, any), the page's length (4, at most 2,100), 1 for marks in full or 0 for their counts and sums (4), and then the words sent (2 each).
//! Before the call the page holds known bytes, none of them 0 or 1.
//!
//! A line has the number and the place. Where marking passed, it has the marked locks, the kept rows, and the first of the 1,280 marks that is
//! neither 0 nor 1. Its end is the first byte after the marks, or after a refusal the first byte at all, that is not as it was.
#![tactic(auto)]

ghost use Rattle.std.specs.Prelude.{◌≡◌, ◌≤◌, length};
ghost use Rattle.cases.specs.declared.TheConstants.{MOST_WORDS};
ghost use Rattle.mark_cases.specs.declared.TheConstants.{MOST_PAGE};

use cases::{MOST_WORDS, checksum, first_changed, read_numbers, read_whole};
use model::{MOST_LOCKS, MOST_ROWS, Refusal};
use std::io::Write;
use std::{array, io};

const MOST_PAGE: usize = 2_100;

const MARKS: usize = MOST_LOCKS + MOST_ROWS;

// What the numbers before a case say of it. They are cast to `usize` by `as`, for which Rust has no `From<u32>` or `From<u64>`.
// Nothing compares or prints it.
#[derive(Clone, Copy)]
struct Header {
    words: usize,
    sent: usize,
    rows: usize,
    page: usize,
    // A number of the case, which picks what is said and no step of the calls.
    in_full: bool,
    ghost table_fits: { words ≤ MOST_WORDS },
    ghost sent_fits: { sent ≤ MOST_WORDS },
    ghost page_fits: { page ≤ MOST_PAGE },
}

impl From<[u32; 6]> for Header {
    fn from([words, sent, low, high, page, form]: [u32; 6]) -> Self {
        Header {
            words: MOST_WORDS.min(words as usize),
            sent: MOST_WORDS.min(sent as usize),
            rows: (u64::from(high) << 32 | u64::from(low)) as usize,
            page: MOST_PAGE.min(page as usize),
            in_full: form % 256 == 1,
        }
    }
}

// The byte that lies at a place of the page before the call. `as` loses nothing, as the check proves.
fn byte_before(place: usize) -> u8 {
    (place % 251 + 3) as u8
}

// The words that the bytes are, and 0 from the bytes' end on.
fn load(table: &mut [u16], bytes: &[u8]) {
    table.fill(0);
    let (words, _) = bytes.as_chunks();
    for (word, bytes) in table.iter_mut().zip(words) {
        *word = u16::from_le_bytes(*bytes);
    }
}

// The places that are marked, or how many they are and the sum over all: `in_full` is the case's own number. The blank before a name is the name's,
// here and in `say_first`: each part of a format is a call of the system.
fn say_marks<W: Write>(out: &mut W, name: &str, marks: &[u8], in_full: bool) -> io::Result<()> {
    write!(out, "{name}")?;
    if !in_full {
        let count = marks.iter().filter(|mark| **mark == 1).count();
        return write!(out, " {count} sum {}", checksum(marks));
    }
    for (place, mark) in marks.iter().enumerate() {
        if *mark == 1 {
            write!(out, " {place}")?;
        }
    }
    Ok(())
}

// The place that was found, or `none`.
fn say_first<W: Write>(out: &mut W, name: &str, found: Option<usize>) -> io::Result<()> {
    match found {
        Some(place) => write!(out, "{name} {place}"),
        None => write!(out, "{name} none"),
    }
}

// Calls with a table and a page, which holds the bytes of `before`, and says what is answered and left.
// `answer` and `main` of the other program have this frame, and differ in what they read, call and say, which is all of their body.
// Words and row count are two arguments, as a case is any words with any count, and `in_full` is the case's own number.
fn answer<W: Write>(
    out: &mut W,
    table: &[u16],
    rows: usize,
    before: &[u8],
    page: &mut [u8],
    in_full: bool,
) -> io::Result<()>
    requires { length before.now ≡ length page.old }
{
    page.copy_from_slice(before);
    let refusal = marks::mark(table, rows, page).err();
    write!(out, "mark {} 0", refusal.map_or(0, Refusal::number))?;
    let mut written = 0;
    if let (None, Some(marks)) = (refusal, page.first_chunk::<MARKS>()) {
        let (locks, rows) = marks.split_at(MOST_LOCKS);
        say_marks(out, " locks", locks, in_full)?;
        say_marks(out, " rows", rows, in_full)?;
        say_first(out, " odd", marks.iter().position(|mark| 1 < *mark))?;
        written = MARKS;
    }
    say_first(out, " changed", first_changed(before, page, written))?;
    writeln!(out)
}

fn main(rt: HostRuntime) -> io::Result<()> {
    let mut input = rt.stdin();
    let mut out = rt.stdout();
    // Arrays and not vectors: a case never fails for want of memory, and the program assumes nothing of how memory is got.
    let mut bytes = [0; 2 * MOST_WORDS];
    let mut table = [0; MOST_WORDS];
    let before: [u8; MOST_PAGE] = array::from_fn(byte_before);
    let mut page = before;
    // Until the input ends. A range and no endless loop, so that the program has an end for every input.
    for _ in 0..u64::MAX {
        // The numbers' bytes are read at once: a read for each number would be a call of the system for each.
        let mut head = [0; 24];
        if !read_whole(&mut input, &mut head)? {
            break;
        }
        let Some(numbers) = read_numbers(&mut &head[..])? else {
            break;
        };
        let header = Header::from(numbers);
        let bytes = &mut bytes[..2 * header.sent];
        if !read_whole(&mut input, bytes)? {
            break;
        }
        let table = &mut table[..header.words];
        load(table, bytes);
        answer(
            &mut out,
            table,
            header.rows,
            &before[..header.page],
            &mut page[..header.page],
            header.in_full,
        )?;
    }
    Ok(())
}
