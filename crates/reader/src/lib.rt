//! The calls on a trace image: the header call, the notes call, and reading. Each takes any bytes and any table.
#![tactic(auto)]

ghost use Rattle.std.specs.Prelude.{◌≡◌, ◌+◌};
ghost use Rattle.model.specs.Refusals.{number, verdict_of};
ghost use Rattle.model.specs.Reading.{header_number, notes_found, notes_place, answer_of, outcome, reading};

use image::{HEADER_SIZE, Header};
use model::{Refusal, Refused};

mod image;
mod table;
mod trace;

/// Whether checks 1 to 5 pass, or else the refusal of the first that refuses the image.
pub fn header_refusal(image: &[u8]) -> Result<(), Refusal>
    ensures { number (verdict_of result) ≡ header_number image.now }
{
    Header::parse(image)?;
    Ok(())
}

/// The recorder's notes, as a part of the image itself; the empty part at the image's start where checks 1 to 5 refuse it.
#[tactic(auto, using(model::proofs::Image::accepted), unfolding(model::specs::Image::notes_of, model::specs::Reading::notes_found, model::specs::Reading::notes_place))]
pub fn notes(image: &[u8]) -> &[u8]
    ensures { (result.now ≡ notes_found image.now) × (result.ref_ptr.0 ≡ image.entry.ref_ptr.0) × (result.ref_ptr.1 ≡ image.entry.ref_ptr.1 + notes_place image.now) }
{
    match Header::parse(image) {
        Ok(header) => &image[HEADER_SIZE..header.offset()],
        Err(_) => &image[..0],
    }
}

/// Reads the image's rows into the lent table, and answers how many they are.
#[tactic(auto, using(model::proofs::Image::accepted), unfolding(model::specs::Reading::read_into, model::specs::Reading::read_image))]
pub fn read(image: &[u8], table: &mut [u16]) -> Result<usize, Refused>
    ensures { outcome (answer_of result) table.new ≡ reading image.now table.old }
{
    if table.len() < table::ROOM {
        return Err(Refusal::Small.into());
    }
    let header = Header::parse(image)?;
    trace::run(&image[header.offset()..], header.limits, table)
}
