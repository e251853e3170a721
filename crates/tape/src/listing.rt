// The listing of a whole tape, as text.
ghost use Rattle.std.specs.Prelude.{◌≡◌, [], ◌++◌, IfOk, OnOk};
ghost use Rattle.rules.specs.Refusals.{number};
ghost use Rattle.tape.specs.Lines.{listed_line, tape_refused_line};
ghost use Rattle.tape.specs.Listings.{TheListing};

use crate::draft::Draft;
use crate::lines::{show_fault, show_record};
use crate::reader::Reader;
use records::Record;
use rules::Refusal;
use std::alloc::{AllocError, Global};

// Adds the line of a record.
// A function of its own, as the next one, so that a tape pays for the room of a line only where it has one.
fn add_record(text: &mut Vec<u8>, record: &Record) -> Result<(), AllocError>
    ensures { OnOk result (text.new.items ≡ text.old.items ++ listed_line «record».now) }
{
    let mut draft = Draft::new();
    show_record(&mut draft, record);
    text.extend_from_slice(draft.bytes())
}

// Adds the line that tells a fault and its place.
fn add_fault(text: &mut Vec<u8>, refusal: Refusal, place: usize) -> Result<(), AllocError>
    ensures { OnOk result (text.new.items ≡ text.old.items ++ tape_refused_line (number refusal) place) }
{
    let mut draft = Draft::new();
    show_fault(&mut draft, refusal, place);
    text.extend_from_slice(draft.bytes())
}

// Adds the listing of a tape to an empty text.
fn add_listing(text: &mut Vec<u8>, tape: &[u8]) -> Result<(), AllocError>
    requires { text.old.items ≡ [] }
    ensures { OnOk result (TheListing tape.now text.new.items) }
{
    // A refusal becomes a line and no error, here and below, so `?` does not fit.
    let mut reader = match Reader::open(tape) {
        Ok(reader) => reader,
        Err(refusal) => return add_fault(text, refusal, 0),
    };
    loop {
        match reader.next_record() {
            Ok(Some(record)) => add_record(text, &record)?,
            Ok(None) => return Ok(()),
            Err(refusal) => return add_fault(text, refusal, reader.place()),
        }
    }
}

// A line for each record of the tape, and at a fault a last line that tells it.
pub fn listing(heap: Global, tape: &[u8]) -> Result<Vec<u8>, AllocError>
    ensures { IfOk result (λ text. TheListing tape.now text.items) }
{
    let mut text = Vec::new(heap);
    add_listing(&mut text, tape)?;
    Ok(text)
}
