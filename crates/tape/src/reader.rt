// Reading a tape, record by record.
ghost use Rattle.std.specs.Prelude.{◌≡◌, ◌<◌, ◌⊎◌, [], length, take, drop, ◌+◌, OnOk, IfOk, OnErr, IfErr, slice_index};
ghost use Rattle.rules.specs.declared.refusal.Refusal.TheVariants.{RecordCutShort, NoRecordOfThisKindHere};
ghost use Rattle.tape.specs.Laws.{Reading};
ghost use Rattle.records.specs.Records.{letter_of, spelling};
ghost use Rattle.tape.specs.Tapes.{NotOpened, Versioned, TooLong, stated, CutShort, MayStand, Faulty, Stands, ReadUpTo, first_place};

use crate::fields::record;
use records::{Kind, Record};
use rules::{MOST_TAPE_BYTES, Refusal};
use std::marker::Model;

// The byte that a tape begins with: in specs/Tapes.antt, `version`.
const VERSION: u8 = 1;

// The place of the first record, behind the version byte: in specs/Tapes.antt, `first_place`.
const FIRST_PLACE: usize = 1;

// A reader of a tape: `place` is the byte, from 0, where the next record begins.
#[derive(Drop)]
pub struct Reader<'a> {
    tape: &'a [u8],
    place: usize,
}

// What the length of the record that begins here counts.
fn framed(rest: &[u8]) -> Result<&[u8], Refusal>
    ensures whole { OnOk result (¬ CutShort rest.now) }
    ensures body { IfOk result (λ body. body.now ≡ take (stated rest.now) (drop 2 rest.now)) }
    ensures cut { OnErr result (CutShort rest.now) }
    ensures refusal { IfErr result (λ e. e ≡ RecordCutShort) }
{
    let (length, behind) = rest
        .split_first_chunk::<2>()
        .ok_or(Refusal::RecordCutShort)?;
    let length = usize::from(u16::from_be_bytes(*length));
    behind.get(..length).ok_or(Refusal::RecordCutShort)
}

// The kind of a record that may stand at the place, by the letter of its body.
fn kind_at(place: usize, body: &[u8]) -> Result<Kind, Refusal>
    ensures some { OnOk result (0 < length body.now) }
    ensures letter { IfOk result (λ k. letter_of k ≡ slice_index body.now 0) }
    ensures stands { IfOk result (MayStand place) }
    ensures none { OnErr result ((length body.now ≡ 0) ⊎ ((k : Kind) → letter_of k ≡ slice_index body.now 0 → ¬ MayStand place k)) }
    ensures refusal { IfErr result (λ e. e ≡ NoRecordOfThisKindHere) }
{
    let [letter, ..] = body else {
        return Err(Refusal::NoRecordOfThisKindHere);
    };
    match Kind::try_from(*letter) {
        // The group's record stands first, and no other record does.
        Ok(kind) if (kind == Kind::Group) == (place == FIRST_PLACE) => Ok(kind),
        _ => Err(Refusal::NoRecordOfThisKindHere),
    }
}

// The record that begins at the place.
fn record_at(tape: &[u8], place: usize) -> Result<Record, Refusal>
    requires { place < length tape.now }
    ensures ok { IfOk result (λ r. Stands tape.now place r (place + length (spelling r))) }
    ensures err { IfErr result (Faulty (drop place tape.now) place) }
{
    let body = framed(&tape[place..])?;
    let kind = kind_at(place, body)?;
    if body.len() != kind.length() {
        return Err(Refusal::LengthWrongForKind);
    }
    Ok(record(kind, &body[1..]))
}

// What a reader at the place answers, and the place where it stands then.
fn read_at(tape: &[u8], place: usize) -> (Result<Option<Record>, Refusal>, usize)
    ensures { Reading tape.now place result.0 result.1 }
{
    if place >= tape.len() {
        return (Ok(None), place);
    }
    match record_at(tape, place) {
        // The length itself takes two bytes.
        Ok(record) => (Ok(Some(record)), place + 2 + record.kind().length()),
        Err(refusal) => (Err(refusal), place),
    }
}

// A reader is seen as the position where it stands.
impl<'a> Model for Reader<'a> {
    ghost use Rattle.tape.specs.Readers.{Position};

    ghost Value = { Position };

    ghost view = { λ reader. record { tape = reader.tape.now; place = reader.place } };
}

impl<'a> Reader<'a> {
    // Opens a tape: the reader stands before its first record.
    pub fn open(tape: &'a [u8]) -> Result<Reader<'a>, Refusal>
        ensures versioned { OnOk result (Versioned tape.now) }
        ensures short { OnOk result (¬ TooLong tape.now) }
        ensures tape { IfOk result (λ reader. reader.tape ≡ tape.now) }
        ensures place { IfOk result (λ reader. reader.place ≡ first_place) }
        ensures read { OnOk result (ReadUpTo tape.now first_place []) }
        ensures err { IfErr result (NotOpened tape.now) }
    {
        let [VERSION, ..] = tape else {
            return Err(Refusal::NoVersionByte);
        };
        if tape.len() > MOST_TAPE_BYTES {
            return Err(Refusal::TapeTooLong);
        }
        Ok(Reader {
            tape,
            place: FIRST_PLACE,
        })
    }

    // The byte, from 0, where the next record begins.
    pub fn place(&self) -> usize
        ensures { result ≡ self.now.place }
    {
        self.place
    }

    // The next record, or `None` behind the last one. A refused reader stays before the record.
    pub fn next_record(&mut self) -> Result<Option<Record>, Refusal>
        ensures reading { Reading self.old.tape self.old.place result self.new.place }
        ensures same { self.new.tape ≡ self.old.tape }
    {
        let Reader { tape, place } = self;
        let (answer, next) = read_at(tape, *place);
        *place = next;
        answer
    }
}
