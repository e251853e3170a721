// Writing a record.
ghost use Rattle.std.specs.Prelude.{◌≡◌, ◌+◌, ◌*◌, ◌≤◌, ◌++◌, length};
ghost use Rattle.std.specs.List.{flat_map};
ghost use Rattle.tape.specs.Buffers.{Puts, enough_room};
ghost use Rattle.tape.specs.Laws.{ReadsBack, SpelledAlone};
ghost use Rattle.records.specs.Records.{spelled, spelling};

use crate::draft::Draft;
use records::{Field, Record};
use rules::Refusal;

// Adds a field in the bytes that spell it on the tape, four at most.
fn add_field(draft: &mut Draft, field: Field)
    requires { length draft.old + 4 ≤ enough_room }
    ensures bytes { draft.new ≡ draft.old ++ spelled field }
    ensures bound { length draft.new ≤ length draft.old + 4 }
{
    // An arm for each width, since no trait has `to_be_bytes`.
    match field {
        Field::Byte(n) | Field::Form(n) => draft.byte(n),
        Field::Two(n) => draft.all(&n.to_be_bytes()),
        Field::Four(n) => draft.all(&n.to_be_bytes()),
        Field::Band(z) => draft.all(&z.to_be_bytes()),
    }
}

// Adds all the fields in the bytes that spell them.
// One loop for fields and for the items of a line would need a closure whose contract is longer than this loop.
fn add_fields(draft: &mut Draft, fields: &[Field])
    requires { length draft.old + 4 * length fields.now ≤ enough_room }
    ensures { draft.new ≡ draft.old ++ flat_map spelled fields.now }
{
    for field in fields {
        add_field(draft, *field);
    }
}

// The record as it is spelled on the tape.
fn spelled(record: &Record) -> Draft
    ensures bytes { result ≡ spelling «record».now }
    ensures read { ReadsBack «record».now }
    ensures alone { SpelledAlone «record».now }
{
    let kind = record.kind();
    let mut draft = Draft::new();
    // With `as`: a length fits, and `try_from` would answer an error that never comes.
    draft.all(&(kind.length() as u16).to_be_bytes());
    draft.byte(kind.letter());
    let fields = record.fields();
    add_fields(&mut draft, &fields.items[..fields.count]);
    draft
}

// Writes the record to the front of the buffer and answers its length there.
pub fn write(record: &Record, out: &mut [u8]) -> Result<usize, Refusal>
    ensures written { Puts (spelling «record».now) out.old out.new result }
    ensures read { ReadsBack «record».now }
    ensures alone { SpelledAlone «record».now }
{
    spelled(record).put(out)
}
