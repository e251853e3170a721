// The lines of text, each with its newline, into a buffer that the caller lends.
ghost use Rattle.std.specs.Prelude.{◌≡◌, ℕ, ◌+◌, ◌*◌, ◌<◌, ◌≤◌, List, [], ◌++◌, length, decimal};
ghost use Rattle.std.specs.List.{flat_map};
ghost use Rattle.rules.specs.Refusals.{number};
ghost use Rattle.tape.specs.Buffers.{Puts, enough_room};
ghost use Rattle.tape.specs.Lines.{blank, line, line_of, longest_item, shown, form_shown, refused_line, entered_line, accepted_line, traded_line, auction_started_line, tape_refused_line, listed_line};

use crate::draft::Draft;
use records::{Field, Record};
use rules::{Refusal, Trade};

// What a line shows behind its word, in at most `longest_item` bytes.
trait Shown: Copy {
    ghost text: { Self → List ℕ };

    // Adds the text to a draft.
    fn show(self, draft: &mut Draft)
        requires { length draft.old + longest_item ≤ enough_room }
        ensures text { draft.new ≡ draft.old ++ text self }
        ensures bound { length draft.new ≤ length draft.old + longest_item };
}

// A number is shown in decimal.
impl Shown for u64 {
    ghost text = { decimal };

    fn show(self, draft: &mut Draft) {
        draft.number(self);
    }
}

// A field is shown as a number, or as the letter of a form.
impl Shown for Field {
    ghost text = { shown };

    fn show(self, draft: &mut Draft) {
        match self {
            Field::Byte(n) => draft.number(n),
            Field::Two(n) => draft.number(n),
            Field::Four(n) => draft.number(n),
            Field::Band(z) => draft.number(z),
            Field::Form(n) => show_form(draft, n),
        }
    }
}

// Adds a form: its letter where there is such a form, else the byte as a number.
fn show_form(draft: &mut Draft, form: u8)
    requires { length draft.old + longest_item ≤ enough_room }
    ensures text { draft.new ≡ draft.old ++ form_shown form }
    ensures bound { length draft.new ≤ length draft.old + longest_item }
{
    match char::from(form) {
        'A' | 'W' => draft.byte(form),
        _ => draft.number(form),
    }
}

// Adds the items, with a blank before each.
fn add_items<S: Shown>(draft: &mut Draft, items: &[S])
    requires { length draft.old + (longest_item + 1) * length items.now ≤ enough_room }
    ensures text { draft.new ≡ draft.old ++ flat_map (λ x. blank (S.text x)) items.now }
    ensures bound { length draft.new ≤ length draft.old + (longest_item + 1) * length items.now }
{
    for item in items {
        draft.byte(b' ');
        item.show(draft);
    }
}

// Adds a word, the items behind it with a blank before each, and the newline.
fn add_line<S: Shown>(draft: &mut Draft, word: &[u8], items: &[S])
    requires { length draft.old + length word.now + (longest_item + 1) * length items.now < enough_room }
    ensures { draft.new ≡ draft.old ++ line_of S.text word.now items.now }
{
    draft.all(word);
    add_items(draft, items);
    draft.byte(b'\n');
}

// Writes a line of a word and numbers.
fn put_line(word: &[u8], numbers: &[u64], out: &mut [u8]) -> Result<usize, Refusal>
    requires { length word.now + (longest_item + 1) * length numbers.now < enough_room }
    ensures { Puts (line word.now numbers.now) out.old out.new result }
{
    let mut draft = Draft::new();
    add_line(&mut draft, word, numbers);
    draft.put(out)
}

// Each line has a call of its own name, which is one call of what all share: a kind of line as a parameter would say no more.

// `refused N`: the record was refused with that number.
pub fn refused(refusal: Refusal, out: &mut [u8]) -> Result<usize, Refusal>
    ensures { Puts (refused_line (number refusal)) out.old out.new result }
{
    put_line(b"refused", &[u64::from(refusal.number())], out)
}

// `in NUMBER`: the order entered and has that number.
pub fn entered(order: u32, out: &mut [u8]) -> Result<usize, Refusal>
    ensures { Puts (entered_line order) out.old out.new result }
{
    put_line(b"in", &[u64::from(order)], out)
}

// `ok`: the record was accepted.
pub fn accepted(out: &mut [u8]) -> Result<usize, Refusal>
    ensures { Puts accepted_line out.old out.new result }
{
    put_line(b"ok", &[], out)
}

// `trade BUY SELL PRICE QUANTITY`: the trade.
pub fn traded(trade: Trade, out: &mut [u8]) -> Result<usize, Refusal>
    ensures { Puts (traded_line trade.buy trade.sell trade.price trade.quantity) out.old out.new result }
{
    let Trade {
        buy,
        sell,
        price,
        quantity,
    } = trade;
    let numbers = [buy, sell, price, quantity].map(u64::from);
    put_line(b"trade", &numbers, out)
}

// `auction END`: an auction started, and its first end is that second.
pub fn auction_started(end: u32, out: &mut [u8]) -> Result<usize, Refusal>
    ensures { Puts (auction_started_line end) out.old out.new result }
{
    put_line(b"auction", &[u64::from(end)], out)
}

// Puts the text of `tape N at PLACE` into an empty draft.
pub(crate) fn show_fault(draft: &mut Draft, refusal: Refusal, place: usize)
    requires { draft.old ≡ [] }
    ensures { draft.new ≡ tape_refused_line (number refusal) place }
{
    draft.all(b"tape ");
    draft.number(refusal.number());
    // With `as`: there is no `From` of a usize.
    add_line(draft, b" at", &[place as u64]);
}

// The text of `tape N at PLACE`.
fn tape_draft(refusal: Refusal, place: usize) -> Draft
    ensures { result ≡ tape_refused_line (number refusal) place }
{
    let mut draft = Draft::new();
    show_fault(&mut draft, refusal, place);
    draft
}

// `tape N at PLACE`: the tape, or its group record, is refused with that number at that byte.
pub fn tape_refused(refusal: Refusal, place: usize, out: &mut [u8]) -> Result<usize, Refusal>
    ensures { Puts (tape_refused_line (number refusal) place) out.old out.new result }
{
    tape_draft(refusal, place).put(out)
}

// Puts the text of a record's line into an empty draft.
pub(crate) fn show_record(draft: &mut Draft, record: &Record)
    requires { draft.old ≡ [] }
    ensures { draft.new ≡ listed_line «record».now }
{
    let letter = record.kind().letter();
    let fields = record.fields();
    add_line(draft, &[letter], &fields.items[..fields.count]);
}

// The text of a record's line.
fn record_draft(record: &Record) -> Draft
    ensures { result ≡ listed_line «record».now }
{
    let mut draft = Draft::new();
    show_record(&mut draft, record);
    draft
}

// The record's kind letter and its fields, as `list` prints them.
pub fn listed(record: &Record, out: &mut [u8]) -> Result<usize, Refusal>
    ensures { Puts (listed_line «record».now) out.old out.new result }
{
    record_draft(record).put(out)
}
