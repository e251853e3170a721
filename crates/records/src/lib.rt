// The records of a session tape, with fields as wide as the tape has them.
#![tactic(auto)]

ghost use Rattle.std.specs.Prelude.{◌≡◌, ◌≤◌, ◌++◌, length, take, codes, decimal, Some, MatchOption, ◌≢◌};
ghost use Rattle.records.specs.Records.{body, fields_of, kind_of, letter_of, length_of, most_fields, IsKindOfLetter, RecordFits};

use std::error::Error;
use std::fmt;

// The kinds of record, each with its letter on the tape.
#[derive(Clone, Copy, PartialEq, Eq, Debug)]
pub enum Kind {
    Group = b'G' as isize,
    Buy = b'B' as isize,
    Sell = b'S' as isize,
    Amendment = b'A' as isize,
    Cancellation = b'X' as isize,
    AuctionCall = b'L' as isize,
    Clock = b'T' as isize,
}

// A byte that is the letter of no kind.
#[derive(Clone, Copy, PartialEq, Eq, Debug)]
pub struct NoSuchLetter(pub u8);

// The ends of the three ranges, as distances from the base price: the six bands of the tape, each by its name.
#[derive(Clone, Copy, PartialEq, Eq, Debug)]
pub struct Bands {
    pub buy_low: i32,
    pub buy_high: i32,
    pub sell_low: i32,
    pub sell_high: i32,
    pub auction_low: i32,
    pub auction_high: i32,
}

// The group sheet and the tunnel. `liquid` is 1 for a liquid group and 0 for a less liquid one,
// and `form` is the letter of the tunnel's kind.
// Both are bytes: the tape carries any byte in either, and it is written back as it was read.
#[derive(Clone, Copy, PartialEq, Eq, Debug)]
pub struct Group {
    pub tick: u32,
    pub greatest_quantity: u32,
    pub liquid: u8,
    pub settlement: u32,
    pub form: u8,
    pub bands: Bands,
}

// An order to buy or to sell.
#[derive(Clone, Copy, PartialEq, Eq, Debug)]
pub struct Entry {
    pub member: u16,
    pub price: u32,
    pub quantity: u32,
}

// A new price and a new remaining quantity for the order of that number.
#[derive(Clone, Copy, PartialEq, Eq, Debug)]
pub struct Amendment {
    pub member: u16,
    pub number: u32,
    pub price: u32,
    pub quantity: u32,
}

// The order of that number is taken back.
#[derive(Clone, Copy, PartialEq, Eq, Debug)]
pub struct Cancellation {
    pub member: u16,
    pub number: u32,
}

// The clock shows a new second, and brings a draw.
#[derive(Clone, Copy, PartialEq, Eq, Debug)]
pub struct Clock {
    pub second: u32,
    pub draw: u16,
}

// A record of a session tape.
#[derive(Clone, Copy, PartialEq, Eq, Debug)]
pub enum Record {
    Group(Group),
    Buy(Entry),
    Sell(Entry),
    Amendment(Amendment),
    Cancellation(Cancellation),
    AuctionCall,
    Clock(Clock),
}

// A field of a record: a plain number of one, two or four bytes, a band, or the letter of a form.
#[derive(Clone, Copy, PartialEq, Eq, Debug)]
pub enum Field {
    Byte(u8),
    Two(u16),
    Four(u32),
    Band(i32),
    Form(u8),
}

// What an unused place of a row of fields holds.
impl Default for Field {
    ghost use Rattle.records.specs.declared.Field.TheVariants.{Byte};

    ghost is_default = { λ field. field ≡ Byte 0 };

    fn default() -> Field {
        Field::Byte(0)
    }
}

// No record has more fields than the group's: in specs/Records.antt, `most_fields`.
pub const MOST_FIELDS: usize = 11;

// The fields of a record in the tape's order: the first `count` of `items`.
// An array and a count, since an `ArrayVec` is no `Copy`, and a row can be copied as a record can.
#[derive(Clone, Copy)]
pub struct Fields {
    pub items: [Field; MOST_FIELDS],
    pub count: usize,
}

impl Kind {
    // The letter that stands for the kind on the tape.
    // A method, since a kind has a length too and `u8::from` would not say which number it is.
    pub fn letter(self) -> u8
        ensures { result ≡ letter_of self }
    {
        self as u8
    }

    // The kind that a letter of the tape stands for, if there is one.
    pub fn of_letter(letter: u8) -> Option<Kind>
        ensures { MatchOption result ((k : Kind) → letter_of k ≢ letter) (λ k. letter_of k ≡ letter) }
    {
        Kind::try_from(letter).ok()
    }

    // The length that a record of the kind has on the tape, without the two bytes that tell it.
    pub fn length(self) -> usize
        ensures value { result ≡ length_of self }
        ensures every { (x : Record) → kind_of x ≡ self → length (body x) ≡ result }
    {
        match self {
            Kind::Group => 39,
            Kind::Buy | Kind::Sell => 11,
            Kind::Amendment => 15,
            Kind::Cancellation | Kind::Clock => 7,
            Kind::AuctionCall => 1,
        }
    }
}

impl TryFrom<u8> for Kind {
    type Error = NoSuchLetter;

    ghost try_from_gives = { IsKindOfLetter };

    // The kind that a letter of the tape stands for.
    fn try_from(letter: u8) -> Result<Kind, NoSuchLetter> {
        match char::from(letter) {
            'G' => Ok(Kind::Group),
            'B' => Ok(Kind::Buy),
            'S' => Ok(Kind::Sell),
            'A' => Ok(Kind::Amendment),
            'X' => Ok(Kind::Cancellation),
            'L' => Ok(Kind::AuctionCall),
            'T' => Ok(Kind::Clock),
            _ => Err(NoSuchLetter(letter)),
        }
    }
}

impl fmt::Display for NoSuchLetter {
    ghost output = { λ error. Some (codes "no kind of record has the letter " ++ decimal error.0) };

    fn fmt<W: fmt::Write>(&self, f: &mut fmt::Formatter<W>) -> fmt::Result {
        write!(f, "no kind of record has the letter {}", self.0)
    }
}

impl Error for NoSuchLetter {}

impl Record {
    pub fn kind(&self) -> Kind
        ensures { result ≡ kind_of self.now }
    {
        match self {
            Record::Group(_) => Kind::Group,
            Record::Buy(_) => Kind::Buy,
            Record::Sell(_) => Kind::Sell,
            Record::Amendment(_) => Kind::Amendment,
            Record::Cancellation(_) => Kind::Cancellation,
            Record::AuctionCall => Kind::AuctionCall,
            Record::Clock(_) => Kind::Clock,
        }
    }

    // The fields in the tape's order.
    pub fn fields(self) -> Fields
        ensures count { result.count ≤ most_fields }
        ensures items { take result.count result.items ≡ fields_of self }
        ensures fits { RecordFits self }
    {
        match self {
            Record::Group(g) => row(&g.fields()),
            Record::Buy(e) | Record::Sell(e) => row(&e.fields()),
            Record::Amendment(a) => row(&a.fields()),
            Record::Cancellation(x) => row(&[Field::Two(x.member), Field::Four(x.number)]),
            Record::AuctionCall => row(&[]),
            Record::Clock(t) => row(&[Field::Four(t.second), Field::Two(t.draw)]),
        }
    }
}

// The row of these fields.
fn row(fields: &[Field]) -> Fields
    requires { length fields.now ≤ most_fields }
    ensures count { result.count ≡ length fields.now }
    ensures items { take result.count result.items ≡ fields.now }
{
    let count = fields.len();
    let mut items = [Field::default(); MOST_FIELDS];
    items[..count].copy_from_slice(fields);
    Fields { items, count }
}

// The longer rows. Each struct lists its own fields, in the tape's order.

impl Entry {
    fn fields(self) -> [Field; 3]
        ensures items { result ≡ fields_of (Record.Buy self) }
        ensures fits { RecordFits (Record.Buy self) }
    {
        [
            Field::Two(self.member),
            Field::Four(self.price),
            Field::Four(self.quantity),
        ]
    }
}

impl Amendment {
    fn fields(self) -> [Field; 4]
        ensures items { result ≡ fields_of (Record.Amendment self) }
        ensures fits { RecordFits (Record.Amendment self) }
    {
        [
            Field::Two(self.member),
            Field::Four(self.number),
            Field::Four(self.price),
            Field::Four(self.quantity),
        ]
    }
}

impl Group {
    fn fields(self) -> [Field; MOST_FIELDS]
        ensures items { result ≡ fields_of (Record.Group self) }
        ensures fits { RecordFits (Record.Group self) }
    {
        let bands = self.bands;
        [
            Field::Four(self.tick),
            Field::Four(self.greatest_quantity),
            Field::Byte(self.liquid),
            Field::Four(self.settlement),
            Field::Form(self.form),
            Field::Band(bands.buy_low),
            Field::Band(bands.buy_high),
            Field::Band(bands.sell_low),
            Field::Band(bands.sell_high),
            Field::Band(bands.auction_low),
            Field::Band(bands.auction_high),
        ]
    }
}
