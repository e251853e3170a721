// The fields of records, read from the bytes that spell them.
ghost use Rattle.std.specs.Prelude.{◌≡◌, ◌+◌, ◌≤◌, ◌++◌, length};
ghost use Rattle.std.specs.List.{flat_map};
ghost use Rattle.records.specs.declared.Field.{Field};
ghost use Rattle.records.specs.declared.Field.TheVariants.{Byte, Two, Four, Band};
ghost use Rattle.records.specs.Records.{spelled, fields_of, band_fields, kind_of, length_of, RecordFits};

use records::{Amendment, Bands, Cancellation, Clock, Entry, Group, Kind, Record};
use std::marker::Model;

// A number that the tape spells in `N` bytes.
// An impl of one line for each type, since each has a `from_be_bytes` of its own and no trait has it.
trait Number<const N: usize>: Copy {
    // The number as a field of a record.
    ghost field: { Self → Field };

    // The number that the bytes spell.
    fn spelled_by(bytes: &[u8; N]) -> Self
        ensures { spelled (field result) ≡ bytes.now };
}

impl Number<1> for u8 {
    ghost field = { Byte };

    fn spelled_by(bytes: &[u8; 1]) -> u8 {
        u8::from_be_bytes(*bytes)
    }
}

impl Number<2> for u16 {
    ghost field = { Two };

    fn spelled_by(bytes: &[u8; 2]) -> u16 {
        u16::from_be_bytes(*bytes)
    }
}

impl Number<4> for u32 {
    ghost field = { Four };

    fn spelled_by(bytes: &[u8; 4]) -> u32 {
        u32::from_be_bytes(*bytes)
    }
}

impl Number<4> for i32 {
    ghost field = { Band };

    fn spelled_by(bytes: &[u8; 4]) -> i32 {
        i32::from_be_bytes(*bytes)
    }
}

// The bytes of the fields that are still to be read.
#[derive(Drop)]
struct Unread<'a> {
    bytes: &'a [u8],
}

// Unread fields are seen as the list of their bytes.
impl<'a> Model for Unread<'a> {
    ghost use Rattle.std.specs.Prelude.{ℕ, List};

    ghost Value = { List ℕ };

    ghost view = { λ unread. unread.bytes.now };
}

impl<'a> Unread<'a> {
    // The next number.
    fn next<T: Number<N>, const N: usize>(&mut self) -> T
        requires { N ≤ length self.old }
        ensures { self.old ≡ spelled (T.field result) ++ self.new }
    {
        let (number, rest) = self.bytes.split_first_chunk::<N>().unwrap();
        self.bytes = rest;
        T::spelled_by(number)
    }

    // Each of these names the fields of its own struct, in the tape's order; what they share is `next`.

    fn bands(&mut self) -> Bands
        requires { 24 ≤ length self.old }
        ensures { self.old ≡ flat_map spelled (band_fields result) ++ self.new }
    {
        Bands {
            buy_low: self.next(),
            buy_high: self.next(),
            sell_low: self.next(),
            sell_high: self.next(),
            auction_low: self.next(),
            auction_high: self.next(),
        }
    }

    fn group(&mut self) -> Group
        requires { 38 ≤ length self.old }
        ensures { self.old ≡ flat_map spelled (fields_of (Record.Group result)) ++ self.new }
    {
        Group {
            tick: self.next(),
            greatest_quantity: self.next(),
            liquid: self.next(),
            settlement: self.next(),
            form: self.next(),
            bands: self.bands(),
        }
    }

    fn entry(&mut self) -> Entry
        requires { 10 ≤ length self.old }
        ensures { self.old ≡ flat_map spelled (fields_of (Record.Buy result)) ++ self.new }
    {
        Entry {
            member: self.next(),
            price: self.next(),
            quantity: self.next(),
        }
    }

    fn amendment(&mut self) -> Amendment
        requires { 14 ≤ length self.old }
        ensures { self.old ≡ flat_map spelled (fields_of (Record.Amendment result)) ++ self.new }
    {
        Amendment {
            member: self.next(),
            number: self.next(),
            price: self.next(),
            quantity: self.next(),
        }
    }

    fn cancellation(&mut self) -> Cancellation
        requires { 6 ≤ length self.old }
        ensures { self.old ≡ flat_map spelled (fields_of (Record.Cancellation result)) ++ self.new }
    {
        Cancellation {
            member: self.next(),
            number: self.next(),
        }
    }

    fn clock(&mut self) -> Clock
        requires { 6 ≤ length self.old }
        ensures { self.old ≡ flat_map spelled (fields_of (Record.Clock result)) ++ self.new }
    {
        Clock {
            second: self.next(),
            draw: self.next(),
        }
    }
}

// The record of that kind whose fields are these bytes.
pub(crate) fn record(kind: Kind, fields: &[u8]) -> Record
    requires { length fields.now + 1 ≡ length_of kind }
    ensures kind { kind_of result ≡ kind }
    ensures fields { fields.now ≡ flat_map spelled (fields_of result) }
    ensures fits { RecordFits result }
{
    let mut unread = Unread { bytes: fields };
    match kind {
        Kind::Group => Record::Group(unread.group()),
        Kind::Buy => Record::Buy(unread.entry()),
        Kind::Sell => Record::Sell(unread.entry()),
        Kind::Amendment => Record::Amendment(unread.amendment()),
        Kind::Cancellation => Record::Cancellation(unread.cancellation()),
        Kind::AuctionCall => Record::AuctionCall,
        Kind::Clock => Record::Clock(unread.clock()),
    }
}
