// The public calls of the tape, at their edges.
use records::{Bands, Clock, Entry, Group, Record};
use rules::{Refusal, Trade};
use std::process::Abort;
use std::test::Fail;
use tape::{ENOUGH_ROOM, Reader, lines, write};

// A group's record with each field at an end of its width.
fn extreme_group() -> Record {
    Record::Group(Group {
        tick: u32::MAX,
        greatest_quantity: 0,
        liquid: u8::MAX,
        settlement: u32::MAX,
        form: u8::MAX,
        bands: Bands {
            buy_low: i32::MIN,
            buy_high: i32::MAX,
            sell_low: -1,
            sell_high: 0,
            auction_low: i32::MIN,
            auction_high: 1,
        },
    })
}

#[test]
fn a_buffer_one_byte_short_is_refused_and_untouched(rt: HostRuntime) {
    let record = Record::Clock(Clock {
        second: 60,
        draw: 65_535,
    });
    let mut short = [7u8; 8];
    assert_eq!(rt; write(&record, &mut short), Err(Refusal::BufferTooShort));
    assert_eq!(rt; short, [7; 8]);
    let mut long = [7u8; 11];
    assert_eq!(rt; write(&record, &mut long), Ok(9));
    assert_eq!(rt; long, [0, 7, b'T', 0, 0, 0, 60, 255, 255, 7, 7]);
}

#[test]
fn a_record_at_the_ends_of_its_widths_is_read_back(rt: HostRuntime) -> Result<(), Fail> {
    let mut tape = [1u8; 42];
    assert_eq!(rt; write(&extreme_group(), &mut tape[1..]), Ok(41));
    let mut reader = Reader::open(&tape)?;
    assert_eq!(rt; reader.next_record(), Ok(Some(extreme_group())));
    assert_eq!(rt; reader.place(), 42);
    assert_eq!(rt; reader.next_record(), Ok(None));
    assert_eq!(rt; reader.place(), 42);
    Ok(())
}

#[test]
fn the_longest_record_and_the_longest_line(rt: HostRuntime) {
    let longest = Record::Group(Group {
        tick: u32::MAX,
        greatest_quantity: u32::MAX,
        liquid: u8::MAX,
        settlement: u32::MAX,
        form: u8::MAX,
        bands: Bands {
            buy_low: i32::MIN,
            buy_high: i32::MIN,
            sell_low: i32::MIN,
            sell_high: i32::MIN,
            auction_low: i32::MIN,
            auction_high: i32::MIN,
        },
    });
    let mut out = [0u8; ENOUGH_ROOM];
    assert_eq!(rt; write(&longest, &mut out), Ok(41));
    assert_eq!(rt; lines::listed(&longest, &mut out), Ok(115));
}

#[test]
fn a_refused_reader_stays_before_the_record(rt: HostRuntime) -> Result<(), Fail> {
    let mut tape = [0u8; 45];
    tape[0] = 1;
    assert_eq!(rt; write(&extreme_group(), &mut tape[1..]), Ok(41));
    let mut reader = Reader::open(&tape)?;
    assert!(rt; reader.next_record().is_ok());
    assert_eq!(rt; reader.next_record(), Err(Refusal::NoRecordOfThisKindHere));
    assert_eq!(rt; reader.next_record(), Err(Refusal::NoRecordOfThisKindHere));
    assert_eq!(rt; reader.place(), 42);
    Ok(())
}

#[test]
fn which_tapes_are_opened(rt: HostRuntime) {
    assert_eq!(rt; Reader::open(&[]).err(), Some(Refusal::NoVersionByte));
    assert_eq!(rt; Reader::open(&[2]).err(), Some(Refusal::NoVersionByte));
    assert_eq!(rt; Reader::open(&[1; 65_536]).err(), None);
    assert_eq!(rt;
        Reader::open(&[1; 65_537]).err(),
        Some(Refusal::TapeTooLong)
    );
    assert_eq!(rt;
        Reader::open(&[0; 65_537]).err(),
        Some(Refusal::NoVersionByte)
    );
}

// A call answered the length of the expected line, and the line stands at the front of the buffer.
fn holds(rt: &impl Abort, expected: &[u8], answer: Result<usize, Refusal>, out: &[u8]) {
    assert_eq!(rt; answer, Ok(expected.len()));
    assert!(rt; expected.len() <= out.len());
    assert_eq!(rt; &out[0..expected.len()], expected);
}

#[test]
fn lines_of_text(rt: HostRuntime) {
    let mut out = [0u8; ENOUGH_ROOM];
    let answer = lines::refused(Refusal::PriceOutsideRange, &mut out);
    holds(&rt, b"refused 12\n", answer, &out);
    let answer = lines::entered(1_000_000, &mut out);
    holds(&rt, b"in 1000000\n", answer, &out);
    let answer = lines::accepted(&mut out);
    holds(&rt, b"ok\n", answer, &out);
    let trade = Trade {
        buy: 3,
        sell: 1,
        price: 1010,
        quantity: 2,
    };
    let answer = lines::traded(trade, &mut out);
    holds(&rt, b"trade 3 1 1010 2\n", answer, &out);
    let answer = lines::auction_started(0, &mut out);
    holds(&rt, b"auction 0\n", answer, &out);
    let answer = lines::tape_refused(Refusal::RecordCutShort, 65_536, &mut out);
    holds(&rt, b"tape 20 at 65536\n", answer, &out);
    let record = Record::Buy(Entry {
        member: 8,
        price: 1040,
        quantity: 4,
    });
    let answer = lines::listed(&record, &mut out);
    holds(&rt, b"B 8 1040 4\n", answer, &out);
}

#[test]
fn a_line_that_does_not_fit(rt: HostRuntime) {
    let mut short = [9u8; 10];
    assert_eq!(rt;
        lines::refused(Refusal::PriceOutsideRange, &mut short),
        Err(Refusal::BufferTooShort)
    );
    assert_eq!(rt; short, [9; 10]);
    let mut exact = [9u8; 11];
    let answer = lines::refused(Refusal::PriceOutsideRange, &mut exact);
    holds(&rt, b"refused 12\n", answer, &exact);
    let mut long = [9u8; 12];
    assert_eq!(rt;
        lines::refused(Refusal::PriceOutsideRange, &mut long),
        Ok(11)
    );
    assert_eq!(rt; long[11], 9);
}
