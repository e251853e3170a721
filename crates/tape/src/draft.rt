// Bytes that are put together before they are copied to a lent buffer.
ghost use Rattle.std.specs.Prelude.{◌≡◌, ◌+◌, ◌<◌, ◌≤◌, [], ◌∷◌, ◌++◌, length};
ghost use Rattle.tape.specs.Buffers.{Puts, enough_room};

use arrayvec::ArrayVec;
use itoa::{Buffer, Integer};
use rules::Refusal;
use std::marker::Model;

// A buffer of this many bytes has room for every record and every line: in specs/Buffers.antt, `enough_room`.
pub const ENOUGH_ROOM: usize = 256;

// Bytes that were put together so far.
#[derive(Drop)]
pub(crate) struct Draft {
    bytes: ArrayVec<u8, ENOUGH_ROOM>,
}

// A draft is seen as the list of its bytes.
impl Model for Draft {
    ghost use Rattle.std.specs.Prelude.{ℕ, List};

    ghost Value = { List ℕ };

    ghost view = { λ draft. draft.bytes.items };
}

impl Draft {
    pub(crate) fn new() -> Draft
        ensures { result ≡ [] }
    {
        Draft {
            bytes: ArrayVec::new(),
        }
    }

    // What was put together so far.
    pub(crate) fn bytes(&self) -> &[u8]
        ensures bytes { result.now ≡ self.now }
        ensures fits { length result.now ≤ enough_room }
    {
        self.bytes.as_slice()
    }

    // One byte more.
    pub(crate) fn byte(&mut self, b: u8)
        requires { length self.old < enough_room }
        ensures { self.new ≡ self.old ++ b ∷ [] }
    {
        self.bytes.push(b);
    }

    // All of `more`.
    pub(crate) fn all(&mut self, more: &[u8])
        requires { length self.old + length more.now ≤ enough_room }
        ensures { self.new ≡ self.old ++ more.now }
    {
        self.bytes.try_extend_from_slice(more).unwrap();
    }

    // A number in decimal, with a minus sign where it is negative.
    pub(crate) fn number<I: Integer>(&mut self, number: I)
        requires { length self.old + I.MAX_STR_LEN ≤ enough_room }
        ensures text { self.new ≡ self.old ++ I.text number }
        ensures bound { length self.new ≤ length self.old + I.MAX_STR_LEN }
    {
        self.all(Buffer::new().format(number).as_bytes());
    }

    // Copies the bytes to the front of the buffer and answers how many they are.
    pub(crate) fn put(&self, out: &mut [u8]) -> Result<usize, Refusal>
        ensures { Puts self.now out.old out.new result }
    {
        let bytes = self.bytes();
        // A test and no `get_mut`: nothing is known of elements that are written through a slice's `get_mut`.
        if out.len() < bytes.len() {
            return Err(Refusal::BufferTooShort);
        }
        out[..bytes.len()].copy_from_slice(bytes);
        Ok(bytes.len())
    }
}
