// The limits. Each stands under the same name in specs/Limits.antt, in small letters.

// Prices run from 1 to this.
pub const GREATEST_PRICE: u32 = 10_000_000;

// Seconds run from 0 to this.
pub const GREATEST_SECOND: u32 = 100_000;

// Member numbers run from 1 to this.
pub const GREATEST_MEMBER: u16 = 9_999;

// Quantities run from 1 to this, and a group may set a smaller one.
pub const GREATEST_QUANTITY: u32 = 10_000;

// Ticks run from 1 to this.
pub const GREATEST_TICK: u32 = 1_000;

// Bands and half-widths of tunnels are at most this, without sign.
pub const GREATEST_BAND: i32 = 1_000_000;

// A tunnel's tally never passes this.
pub const GREATEST_TALLY: u64 = 100_000_000_000;

// Stamps run from 1 to this.
pub const GREATEST_STAMP: u32 = 1_000_000;

// A side of the book holds at most this many orders.
pub const MOST_ORDERS: usize = 256;

// One call makes at most this many trades.
pub const MOST_TRADES: usize = 511;

// A session tape is at most this long.
pub const MOST_TAPE_BYTES: usize = 65_536;
