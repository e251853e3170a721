// What a tunnel may be asked.
ghost use Rattle.std.specs.Prelude.{◌≡◌};
ghost use Rattle.tunnel.specs.Ranges.{askable, asked, every_price_range};

use rules::{GREATEST_PRICE, GREATEST_SECOND};

// The answer to a question outside the limits, a range that no price is inside of: in specs/Ranges.antt, `no_price`.
// It is a pair and no Option, since docs/RULES.md answers every question with two numbers.
pub const NO_PRICE: (i64, i64) = (1, 0);

// The range that every price is inside of: in specs/Ranges.antt, `every_price_range`. With `as`, since `from` cannot be called in a constant.
pub const EVERY_PRICE: (i64, i64) = (1, GREATEST_PRICE as i64);

// Whether base price and second of a question are within their limits.
// A kind of tunnel asks this and answers its range or `NO_PRICE`: a function that did it for all would take the range as a
// closure, with a contract longer than the test.
pub fn askable(base: u32, second: u32) -> bool
    ensures { result ≡ askable base second }
{
    (1..=GREATEST_PRICE).contains(&base) && second <= GREATEST_SECOND
}

// The answer of a tunnel that turns no price away.
pub fn every_price(base: u32, second: u32) -> (i64, i64)
    ensures { result ≡ asked base second every_price_range }
{
    if askable(base, second) {
        EVERY_PRICE
    } else {
        NO_PRICE
    }
}
