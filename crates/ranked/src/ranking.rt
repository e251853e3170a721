// What it is to have a rank.
ghost use Rattle.std.specs.Prelude.{◌≡◌, Bool, true, false};

// A way to rank records: of two records of different ranks exactly one comes first.
// By a comparison and not by a key: not every ranking has one, and a key would be built anew for each record.
pub trait Ranking<R> {
    // Whether the one record comes before the other.
    ghost before: { R → R → Bool };

    // Whether two records have the same rank, as the ranking itself says it. Of two that have not, one comes first, so
    // that contracts can speak of the order alone: in specs/Ranks.antt, `Alike`.
    ghost alike: { R → R → Type 0 };

    // Whether the one record comes before the other.
    fn before(&self, one: &R, other: &R) -> bool
        ensures { result ≡ before one.now other.now };

    ghost one_of_two_comes_first: { (x y : R) → before x y ≡ false → before y x ≡ false → alike x y };

    ghost only_one_comes_first: { (x y : R) → before x y ≡ true → before y x ≡ false };

    ghost neither_of_two_alike: { (x y : R) → alike x y → before x y ≡ false };

    ghost transitive: { (x y z : R) → before x y ≡ true → before y z ≡ true → before x z ≡ true };
}
