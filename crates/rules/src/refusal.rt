ghost use Rattle.std.specs.Prelude.{◌≡◌, ◌==◌, Decides};
ghost use Rattle.rules.specs.Refusals.{number};
ghost use Rattle.rules.specs.declared.refusal.Refusal.{Refusal};
ghost use Rattle.std.specs.Cmp.Rules.{comparing};
ghost use Rattle.std.proofs.Common.{rules};

// Why a call refuses. Each case has the number that it is told by.
#[derive(Clone, Copy, Debug)]
pub enum Refusal {
    // caused by whoever builds the market into a product
    TradeListTooShort = 1,
    GroupSheetOutsideLimits = 2,
    TunnelOutsideLimits = 3,
    // caused by the clock's driver
    SecondBeforeMarket = 4,
    SecondAboveGreatest = 5,
    // caused by a member
    MemberOutsideLimits = 6,
    NoSuchOrder = 7,
    OrderOfAnotherMember = 8,
    PriceOutsideLimits = 9,
    PriceOffTick = 10,
    QuantityOutsideLimits = 11,
    PriceOutsideRange = 12,
    AmendmentAltersNothing = 13,
    AmendmentRetreatsInAuction = 14,
    SideFull = 15,
    StampsUsedUp = 16,
    CancellationInAuction = 17,
    // caused by the exchange
    AuctionAlreadyRuns = 18,
    // caused by the tape's author
    NoVersionByte = 19,
    RecordCutShort = 20,
    NoRecordOfThisKindHere = 21,
    LengthWrongForKind = 22,
    // caused by whoever builds the market into a product
    BufferTooShort = 23,
    // caused by the tape's author
    TapeTooLong = 24,
}

impl Refusal {
    // The number that the refusal is told by. No other refusal has it.
    // A method, since its name says what the number is and `u8::from` would not.
    pub fn number(self) -> u8
        ensures value { result ≡ number self }
        ensures alone { (other : Refusal) → number other ≡ result → other ≡ self }
    {
        self as u8
    }
}

// By hand and not derived: only so can the contract of `==` say that it compares the numbers, and that this tells
// whether two refusals are the same.
impl PartialEq for Refusal {
    ghost eq = { λ x y. number x == number y };

    ghost laws = { Prim.search (comparing, rules) };

    fn eq(&self, other: &Refusal) -> bool
        ensures eq { result ≡ (number self.now == number other.now) }
        ensures same { Decides result (self.now ≡ other.now) }
    {
        self.number() == other.number()
    }
}

impl Eq for Refusal {
    ghost laws = { Prim.search (comparing, rules) };
}
