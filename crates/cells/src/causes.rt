// Why a call is refused.
ghost use Rattle.std.specs.Prelude.{◌≡◌, Some};
ghost use Rattle.cells.specs.Causes.{number, meaning, shown};

use std::fmt;

// The thirteen causes. Where several apply to a call, the one with the smallest number counts.
#[derive(Clone, Copy, PartialEq, Eq, Debug)]
pub enum Cause {
    SizeOutOfRange = 1,
    OtherSize = 2,
    NoSuchHand = 3,
    Collecting = 4,
    NotCollecting = 5,
    ValueRefused = 6,
    NilHand = 7,
    LeafCell = 8,
    Spoiled = 9,
    NotAnImage = 10,
    NoRoom = 11,
    NotSettled = 12,
    TooFewBytes = 13,
}

impl Cause {
    // The number by which users know the cause.
    pub fn number(self) -> u8
        ensures { result ≡ number self }
    {
        self as u8
    }

    // The cause in words.
    pub fn meaning(self) -> &'static str
        ensures { result.now ≡ meaning self }
    {
        match self {
            Cause::SizeOutOfRange => "the bank's size is 0 or above 32768",
            Cause::OtherSize => "the bank has another size than the store",
            Cause::NoSuchHand => "the hand's number is above 15",
            Cause::Collecting => "the store is collecting",
            Cause::NotCollecting => "the store is not collecting",
            Cause::ValueRefused => "the value is not accepted by its leaf kind",
            Cause::NilHand => "the hand is nil",
            Cause::LeafCell => "the cell is a leaf",
            Cause::Spoiled => "the bank is spoiled",
            Cause::NotAnImage => "the bytes are no image of this leaf kind",
            Cause::NoRoom => "there is no room",
            Cause::NotSettled => "the store is not settled",
            Cause::TooFewBytes => "there are too few bytes",
        }
    }
}

impl fmt::Display for Cause {
    ghost output = { λ c. Some (shown c) };

    fn fmt<W: fmt::Write>(&self, f: &mut fmt::Formatter<W>) -> fmt::Result {
        let number = self.number();
        let meaning = self.meaning();
        write!(f, "{number} {meaning}")
    }
}
