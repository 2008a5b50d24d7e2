// What happens to a store in the course of a collection, and what ends its rest.
use cells::Field;

// A step says what it counts: a cell copied, a marking. A placed field goes into a hand while the hands are visited.
#[derive(Clone, Copy, PartialEq, Eq, Debug)]
pub enum Happening {
    Edited,
    Begun,
    Placed { hand: u16, field: Field },
    Stepped { copies: bool, marks: bool },
    Finished,
    Abandoned,
}
