// The store's record and its calls outside a collection.
#![tactic(auto)]

mod free;
mod hands;
pub mod record;
mod turning;
pub mod turns;

// What a store is doing. A collecting one holds the steps made, the cells copied and the marks, on which definitions match.
#[derive(Clone, Copy, PartialEq, Eq, Debug)]
pub enum Mode {
    Settled,
    Working,
    Collecting { steps: u32, copied: u16, marks: u32 },
}

// What a hand shows: nothing, a pair and which of its sides are nil, or a leaf with its value.
#[derive(Clone, Copy, PartialEq, Eq, Debug)]
pub enum Sight<V> {
    Nothing,
    APair { left_nil: bool, right_nil: bool },
    ALeaf(V),
}
