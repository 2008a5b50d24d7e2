// The words that every other crate shares: what a cell is, why a call is refused, what a leaf kind promises.
#![tactic(auto)]

pub mod banks;
pub mod causes;
pub mod leaves;
mod shown;

// Whether a reference is known to be the only one to its cell.
#[derive(Clone, Copy, PartialEq, Eq, Debug)]
pub enum Tag {
    Unique,
    Sticky,
}

// A tag and the address of a cell.
#[derive(Clone, Copy, PartialEq, Eq, Debug)]
pub struct Reference {
    pub tag: Tag,
    pub address: u16,
}

// What a hand, or one side of a pair, holds. An enum of its own and no `Option`: definitions and the law match on these names.
#[derive(Clone, Copy, PartialEq, Eq, Debug)]
pub enum Field {
    Nil,
    To(Reference),
}

#[derive(Clone, Copy, PartialEq, Eq, Debug)]
pub enum Side {
    Left,
    Right,
}

// The place that a moved cell was first reached from: none, a hand, or a side of the cell at an address.
#[derive(Clone, Copy, PartialEq, Eq, Debug)]
pub enum Source {
    Nowhere,
    Hand(u16),
    Cell(u16, Side),
}

// One cell of a bank. A leaf is held by value; a moved cell says where its copy is and where it was first reached from.
#[derive(Clone, Copy, PartialEq, Eq, Debug)]
pub enum Cell<V> {
    Blank,
    Pair { left: Field, right: Field },
    Leaf(V),
    Moved { forward: Reference, source: Source },
}
