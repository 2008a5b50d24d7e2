// The two kinds of bank: over lent cells, and over lent bytes, nine to a cell.
#![tactic(auto)]

pub mod lent;
pub mod open;
pub mod packed;
