// A collection: what is reachable is copied into the spare bank, every tag is set right, and the cells are laid out in the
// canonical order.
#![tactic(auto)]

pub mod calls;
mod counts;
mod marches;
mod places;
mod steps;
pub mod tickets;
