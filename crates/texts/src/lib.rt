// Leaf values as text: how they are typed, how they are shown, and lists of them compared.
#![tactic(auto)]

pub mod hex;
pub mod lists;
pub mod readings;
pub mod splits;
pub mod typed;
