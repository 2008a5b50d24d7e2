// What the program is asked for, and what it tells of images, computed: where two of them differ, and what one holds.
#![tactic(auto)]

pub mod apart;
pub mod counts;
pub mod requests;
pub mod sharing;
