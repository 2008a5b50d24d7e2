// The two leaf kinds: the points of a calibration set and the instructions of a test sequence.
#![tactic(auto)]

pub mod instructions;
mod numbers;
pub mod points;
