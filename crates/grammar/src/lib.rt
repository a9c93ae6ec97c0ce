// What a sheet means: its lines and words, its faults, and the board that it describes. The readers are in another crate.
#![tactic(auto)]

pub mod bus_line;
pub mod kind;
pub mod laws;
pub mod layer;
