// Running a whole list of calls on a board: the answers given, and the law that they keep.
#![tactic(auto)]

pub mod answer;
pub mod call;
mod giving;
pub mod log_fault;
pub mod running;
mod telling;
