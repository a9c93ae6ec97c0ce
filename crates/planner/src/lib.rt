// The board and its calls.
#![tactic(auto)]

pub mod board;
mod candidates;
mod fits;
mod found;
pub mod laws;
mod listing;
mod margins;
mod naming;
mod network;
mod opens;
mod orders;
pub mod progress;
mod ranked;
mod ranks;
mod refusing;
pub mod rows;
mod seen_legs;
mod stage;
mod table;
mod walk;
mod walking;
