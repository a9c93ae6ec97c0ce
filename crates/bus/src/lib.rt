// The values of the planner: messages, legs, sets of legs, refusals; and the rules that give a leg its delay.
#![tactic(auto)]

pub mod bridge;
pub mod bridges;
pub mod choice;
pub mod choices;
pub mod entries;
pub mod entry;
pub mod leg;
pub mod leg_set;
pub mod legs;
pub mod message;
pub mod payload;
pub mod refusal;
pub mod rule;
