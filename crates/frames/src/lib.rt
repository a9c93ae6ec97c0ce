// Frame times of CAN and CAN FD, and the rule that gives a leg its delay by the queuing equation.
#![tactic(auto)]

pub mod can11;
pub mod can29;
pub mod carrier;
pub mod classic;
pub mod equation;
pub mod equations;
pub mod fd;
pub mod worked;
