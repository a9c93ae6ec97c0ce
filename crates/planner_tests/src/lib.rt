// Tests of the board and its calls: the worked boards, refusals, and orders made by hand.
#![tactic(auto)]

#[cfg(test)]
mod checks;
#[cfg(test)]
mod logged_calls;
#[cfg(test)]
mod refusals;
#[cfg(test)]
mod shared_boards;
#[cfg(test)]
mod sizes;
#[cfg(test)]
mod walks;
