// A call on a board that has been made.
use bus::entry::Entry;
use planner::rows::Spot;

#[derive(PartialEq, Eq, Debug, Drop)]
pub enum Call {
    Enter(Entry),
    Withdraw(u64),
    // so many tries
    Attempt(u64),
    // a bus and a message
    Look(u64, u64),
    // so many rows are lent
    List(usize),
    // orders made by hand, and so many rows lent
    Check(Vec<Spot>, usize),
}
