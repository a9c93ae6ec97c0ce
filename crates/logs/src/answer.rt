// What a call on a board answers.
use bus::refusal::Refusal;
use planner::progress::Tried;
use planner::rows::{Margin, Row};

#[derive(PartialEq, Eq, Debug, Drop)]
pub enum Answer {
    // an enter or a withdraw was accepted
    Done,
    Refused(Refusal),
    Tried(Tried),
    // the rank and the delay
    Looked(u8, u64),
    // the rows that were filled
    Listed(Vec<Row>),
    // whether the orders meet the board, and the margins that were filled
    Checked(bool, Vec<Margin>),
}
