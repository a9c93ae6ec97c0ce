// Boards and rows that the tests share: two classic buses with a bit time of 2000 ns, and a gateway time of 100,000 ns.
use bus::entry::Entry;
use frames::can11::Can11;
use frames::equation::Equation;
use planner::board::Board;
use planner::rows::{Margin, Row, Spot};
use std::test::Fail;

pub(crate) fn rules() -> Result<[Equation<Can11>; 2], Fail> {
    let carrier = Can11::new(2000)?;
    Ok([Equation { carrier }; 2])
}

// A board of these rules, without messages.
pub(crate) fn board_of<'a>(
    rt: &impl AllocGlobal,
    rules: &'a [Equation<Can11>],
) -> Result<Board<'a, Equation<Can11>>, Fail> {
    let mut board = Board::new(rt.alloc())?;
    board.make(rules, 100_000)?;
    Ok(board)
}

// A message of 8 bytes that comes every 10 ms.
pub(crate) fn entry(number: u64, source: u64, destinations: u8, deadline: u64) -> Entry {
    Entry {
        number,
        source,
        destinations,
        payload: 8,
        period: 10_000_000,
        deadline,
        jitter: 0,
    }
}

// Two messages that cross from bus 1 to bus 2, with this deadline.
pub(crate) fn crossing(board: &mut Board<'_, Equation<Can11>>, deadline: u64) -> Result<(), Fail> {
    board.enter(entry(1, 1, 2, deadline))?;
    board.enter(entry(2, 1, 2, deadline))?;
    Ok(())
}

pub(crate) fn row(bus: u8, rank: u8, message: u8, delay: u64) -> Row {
    Row {
        bus,
        rank,
        message,
        delay,
    }
}

pub(crate) fn spot(bus: u8, message: u8) -> Spot {
    Spot { bus, message }
}

// A margin of legs of which none is over.
pub(crate) fn margin(message: u8, destination: u8, margin: i64) -> Margin {
    Margin {
        message,
        destination,
        margin,
        over: false,
    }
}
