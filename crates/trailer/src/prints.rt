// The lines that the program prints.
use crate::Trailer;
use planner::rows::{Margin, Row, Spot};

// The orders found, one leg to a line.
pub(crate) fn print_rows(rt: &HostRuntime, board: &Trailer<'_>) -> anyhow::Result<()> {
    let mut rows = [Row::default(); 4];
    let _ = board.list(&mut rows)?;
    for Row {
        bus,
        rank,
        message,
        delay,
    } in rows {
        println!(rt; "bus {bus} rank {rank} message {message} delay {delay}")?;
    }
    Ok(())
}

// The margins with message 1 above message 2 on both buses.
pub(crate) fn print_margins(rt: &HostRuntime, board: &Trailer<'_>) -> anyhow::Result<()> {
    let orders = [
        Spot { bus: 1, message: 1 },
        Spot { bus: 1, message: 2 },
        Spot { bus: 2, message: 1 },
        Spot { bus: 2, message: 2 },
    ];
    let mut margins = [Margin::default(); 2];
    let (meets, _) = board.check(&orders, &mut margins)?;
    println!(rt; "one order on both buses meets the board: {meets}")?;
    for Margin {
        message,
        destination,
        margin,
        ..
    } in margins {
        println!(rt; "message {message} to bus {destination} margin {margin}")?;
    }
    Ok(())
}
