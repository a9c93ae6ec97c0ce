// Margins of orders made by hand.
use crate::shared_boards::{board_of, crossing, margin, rules, spot};
use planner::rows::Margin;
use std::test::Fail;

#[test]
fn an_order_for_each_bus(rt: HostRuntime) -> Result<(), Fail> {
    let rules = rules()?;
    let mut board = board_of(&rt, &rules)?;
    crossing(&mut board, 1_500_000)?;
    let mut margins = [margin(9, 9, 9); 3];
    let (meets, count) = board.check(
        &[spot(1, 2), spot(1, 1), spot(2, 1), spot(2, 2)],
        &mut margins,
    )?;
    assert!(rt; meets);
    assert_eq!(rt; count, 2);
    assert_eq!(rt;
        margins,
        [margin(1, 2, 50_000), margin(2, 2, 50_000), margin(9, 9, 9),],
        "the row beyond is as it was"
    );
    Ok(())
}

#[test]
fn one_order_on_both_buses(rt: HostRuntime) -> Result<(), Fail> {
    let rules = rules()?;
    let mut board = board_of(&rt, &rules)?;
    crossing(&mut board, 1_500_000)?;
    let mut margins = [Margin::default(); 2];
    let (meets, _) = board.check(
        &[spot(1, 1), spot(1, 2), spot(2, 1), spot(2, 2)],
        &mut margins,
    )?;
    assert!(rt; !meets);
    assert_eq!(rt;
        margins,
        [margin(1, 2, 320_000), margin(2, 2, -220_000)],
        "message 2 takes 1,720,000 in all"
    );
    Ok(())
}
