// Prints the delays of the legs of a small trailer: each with nothing above it, and with every other leg of its bus above it.
#![tactic(auto)]

ghost use Rattle.std.specs.Prelude.{◌≡◌, ◌≤◌, length, IfOk};
ghost use Rattle.delays.specs.Safe.{safe_count};

mod legs;
mod row;
mod rows;
mod trailer;

use anyhow::Context;
use bus::leg::Leg;
use frames::can11::Can11;
use frames::carrier::Carrier;
use frames::equation::Equation;
use frames::fd::Fd11;
use legs::legs_on;
use rows::row_of;
use std::io;
use trailer::messages;

// Prints the rows of one bus, and answers how many of its legs can never be late.
fn print_bus<C: Carrier>(
    rt: &HostRuntime,
    bus: u8,
    rule: &Equation<C>,
    legs: &[Leg],
) -> io::Result<usize>
    ensures few { IfOk result (λ safe. safe ≤ length legs.now) }
    ensures count { IfOk result (λ safe. safe ≡ safe_count (C.Carrier.time rule.now.carrier) (C.Carrier.bit rule.now.carrier) legs.now) }
{
    // A loop that prints and counts: rows gathered first would want memory, and a row is printed whatever memory is left.
    let mut safe: usize = 0;
    for leg in legs {
        let row = row_of(rule, legs, leg.message);
        println!(rt; "{bus} {row}")?;
        safe += usize::from(row.lowest.0.is_some());
    }
    Ok(safe)
}

// The trailer has a classic bus and a CAN FD bus, both at 500 kbit/s, with 2 Mbit/s in the data phase.
fn run(rt: &HostRuntime) -> anyhow::Result<()> {
    let can = Can11::new(2000).context("the bit time of bus 1 is out of range")?;
    let fd = Fd11::new(2000, 500).context("a bit time of bus 2 is out of range")?;
    let messages = messages(rt.alloc())?;
    let first = legs_on(rt.alloc(), &messages, 1)?;
    let second = legs_on(rt.alloc(), &messages, 2)?;
    println!(rt; "bus message frame highest lowest")?;
    let safe = print_bus(rt, 1, &Equation { carrier: can }, &first)?;
    let more = print_bus(rt, 2, &Equation { carrier: fd }, &second)?;
    let legs = first.len() + second.len();
    let never = safe + more;
    println!(rt; "{legs} legs, {never} can never be late")?;
    Ok(())
}

fn main(rt: HostRuntime) -> anyhow::Result<()> {
    run(&rt)
}
