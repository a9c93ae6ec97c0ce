// Why a call is refused. Where several reasons apply, a call gives the one with the smallest number.
ghost use Rattle.std.specs.Prelude.{◌≡◌, Some};
ghost use Rattle.bus.specs.Refusals.{number_of, said};

use std::error::Error;
use std::fmt;

#[derive(Clone, Copy, PartialEq, Eq, Debug)]
pub enum Refusal {
    // a line of a sheet breaks the form
    Form = 1,
    // a count of buses, messages, lines or bytes is out of range
    Count = 2,
    // a number is out of range
    Range = 3,
    // a bus from 1 to 8 is not on the board
    NoBus = 4,
    // the source is one of the destinations
    SourceIsDestination = 5,
    // the number to enter is taken
    Taken = 6,
    // there is no such message, or it has no leg on that bus
    NoLeg = 7,
    // the board has no messages
    NoMessages = 8,
    // the walk has not ended with found
    NotFound = 9,
    // fewer rows than needed, or too small a buffer
    FewRows = 10,
    // the rows to check do not name every leg exactly once, by bus
    WrongRows = 11,
}

impl Refusal {
    // The number that the rules give it. By name and not by From, since a call that asks for the number says so.
    pub fn number(self) -> u8
        ensures { result ≡ number_of self }
    {
        self as u8
    }
}

impl fmt::Display for Refusal {
    ghost output = { λ r. Some (said r) };

    fn fmt<W: fmt::Write>(&self, f: &mut fmt::Formatter<W>) -> fmt::Result {
        f.write_str(match self {
            Refusal::Form => "a line of the sheet breaks the form",
            Refusal::Count => "a count is out of range",
            Refusal::Range => "a number is out of range",
            Refusal::NoBus => "a bus is not on the board",
            Refusal::SourceIsDestination => "the source is one of the destinations",
            Refusal::Taken => "the number is taken",
            Refusal::NoLeg => "there is no such leg",
            Refusal::NoMessages => "the board has no messages",
            Refusal::NotFound => "the walk has found no orders",
            Refusal::FewRows => "there are too few rows, or the buffer is too small",
            Refusal::WrongRows => "the rows do not name every leg exactly once, by bus",
        })
    }
}

impl Error for Refusal {}
