// One line of the report.
use std::fmt;

// A delay in nanoseconds, or over.
#[derive(Clone, Copy)]
pub(crate) struct Delay(pub(crate) Option<u64>);

#[derive(Clone, Copy)]
pub(crate) struct Row {
    pub(crate) number: u8,
    // the time of the frames
    pub(crate) frame: u64,
    // the delay with nothing above the leg
    pub(crate) highest: Delay,
    // the delay with every other leg of the bus above it
    pub(crate) lowest: Delay,
}

impl fmt::Display for Delay {
    fn fmt<W: fmt::Write>(&self, f: &mut fmt::Formatter<W>) -> fmt::Result {
        match self.0 {
            Some(delay) => write!(f, "{delay}"),
            None => f.write_str("over"),
        }
    }
}

impl fmt::Display for Row {
    fn fmt<W: fmt::Write>(&self, f: &mut fmt::Formatter<W>) -> fmt::Result {
        let Row {
            number,
            frame,
            highest,
            lowest,
        } = self;
        write!(f, "{number} {frame} {highest} {lowest}")
    }
}
