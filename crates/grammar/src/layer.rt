// Who raises a fault of a sheet.
#[derive(Clone, Copy, PartialEq, Eq, Debug)]
pub enum Layer {
    // the form of the text, and its counts
    Word,
    // the bit times and the bridge time of a bus
    Rule,
    // the gateway time, and the values of a message
    Board,
}
