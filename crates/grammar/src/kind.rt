// The kinds of buses that a sheet names.
#[derive(Clone, Copy, PartialEq, Eq, Debug)]
pub enum Kind {
    Can11,
    Can29,
    Fd11,
}
