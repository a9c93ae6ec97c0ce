// A bus as a sheet describes it.
use crate::kind::Kind;

#[derive(Clone, Copy)]
pub struct BusLine {
    pub kind: Kind,
    // the nominal bit time
    pub bit: u64,
    // the bit time of the data phase; 0 on classic CAN. A number and no Option, since a line says its numbers by place, whatever the kind
    pub fast: u64,
    // the time that the bridge adds
    pub bridge: u64,
}
