// The legs of one bus that are seen so far, from the highest rank down.
ghost use Rattle.std.specs.Prelude.{◌≤◌};

use bus::leg_set::LegSet;

#[derive(Clone, Copy)]
pub(crate) struct Seen {
    pub(crate) count: u8,
    pub(crate) above: LegSet,
    ghost few: { count ≤ 64 },
}
