// The bridge rule: a fixed time more on every delay of the rule inside.
ghost use Rattle.std.specs.Prelude.{ℕ};
ghost use Rattle.bus.specs.Range.{In, bridge_times};

// No Clone: no derive makes one for a struct with a type parameter and a ghost field, and nothing here clones a rule.
#[derive(PartialEq, Eq, Debug, Drop)]
pub struct Bridge<R> {
    pub inner: R,
    pub extra: u64,
    ghost range: { In bridge_times extra },
}
