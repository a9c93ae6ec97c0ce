// How far the walk of a board has come, beside its ranked legs.
use crate::rows::Spot;

#[derive(Clone, Copy, PartialEq, Eq, Debug)]
pub(crate) enum Stage {
    // nothing is tested yet
    Start,
    // this leg is tested next
    Testing(Spot),
    // every leg is ranked
    Complete,
    // every ranking was taken back
    Exhausted,
}
