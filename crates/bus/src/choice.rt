// One of two rules of unlike make. A choice may hold choices and bridges, in a pile of any depth.
#[derive(Clone, PartialEq, Eq, Debug, Drop)]
pub enum Choice<P, Q> {
    First(P),
    Second(Q),
}
