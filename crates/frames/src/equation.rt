// The equation rule: delays by the queuing equation, over any carrier.
#[derive(Clone, Copy, PartialEq, Eq, Debug, Drop)]
pub struct Equation<C> {
    pub carrier: C,
}
