// The two plans that a verification's points are tried under. They differ in type, so what runs on one of them names both.
// The kind of control comes from orders and what is carried from the points before, so the two are no struct.
use method::Plan;

#[derive(Clone, Copy)]
pub struct Plans<M: Plan, S: Plan> {
    pub main: M,
    pub short: S,
}
