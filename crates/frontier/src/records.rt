//! Points of a curve, and states of a stage.

// A point of a curve: a power and a delay.
#[derive(Clone, Copy, Drop)]
pub struct Point<V> {
    pub power: u32,
    pub delay: V,
}

// A state of a stage: the last space, the used width, the power and the delay of a partial allocation, with the width of its last wire
// and the place of the state that it extends.
// Kept as a place and no reference: all stages stand in one table that is lent and is written on while it is read.
#[derive(Clone, Copy, Drop)]
pub struct State<V> {
    pub last: u8,
    pub used: u32,
    pub power: u32,
    pub delay: V,
    pub width: u8,
    pub from: usize,
}
