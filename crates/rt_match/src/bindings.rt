//! To what bricks are bound.

use rt_words::List;

/// To what a brick is bound.
#[derive(Clone, Copy)]
pub enum Bound {
    /// To itself: an own brick, or an ENT one.
    Own,
    /// To an ENT brick: the number of its module, from 1, and its number there, from 0.
    Brick(u16, u16),
    /// To what the supervisor supplies by this number.
    Supplied(u8),
}

/// To what the bricks of a system are bound: one list for each module, with one binding for each brick, in their order.
#[derive(Drop)]
pub struct Bindings {
    pub of: List<List<Bound>>,
}
