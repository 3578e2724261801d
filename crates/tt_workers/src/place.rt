use crate::boxed_interp::BoxedInterp;

/// Where a thread is.
#[derive(Debug, Drop)]
pub enum Place {
    /// It was made, and has not begun.
    Fresh(BoxedInterp),
    /// It waits for the reply to what it asks.
    Parked(BoxedInterp),
    /// It is out at the pass of this number.
    Out(u32),
    /// It has ended.
    Gone,
}
