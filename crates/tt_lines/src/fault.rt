/// Why no line was read.
#[derive(Clone, Copy, Debug, PartialEq, Eq)]
pub enum LineFault {
    /// The source failed.
    Failed,
    /// Memory was refused.
    NoMemory,
}
