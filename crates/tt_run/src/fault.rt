/// Why a step was not taken, or not whole.
#[derive(Clone, Copy, Debug, PartialEq, Eq)]
pub enum StepFault {
    /// The thread doesn't live, its request is not enabled, or the run is over.
    NotEnabled,
    /// The source failed.
    ReadFault,
    /// A sink failed.
    WriteFault,
    /// Memory was refused.
    NoMemory,
}

/// Memory for a system was refused; the devices as they were given.
#[derive(Debug, Drop)]
pub struct NewFault<S, K, E> {
    /// The source.
    pub input: S,
    /// Standard output.
    pub output: K,
    /// Standard error.
    pub errors: E,
}
