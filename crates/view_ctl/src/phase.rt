//! What the controller is at, in one word.

/// What the controller is at.
#[derive(Clone, Copy, Debug, PartialEq, Eq)]
pub enum CtlPhase {
    /// The newest view has started.
    Running,
    /// A view is being ended, and no state of it is taken yet.
    Sealing,
    /// The taken state is on its way to the shards.
    Flushing,
}
