//! A read that waits.

/// Read `read` of client `client`, which may be answered once all positions below `target` are
/// bound.
#[derive(Clone, Copy, Debug, PartialEq, Eq)]
pub struct Probe {
    pub client: u32,
    pub read: u32,
    pub target: u32,
}
