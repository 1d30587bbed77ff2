//! Why bytes are no frame.

ghost use Rattle.std.specs.Prelude.{◌≡◌};
ghost use Rattle.wire_frames.specs.declared.offence.FrameError.TheVariants.{Memory};

use std::alloc::{AllocError, AllocFailed};

/// The first offence of the bytes, from left to right. Offsets count from 0, and a field is meant by
/// its first byte.
#[derive(Clone, Copy, Debug, PartialEq, Eq)]
pub enum FrameError {
    /// A field needs more bytes than are left.
    Short,
    /// The version has no message of this kind.
    Kind(u8),
    /// The field at this offset has a value that isn't allowed.
    Field(usize),
    /// A count or a length is over this limit.
    Over(u32),
    /// The message ends at this offset, and bytes follow.
    Trailing(usize),
    Memory,
}

impl From<AllocError> for FrameError {
    ghost from_gives = { λ _ e. e ≡ Memory };

    fn from(_error: AllocError) -> FrameError {
        FrameError::Memory
    }
}

impl<T: Drop> From<AllocFailed<T>> for FrameError {
    ghost from_gives = { λ _ e. e ≡ Memory };

    fn from(_error: AllocFailed<T>) -> FrameError {
        FrameError::Memory
    }
}
