//! A frame: an envelope as bytes. Nothing here knows what the bytes mean.

use plain_lists::Sequence;

/// A list of bytes.
pub type Frame = Sequence<u8>;
