//! Which of a client's latest numbers are known, as bits.

ghost use Rattle.std.specs.Prelude.{◌≡◌, IfOk};

use crate::Words;
use std::alloc::AllocError;

/// The marks of one client: the greatest marked number, 0 where there is none, and a bit for each
/// of the numbers up to it. Bit `i` of word `w`, bit 0 being the least significant, stands for the
/// number `top - (64 * w + i)`. `specs/Marks.antt` says what is marked and seen by them.
#[derive(Drop)]
pub struct Marks {
    pub top: u32,
    pub bits: Words,
}

impl Clone for Marks {
    ghost is_clone = { λ a b. b ≡ a };

    fn clone(&self) -> Result<Self, AllocError> {
        Ok(Marks {
            top: self.top,
            bits: self.bits.copy()?,
        })
    }
}

impl Marks {
    /// Equal marks.
    pub fn copy(&self) -> Result<Marks, AllocError>
        ensures { IfOk result (λ made. made ≡ self.now) }
    {
        self.clone()
    }
}
