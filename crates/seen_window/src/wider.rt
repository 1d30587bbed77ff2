//! The image of a wider window.

ghost use Rattle.std.specs.Prelude.{◌≡◌, ℕ, ◌+◌, ◌*◌, ◌<◌, [], ◌∷◌, nat_lt, All, length, IfOk, IsTrue};
ghost use Rattle.rec_id.specs.Marks.{bit_of, is_seen, stands_marked};
ghost use Rattle.seen_window.specs.Image.{is_image, widened, widened_image};

use plain_lists::Sequence;
use rec_id::{Marks, WindowList};
use std::alloc::{AllocError, Global};

const NARROW: usize = 4;

const WIDE: usize = 64;

/// The word whose bits are those that stand for a number from 1 on, where it is word `i`.
fn ones_below(top: usize, i: usize) -> u64
    requires { i < WIDE }
    ensures { (k : ℕ) → k < 64 → bit_of (result ∷ []) k ≡ nat_lt (64 * i + k) top }
{
    let from = 64 * i;
    if top <= from {
        0
    } else if top - from >= 64 {
        u64::MAX
    } else {
        (1 << (top - from)) - 1
    }
}

/// Word `i` of the wider marks: the marks themselves, and then ones, as far as there are numbers.
fn widened_word(marks: &Marks, i: usize) -> u64
    requires narrow { length marks.now.bits ≡ NARROW }
    requires within { i < WIDE }
    ensures { (k : ℕ) → k < 64 → bit_of (result ∷ []) k ≡ stands_marked marks.now.top (is_seen marks.now) (64 * i + k) }
{
    let numbered = ones_below(marks.top as usize, i);
    if i < NARROW {
        *marks.bits.at(i) & numbered
    } else {
        numbered
    }
}

fn widen_marks(alloc: Global, marks: &Marks) -> Result<Marks, AllocError>
    requires { length marks.now.bits ≡ NARROW }
    ensures { IfOk result (λ made. made ≡ widened marks.now) }
{
    let mut bits = Vec::with_capacity(alloc, WIDE)?;
    for i in 0..WIDE {
        bits.push(widened_word(marks, i))?;
    }
    Ok(Marks {
        top: marks.top,
        bits: Sequence::from_vec(bits),
    })
}

/// The image, with 4,096 bits a client, by which the same identities are seen as by `list`, which
/// has 256 bits a client.
pub fn widen(alloc: Global, list: &WindowList) -> Result<WindowList, AllocError>
    requires { All (λ marks. length marks.bits ≡ NARROW) list.now }
    ensures made { IfOk result (λ made. made ≡ widened_image list.now) }
    ensures image { IsTrue (is_image list.now) → IfOk result (λ made. IsTrue (is_image made)) }
{
    let mut made = Vec::with_capacity(alloc, list.len())?;
    for marks in list.as_slice() {
        made.push(widen_marks(alloc, marks)?)?;
    }
    Ok(Sequence::from_vec(made))
}

#[cfg(test)]
mod tests {
    use super::*;
    use std::test::Fail;

    #[test]
    fn keeps_the_oldest(rt: HostRuntime) -> Result<(), Fail> {
        let bits = Vec::from_slice(rt.alloc(), &[1, 0, 0, 0])?;
        let mut list = WindowList::new(rt.alloc());
        list.push(Marks {
            top: 300,
            bits: Sequence::from_vec(bits),
        })?;
        let wide = widen(rt.alloc(), &list)?;
        assert_eq!(rt; wide.len(), 1);
        let marks = wide.at(0);
        assert_eq!(rt; marks.top, 300);
        assert_eq!(rt; marks.bits.len(), 64);
        assert_eq!(rt; *marks.bits.at(0), 1);
        assert_eq!(rt; *marks.bits.at(4), (1 << 44) - 1);
        Ok(())
    }
}
