//! Bits in words, moved and set in place. Bit `i` is bit `i % 64` of word `i / 64`.

ghost use Rattle.std.specs.Prelude.{◌≡◌, ℕ, ◌+◌, ◌-◌, ◌*◌, ◌/◌, ◌^◌, ◌<◌, ◌≤◌, ◌==◌, ◌&&◌, ◌||◌, ◌++◌, nat_le, length, take, replicate, count_by};
ghost use Rattle.std.specs.List.{range_with_len};
ghost use Rattle.rec_id.specs.Marks.{bit_of};
ghost use Rattle.seen_window.specs.Shifted.{shifted};

use lane_scan::count_bits;

/// Whether bit `i` is set.
#[inline(always)]
pub(crate) fn has_bit(bits: &[u64], i: usize) -> bool
    requires { i < 64 * length bits.now }
    ensures { result ≡ bit_of bits.now i }
{
    (bits[i / 64] >> (i % 64)) % 2 == 1
}

/// Sets bit `i`, if there is one.
pub(crate) fn set_bit(bits: &mut [u64], i: usize)
    ensures { (j : ℕ) → j < 64 * length bits.old → bit_of bits.new j ≡ (j == i || bit_of bits.old j) }
{
    if i / 64 < bits.len() {
        bits[i / 64] |= 1 << (i % 64);
    }
}

/// How many bits are set.
pub(crate) fn count_set(bits: &[u64]) -> u64
    requires { length bits.now < 2 ^ 32 }
    ensures { result ≡ count_by (bit_of bits.now) (range_with_len 0 (64 * length bits.now)) }
{
    count_bits(bits)
}

/// Moves each word `by` places up.
fn move_words(bits: &mut [u64], by: usize)
    requires { by ≤ length bits.old }
    ensures { bits.new ≡ replicate by 0 ++ take (length bits.old - by) bits.old }
{
    bits.rotate_right(by);
    bits[..by].fill(0);
}

/// Moves each bit `by` places up, by less than a word.
fn move_within_words(bits: &mut [u64], by: usize)
    requires { (1 ≤ by) × (by < 64) }
    ensures { bits.new ≡ shifted by 0 bits.old }
{
    let mut carried = 0;
    for word in bits.iter_mut() {
        let next = *word >> (64 - by);
        *word = (*word << by) | carried;
        carried = next;
    }
}

/// Moves each bit `by` places up. What would go past the last word is lost.
pub(crate) fn move_up(bits: &mut [u64], by: usize)
    ensures { (j : ℕ) → j < 64 * length bits.old → bit_of bits.new j ≡ (nat_le by j && bit_of bits.old (j - by)) }
{
    let words = (by / 64).min(bits.len());
    move_words(bits, words);
    if by % 64 > 0 {
        move_within_words(bits, by % 64);
    }
}
