//! Which pair of places of two lists of numbers is the first to break a bound.

ghost use Rattle.std.specs.Prelude.{◌≡◌, ◌^◌, ◌<◌, ◌≤◌, ℕ, length, slice_index};
ghost use Rattle.log_law.specs.Pairs.{IsFound, IsAbove, IsFirstRow, IsFirstBelow};

/// The first place whose bound is more than the least number at the later places, and the length
/// of the lists where there is none.
pub fn first_row(bounds: &[u64], lows: &[u64]) -> usize
    requires { length bounds.now ≡ length lows.now }
    ensures row { IsFirstRow bounds.now lows.now 0 result }
    ensures fits { (i : ℕ) → slice_index bounds.now i < 2 ^ 64 }
{
    let mut row = lows.len();
    let mut least = u64::MAX;
    let mut i = lows.len();
    while i > 0 {
        i -= 1;
        if least < bounds[i] {
            row = i;
        }
        if lows[i] < least {
            least = lows[i];
        }
    }
    row
}

/// The first place from `from` on whose number is less than `bound`, and the length of the list
/// where there is none.
pub fn first_below(bound: u64, lows: &[u64], from: usize) -> usize
    requires { from ≤ length lows.now }
    ensures { IsFirstBelow bound lows.now from result }
{
    let mut j = from;
    while j < lows.len() {
        if lows[j] < bound {
            return j;
        }
        j += 1;
    }
    j
}

/// The first pair of a place and a later one of which the number at the later is less than the
/// bound at the first.
pub fn first_pair(bounds: &[u64], lows: &[u64]) -> Option<(usize, usize)>
    requires { length bounds.now ≡ length lows.now }
    ensures found { IsFound (IsAbove bounds.now lows.now) result }
    ensures fits { (i : ℕ) → slice_index bounds.now i < 2 ^ 64 }
{
    let row = first_row(bounds, lows);
    if row == lows.len() {
        return None;
    }
    Some((row, first_below(bounds[row], lows, row + 1)))
}
