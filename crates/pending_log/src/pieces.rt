//! A search in words that lie in two pieces.

ghost use Rattle.std.specs.Prelude.{◌≡◌, ◌+◌, ◌^◌, ◌<◌, ◌==◌, ◌++◌, length, position};

use lane_scan::find_word;

/// The first index of `word` in the words of `front` and then `back`.
pub(crate) fn find_in_pieces(front: &[u64], back: &[u64], word: u64) -> Option<usize>
    requires { length front.now + length back.now < 2 ^ 64 }
    ensures { result ≡ position (λ other. other == word) (front.now ++ back.now) }
{
    if let Some(i) = find_word(front, word) {
        return Some(i);
    }
    // No `map`: its closure wouldn't know that the sum fits.
    match find_word(back, word) {
        Some(i) => Some(front.len() + i),
        None => None,
    }
}
