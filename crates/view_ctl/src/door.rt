//! The door: what isn't in its form meets no rule, whatever the controller is at.

ghost use Rattle.std.specs.Prelude.{◌≡◌, ◌<◌, ◌≤◌, ◌*◌, ◌/◌, ◌^◌, length, nat_lt, true};
ghost use Rattle.std.specs.List.{list_all};
ghost use Rattle.rec_id.specs.Marks.{bit_of};
ghost use Rattle.lazy_rules.specs.Door.{has_client, has_none_below_one, is_marks, is_window};

use rec_id::{ItemList, Marks, WindowList};
use view_config::Shape;

/// The items are of clients that the shape has.
pub(crate) fn are_of_clients(shape: &Shape, items: &ItemList) -> bool
    ensures { result ≡ list_all (λ item. has_client shape.now item.id) items.now }
{
    items
        .as_slice()
        .iter()
        .all(|item| item.id.client() < shape.clients)
}

/// Bit `i` of the words is set.
fn has_bit(words: &[u64], i: usize) -> bool
    requires { i / 64 < length words.now }
    ensures { result ≡ bit_of words.now i }
{
    (words[i / 64] >> (i % 64)) % 2 == 1
}

/// Each word has 64 bits at most, which contracts know of those that are read.
fn within_words(words: &[u64])
    ensures { list_all (λ word. nat_lt word (2 ^ 64)) words.now ≡ true }
{
    for word in words {
        let _value = *word;
    }
}

/// None of the first `count` bits stands for a number below 1.
#[tactic(auto, using(crate::proofs::Doors::none_below_step))]
fn has_none_below_one(marks: &Marks, count: usize) -> bool
    requires { count ≤ 64 * length marks.now.bits }
    ensures { result ≡ has_none_below_one marks.now 0 count }
{
    for i in 0..count {
        if i >= marks.top as usize && has_bit(marks.bits.as_slice(), i) {
            return false;
        }
    }
    true
}

/// The marks of one client are in their form.
#[tactic(auto, using(crate::proofs::Doors::whole_words))]
fn is_marks(shape: &Shape, marks: &Marks) -> bool
    ensures { result ≡ is_marks shape.now marks.now }
{
    let top = marks.top;
    let window = shape.edition.window() as usize;
    let words = marks.bits.as_slice();
    within_words(words);
    if words.len() != window / 64 {
        return false;
    }
    if !has_none_below_one(marks, window) {
        return false;
    }
    top == 0 || has_bit(words, 0)
}

/// All these marks are in their form.
fn are_marks(shape: &Shape, list: &[Marks]) -> bool
    ensures { result ≡ list_all (is_marks shape.now) list.now }
{
    list.iter().all(|marks| is_marks(shape, marks))
}

/// The window has the marks of each client, all in their form.
pub(crate) fn is_window(shape: &Shape, window: &WindowList) -> bool
    ensures { result ≡ is_window shape.now window.now }
{
    if window.len() != shape.clients as usize {
        return false;
    }
    are_marks(shape, window.as_slice())
}
