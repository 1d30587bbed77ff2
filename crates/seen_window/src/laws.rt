//! What windows tell, whatever was marked in them and in whatever order. No function here does
//! anything but `read_back`.

ghost use Rattle.std.specs.Prelude.{◌≡◌, ℕ, ◌+◌, ◌<◌, ◌≤◌, ◌==◌, ◌&&◌, ◌||◌, nat_le, List, [], ◌∷◌, All, length, IfOk, IsTrue};
ghost use Rattle.rec_id.specs.Identity.{Identity};
ghost use Rattle.rec_id.specs.declared.marks.Marks.{Marks};
ghost use Rattle.seen_window.specs.Image.{no_image, is_image, words_of, top_in, seen_in, mark_in, widened_image};
ghost use Rattle.seen_window.specs.Seen.{width_of, StandsFor};

use crate::SeenWindow;
use std::alloc::{AllocError, Global};

/// A new window stands for no marks, and a mark adds one to those that a window stands for. After
/// it an identity is seen exactly where it is the marked one, was seen before, or is now a whole
/// window below the greatest marked number of its client.
pub fn marks_add_up()
    ensures none { (clients words : ℕ) → StandsFor (no_image clients words) [] }
    ensures more { (image : List Marks) (ids : List Identity) (id : Identity) → IsTrue (is_image image) → id.client < length image
        → StandsFor image ids → StandsFor (mark_in image id) (id ∷ ids) }
    ensures seen { (image : List Marks) (id other : Identity) → IsTrue (is_image image) → id.client < length image
        → other.client < length image → 1 ≤ other.number
        → seen_in (mark_in image id) other
        ≡ (((id.client == other.client && id.number == other.number) || seen_in image other)
        || nat_le (other.number + width_of image) (top_in (mark_in image id) other.client)) }
{}

/// The wider image of a window is an image with 64 words a client, by which the same identities
/// are seen and the greatest marked numbers are the same.
pub fn widening_keeps_seen()
    ensures seen { (image : List Marks) (id : Identity) → All (λ marks. length marks.bits ≡ 4) image → id.client < length image
        → 1 ≤ id.number → seen_in (widened_image image) id ≡ seen_in image id }
    ensures top { (image : List Marks) (client : ℕ) → client < length image → top_in (widened_image image) client ≡ top_in image client }
    ensures image { (image : List Marks) → IsTrue (is_image image) → IsTrue (is_image (widened_image image)) }
    ensures words { (image : List Marks) → IsTrue (is_image image) → words_of (widened_image image) ≡ 64 }
{}

/// The window that is read back from an image is the window of which it is the image.
pub fn read_back(alloc: Global, window: &SeenWindow) -> Result<SeenWindow, AllocError>
    ensures { IfOk result (λ made. made ≡ window.now) }
{
    SeenWindow::from_image(alloc, &window.image()?)
}
