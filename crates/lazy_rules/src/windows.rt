//! What windows mean: the law that ties the bits of a window to the identities that were marked.

ghost use Rattle.std.specs.Prelude.{◌≡◌, ◌<◌, ◌≤◌, ℕ, List, slice_get, Some};
ghost use Rattle.rec_id.specs.Identity.{Identity};
ghost use Rattle.rec_id.specs.declared.marks.Marks.{Marks};
ghost use Rattle.view_config.specs.Shape.{Dimensions};
ghost use Rattle.lazy_rules.specs.SeqState.{empty_window};
ghost use Rattle.lazy_rules.specs.Windows.{has_seen, is_known_among, is_seen_with, marked_all, marked_in};

/// A law, and no code. After any marks in an empty window an identity is seen exactly where it was
/// marked, or is a whole window below the greatest mark of its client. And in any window that has
/// marks of a client, one more mark of that client adds exactly this identity and what is a whole
/// window below the greatest mark then.
pub fn seen_after_marks()
    ensures all { (d : Dimensions) (ids : List Identity) (id : Identity) → id.client < d.clients → 1 ≤ id.number → has_seen (marked_all (empty_window d) ids) id ≡ is_known_among d.edition ids id }
    ensures one { (w : List Marks) (id x : Identity) (m : Marks) → slice_get w id.client ≡ Some m → 1 ≤ x.number → has_seen (marked_in w id) x ≡ is_seen_with w m id x }
{}
