//! What follows from the law for every history and line.

ghost use Rattle.std.specs.Prelude.{◌≡◌, ◌+◌, ◌-◌, ◌↔◌, ℕ, List, Option, Some, IsSome, length, min, slice_get};
ghost use Rattle.law_cases.specs.Precedes.{KeepsPrecedence, KeepsReach};
ghost use Rattle.law_cases.specs.Told.{IsAnswered, IsTailAnswered, StandsOnce};
ghost use Rattle.rec_id.specs.Identity.{Identity};
ghost use Rattle.rec_id.specs.Lawful.{Lawful, Unique, Ordered, BehindRead};
ghost use Rattle.rec_id.specs.declared.entry.Entry.{Entry};
ghost use Rattle.rec_id.specs.declared.entry.Entry.TheVariants.{Gone};
ghost use Rattle.rec_id.specs.declared.event.Event.{Event};
ghost use Rattle.rec_id.specs.declared.event.Event.TheVariants.{Acked};
ghost use Rattle.rec_id.specs.declared.limits.TheConstants.{READ_LIMIT};

/// What was acknowledged stands at one place of the line, and at no other.
pub fn acknowledged_appends_stand_once()
    ensures { (H : List Event) (L : List Entry) → Lawful H L → (i : ℕ) (id : Identity) → slice_get H i ≡ Some (Acked id) → StandsOnce L id }
{}

/// Clauses (d) and (h) in the words of precedence: where one event stands in the history with
/// another behind it, and where one identity stands in the line with another behind it.
pub fn order_is_precedence()
    ensures appends { (history : List Event) (line : List Entry) → Unique line → (Ordered history line ↔ KeepsPrecedence history line) }
    ensures reads { (history : List Event) (line : List Entry) → (BehindRead history line ↔ KeepsReach history line) }
{}

/// Two answers tell the same of a place, trimmed meanwhile or not.
pub fn answers_agree()
    ensures { (H : List Event) (L : List Entry) → Lawful H L → (p : ℕ) (one other : Entry) → IsAnswered H p one → IsAnswered H p other → one ≡ other }
{}

/// No answer tells that an entry is gone.
pub fn no_answer_has_a_gone_entry()
    ensures { (history : List Event) (line : List Entry) → Lawful history line → (place : ℕ) (id : Identity) → ¬ IsAnswered history place (Gone id) }
{}

/// A read of the tail is answered by force, also where it has all that it may have: the entries of
/// `READ_LIMIT` places from its start on, or those up to its tail.
pub fn tail_reads_are_forced()
    ensures forced { (H : List Event) (L : List Entry) → Lawful H L → (s f : ℕ) (es : List Entry) (t : Option ℕ) → IsTailAnswered H s f es t → IsSome t }
    ensures from { (H : List Event) (L : List Entry) → Lawful H L → (s f t : ℕ) (es : List Entry) → IsTailAnswered H s f es (Some t) → s ≡ f }
    ensures count { (H : List Event) (L : List Entry) → Lawful H L → (s f t : ℕ) (es : List Entry) → IsTailAnswered H s f es (Some t) → length es ≡ min (s + READ_LIMIT) t - s }
{}
