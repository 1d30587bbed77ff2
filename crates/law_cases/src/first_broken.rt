//! What is told of histories and lines that the law forbids: the first broken clause, and the first pair
//! that breaks it.

ghost use Rattle.std.specs.Prelude.{[], ◌∷◌, Some, None};
ghost use Rattle.law_cases.specs.Names.{a, b, c, x, y};
ghost use Rattle.rec_id.specs.Verdict.{IsFirstBroken, unique, invoked, finished, ordered, slices, covered, tails_never_fall, behind_read, trims};
ghost use Rattle.rec_id.specs.declared.entry.Entry.TheVariants.{Kept, Noop, Gone};
ghost use Rattle.rec_id.specs.declared.event.Ask.TheVariants.{Range, Tail};
ghost use Rattle.rec_id.specs.declared.event.Event.TheVariants.{Invoke, Acked, Rejected, Begin, Answer, Seen, TrimAsk, TrimDone, Trimmed};

/// Of each clause, the pair that is told where it is the first that is broken.
pub fn a_broken_clause_is_told_with_its_first_pair()
    ensures unique { IsFirstBroken (Invoke a x ∷ Invoke b y ∷ []) (Kept b y ∷ Kept a x ∷ Kept a x ∷ Kept b y ∷ []) unique 0 3 }
    ensures invoked { IsFirstBroken (Invoke a x ∷ []) (Kept a x ∷ Kept b y ∷ Noop c ∷ []) invoked 1 0 }
    ensures finished { IsFirstBroken (Invoke a x ∷ Invoke b y ∷ Invoke a x ∷ Invoke b y ∷ []) [] finished 2 0 }
    ensures finished_twice { IsFirstBroken (Invoke a x ∷ Acked a ∷ Acked a ∷ []) (Kept a x ∷ []) finished 2 0 }
    ensures ordered { IsFirstBroken (Invoke a x ∷ Acked a ∷ Invoke c x ∷ Invoke b y ∷ []) (Kept b y ∷ Kept a x ∷ Kept c x ∷ []) ordered 1 3 }
    ensures slices { IsFirstBroken (Begin 0 1 (Range 0 0) ∷ Answer 0 1 0 [] None ∷ Answer 0 1 0 [] None ∷ Answer 0 1 0 [] None ∷ []) [] slices 2 0 }
    ensures covered { IsFirstBroken (Invoke a x ∷ Acked a ∷ Begin 1 1 (Tail 0) ∷ Answer 1 1 0 (Kept a x ∷ []) (Some 1) ∷ Begin 1 2 (Tail 0) ∷ Answer 1 2 0 [] (Some 0) ∷ []) (Kept a x ∷ []) covered 1 4 }
    ensures tails_never_fall { IsFirstBroken (Invoke a x ∷ Seen 0 1 [] ∷ Seen 0 0 (a ∷ []) ∷ Begin 1 1 (Tail 0) ∷ Answer 1 1 0 [] (Some 0) ∷ []) (Kept a x ∷ []) tails_never_fall 2 4 }
    ensures behind_read { IsFirstBroken (Seen 0 0 [] ∷ Seen 0 0 (b ∷ []) ∷ Invoke a x ∷ Invoke b y ∷ []) (Kept b y ∷ Kept a x ∷ []) behind_read 1 3 }
    ensures trims { IsFirstBroken (TrimAsk 0 1 1 ∷ TrimDone 0 1 1 ∷ TrimDone 0 1 1 ∷ TrimDone 0 1 1 ∷ []) [] trims 2 0 }
{}

/// An append that ends before it begins is told as such.
pub fn an_append_is_invoked_before_it_is_finished()
    ensures acknowledged { IsFirstBroken (Acked a ∷ Invoke a x ∷ []) (Kept a x ∷ []) finished 0 0 }
    ensures rejected { IsFirstBroken (Rejected a 0 ∷ Invoke a x ∷ []) (Noop a ∷ []) finished 0 0 }
{}

/// An acknowledged append is missing in the empty line.
pub fn an_append_stands_once_it_is_acknowledged()
    ensures { IsFirstBroken (Invoke a x ∷ Acked a ∷ []) [] finished 1 0 }
{}

/// A trimmed entry needs the trim.
pub fn an_entry_is_gone_where_a_trim_was_asked_for()
    ensures { IsFirstBroken (Invoke a x ∷ []) (Gone a ∷ []) invoked 0 0 }
{}

/// A trimmed read needs a trim before it.
pub fn a_read_is_trimmed_after_a_trim_was_asked_for()
    ensures { IsFirstBroken (Invoke a x ∷ Begin 0 1 (Range 0 1) ∷ Trimmed 0 1 1 ∷ []) (Kept a x ∷ []) trims 2 0 }
{}
