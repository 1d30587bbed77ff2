//! Histories and lines that one clause forbids, and the others allow.

ghost use Rattle.std.specs.Prelude.{[], ◌∷◌, Some, None};
ghost use Rattle.law_cases.specs.Names.{a, b, c, x, y};
ghost use Rattle.law_cases.specs.BrokenBy.{BrokenBy};
ghost use Rattle.rec_id.specs.Verdict.{unique, invoked, finished, ordered, slices, covered, tails_never_fall, behind_read, trims};
ghost use Rattle.rec_id.specs.declared.entry.Entry.TheVariants.{Kept, Noop, Gone};
ghost use Rattle.rec_id.specs.declared.event.Ask.TheVariants.{Range, Tail};
ghost use Rattle.rec_id.specs.declared.event.Event.TheVariants.{Invoke, Acked, Rejected, Begin, Answer, Seen, TrimAsk, TrimDone, Trimmed};

/// No record stands twice in the line.
pub fn no_record_stands_twice()
    ensures kept_twice { BrokenBy unique (Invoke a x ∷ []) (Kept a x ∷ Kept a x ∷ []) }
    ensures kept_and_rejected { BrokenBy unique (Invoke a x ∷ []) (Kept a x ∷ Noop a ∷ []) }
    ensures gone_and_kept { BrokenBy unique (Invoke a x ∷ TrimAsk 0 1 1 ∷ []) (Gone a ∷ Kept a x ∷ []) }
    ensures with_another_between { BrokenBy unique (Invoke a x ∷ Invoke b y ∷ []) (Kept a x ∷ Kept b y ∷ Kept a x ∷ []) }
{}

/// Nothing stands in the line that was not invoked, and nothing is gone that was not asked to go.
pub fn nothing_stands_that_was_not_invoked()
    ensures kept { BrokenBy invoked [] (Kept a x ∷ []) }
    ensures with_other_bytes { BrokenBy invoked (Invoke a x ∷ []) (Kept a y ∷ []) }
    ensures with_bytes_of_another { BrokenBy invoked (Invoke a x ∷ Invoke b y ∷ []) (Kept a y ∷ []) }
    ensures rejected { BrokenBy invoked [] (Noop a ∷ []) }
    ensures gone { BrokenBy invoked (TrimAsk 0 1 1 ∷ []) (Gone a ∷ []) }
    ensures gone_unasked { BrokenBy invoked (Invoke a x ∷ []) (Gone a ∷ []) }
    ensures gone_at_the_floor { BrokenBy invoked (Invoke a x ∷ Invoke b y ∷ TrimAsk 0 1 1 ∷ []) (Kept a x ∷ Gone b ∷ []) }
{}

/// The line has what was acknowledged and rejected, and each append begins and ends once.
pub fn the_line_keeps_what_appends_were_told()
    ensures invoked_twice { BrokenBy finished (Invoke a x ∷ Invoke a x ∷ []) [] }
    ensures invoked_again_with_other_bytes { BrokenBy finished (Invoke a x ∷ Invoke b y ∷ Invoke a y ∷ []) [] }
    ensures acknowledged_and_lost { BrokenBy finished (Invoke a x ∷ Acked a ∷ []) [] }
    ensures acknowledged_and_rejected { BrokenBy finished (Invoke a x ∷ Acked a ∷ []) (Noop a ∷ []) }
    ensures acknowledged_for_another { BrokenBy finished (Invoke a x ∷ Invoke b y ∷ Acked a ∷ []) (Kept b y ∷ []) }
    ensures acknowledged_twice { BrokenBy finished (Invoke a x ∷ Acked a ∷ Acked a ∷ []) (Kept a x ∷ []) }
    ensures rejected_and_kept { BrokenBy finished (Invoke a x ∷ Rejected a 0 ∷ []) (Kept a x ∷ []) }
    ensures rejected_elsewhere { BrokenBy finished (Invoke a x ∷ Invoke b y ∷ Rejected a 1 ∷ []) (Noop a ∷ Noop b ∷ []) }
    ensures rejected_and_lost { BrokenBy finished (Invoke a x ∷ Rejected a 0 ∷ []) [] }
    ensures rejected_twice { BrokenBy finished (Invoke a x ∷ Rejected a 0 ∷ Rejected a 0 ∷ []) (Noop a ∷ []) }
    ensures never_invoked { BrokenBy finished (Acked a ∷ []) [] }
{}

/// A record that was invoked after another had finished stands behind it.
pub fn what_was_finished_stands_in_front()
    ensures acknowledged_first { BrokenBy ordered (Invoke a x ∷ Acked a ∷ Invoke b y ∷ []) (Kept b y ∷ Kept a x ∷ []) }
    ensures rejected_first { BrokenBy ordered (Invoke a x ∷ Rejected a 1 ∷ Invoke b y ∷ []) (Kept b y ∷ Noop a ∷ []) }
    ensures then_rejected { BrokenBy ordered (Invoke a x ∷ Acked a ∷ Invoke b y ∷ []) (Noop b ∷ Kept a x ∷ []) }
    ensures by_one_client { BrokenBy ordered (Invoke a x ∷ Acked a ∷ Invoke c y ∷ []) (Kept c y ∷ Kept a x ∷ []) }
    ensures with_another_between { BrokenBy ordered (Invoke a x ∷ Acked a ∷ Invoke c x ∷ Invoke b y ∷ []) (Kept b y ∷ Kept a x ∷ Kept c x ∷ []) }
{}

/// An answer is a slice of the line, the one that its read asked for.
pub fn a_read_is_answered_by_what_it_asked_for()
    ensures never_begun { BrokenBy slices (Answer 0 1 0 [] None ∷ []) [] }
    ensures begun_by_another_client { BrokenBy slices (Begin 1 1 (Range 0 0) ∷ Answer 0 1 0 [] None ∷ []) [] }
    ensures begun_by_another_number { BrokenBy slices (Begin 0 2 (Range 0 0) ∷ Answer 0 1 0 [] None ∷ []) [] }
    ensures begun_later { BrokenBy slices (Answer 0 1 0 [] None ∷ Begin 0 1 (Range 0 0) ∷ []) [] }
    ensures begun_twice { BrokenBy slices (Begin 0 1 (Range 0 0) ∷ Begin 0 1 (Range 0 0) ∷ Answer 0 1 0 [] None ∷ []) [] }
    ensures begun_twice_for_different_places { BrokenBy slices (Begin 0 1 (Range 1 2) ∷ Begin 0 1 (Range 0 0) ∷ Answer 0 1 0 [] None ∷ []) [] }
    ensures answered_twice { BrokenBy slices (Begin 0 1 (Range 0 0) ∷ Answer 0 1 0 [] None ∷ Answer 0 1 0 [] None ∷ []) [] }
    ensures answered_after_trimmed { BrokenBy slices (Invoke a x ∷ TrimAsk 1 1 1 ∷ Begin 0 1 (Range 0 1) ∷ Trimmed 0 1 1 ∷ Answer 0 1 0 (Kept a x ∷ []) None ∷ []) (Kept a x ∷ []) }
    ensures from_another_place { BrokenBy slices (Begin 0 1 (Range 0 1) ∷ Answer 0 1 1 [] None ∷ []) [] }
    ensures a_tail_that_is_not_forced { BrokenBy slices (Begin 0 1 (Tail 0) ∷ Answer 0 1 0 [] None ∷ []) [] }
    ensures forced_and_too_short { BrokenBy slices (Invoke a x ∷ Begin 0 1 (Tail 0) ∷ Answer 0 1 0 [] (Some 1) ∷ []) (Kept a x ∷ []) }
    ensures forced_and_too_long { BrokenBy slices (Invoke a x ∷ Invoke b y ∷ Begin 0 1 (Range 0 1) ∷ Answer 0 1 0 (Kept a x ∷ Kept b y ∷ []) (Some 2) ∷ []) (Kept a x ∷ Kept b y ∷ []) }
    ensures forced_past_its_tail { BrokenBy slices (Invoke a x ∷ Begin 0 1 (Range 0 1) ∷ Answer 0 1 0 (Kept a x ∷ []) (Some 0) ∷ []) (Kept a x ∷ []) }
    ensures a_tail_past_the_end { BrokenBy slices (Begin 0 1 (Tail 5) ∷ Answer 0 1 5 [] (Some 1) ∷ []) [] }
    ensures too_short { BrokenBy slices (Invoke a x ∷ Begin 0 1 (Range 0 1) ∷ Answer 0 1 0 [] None ∷ []) (Kept a x ∷ []) }
    ensures too_long { BrokenBy slices (Invoke a x ∷ Invoke b y ∷ Begin 0 1 (Range 0 1) ∷ Answer 0 1 0 (Kept a x ∷ Kept b y ∷ []) None ∷ []) (Kept a x ∷ Kept b y ∷ []) }
    ensures asked_backward { BrokenBy slices (Begin 0 1 (Range 1 0) ∷ Answer 0 1 1 [] None ∷ []) [] }
{}

/// What is told of a place stands there, its trimmed bytes aside.
pub fn a_read_is_told_what_stands()
    ensures another_record { BrokenBy slices (Invoke a x ∷ Invoke b y ∷ Begin 0 1 (Range 0 1) ∷ Answer 0 1 0 (Kept b y ∷ []) None ∷ []) (Kept a x ∷ Kept b y ∷ []) }
    ensures of_the_place_before { BrokenBy slices (Invoke a x ∷ Invoke b y ∷ Begin 0 1 (Range 1 2) ∷ Answer 0 1 1 (Kept a x ∷ []) None ∷ []) (Kept a x ∷ Kept b y ∷ []) }
    ensures the_second_is_another { BrokenBy slices (Invoke a x ∷ Invoke b y ∷ Begin 0 1 (Range 0 2) ∷ Answer 0 1 0 (Kept a x ∷ Kept a x ∷ []) None ∷ []) (Kept a x ∷ Kept b y ∷ []) }
    ensures other_bytes { BrokenBy slices (Invoke a x ∷ Begin 0 1 (Range 0 1) ∷ Answer 0 1 0 (Kept a y ∷ []) None ∷ []) (Kept a x ∷ []) }
    ensures rejected_for_kept { BrokenBy slices (Invoke a x ∷ Begin 0 1 (Range 0 1) ∷ Answer 0 1 0 (Noop a ∷ []) None ∷ []) (Kept a x ∷ []) }
    ensures kept_for_rejected { BrokenBy slices (Invoke a x ∷ Begin 0 1 (Range 0 1) ∷ Answer 0 1 0 (Kept a x ∷ []) None ∷ []) (Noop a ∷ []) }
    ensures past_the_end { BrokenBy slices (Invoke a x ∷ Begin 0 1 (Range 0 1) ∷ Answer 0 1 0 (Kept a x ∷ []) None ∷ []) [] }
    ensures gone { BrokenBy slices (Invoke a x ∷ TrimAsk 1 1 1 ∷ Begin 0 1 (Range 0 1) ∷ Answer 0 1 0 (Gone a ∷ []) None ∷ []) (Gone a ∷ []) }
    ensures gone_for_kept { BrokenBy slices (Invoke a x ∷ TrimAsk 1 1 1 ∷ Begin 0 1 (Range 0 1) ∷ Answer 0 1 0 (Gone a ∷ []) None ∷ []) (Kept a x ∷ []) }
    ensures rejected_for_gone { BrokenBy slices (Invoke a x ∷ TrimAsk 1 1 1 ∷ Begin 0 1 (Range 0 1) ∷ Answer 0 1 0 (Noop a ∷ []) None ∷ []) (Gone a ∷ []) }
    ensures other_bytes_for_gone { BrokenBy slices (Invoke a x ∷ TrimAsk 1 1 1 ∷ Begin 0 1 (Range 0 1) ∷ Answer 0 1 0 (Kept a y ∷ []) None ∷ []) (Gone a ∷ []) }
    ensures another_record_for_gone { BrokenBy slices (Invoke a x ∷ Invoke b y ∷ TrimAsk 1 1 1 ∷ Begin 0 1 (Range 0 1) ∷ Answer 0 1 0 (Kept b y ∷ []) None ∷ []) (Gone a ∷ []) }
    ensures bytes_of_another_for_gone { BrokenBy slices (Invoke a x ∷ Invoke b y ∷ TrimAsk 1 1 1 ∷ Begin 0 1 (Range 0 1) ∷ Answer 0 1 0 (Kept a y ∷ []) None ∷ []) (Gone a ∷ []) }
    ensures an_order_of_another { BrokenBy slices (Invoke a x ∷ Invoke b y ∷ Seen 0 0 (b ∷ []) ∷ []) (Kept a x ∷ Kept b y ∷ []) }
    ensures an_order_of_the_place_before { BrokenBy slices (Invoke a x ∷ Invoke b y ∷ Seen 0 1 (a ∷ []) ∷ []) (Kept a x ∷ Kept b y ∷ []) }
    ensures an_order_turned_round { BrokenBy slices (Invoke a x ∷ Invoke b y ∷ Seen 0 0 (b ∷ a ∷ []) ∷ []) (Kept a x ∷ Kept b y ∷ []) }
    ensures an_order_past_the_end { BrokenBy slices (Invoke a x ∷ Seen 0 0 (a ∷ []) ∷ []) [] }
{}

/// A forced answer reaches past each append that had finished when its read began.
pub fn a_forced_answer_covers_what_was_finished()
    ensures acknowledged { BrokenBy covered (Invoke a x ∷ Acked a ∷ Begin 1 1 (Tail 0) ∷ Answer 1 1 0 [] (Some 0) ∷ []) (Kept a x ∷ []) }
    ensures rejected { BrokenBy covered (Invoke a x ∷ Rejected a 0 ∷ Begin 1 1 (Tail 0) ∷ Answer 1 1 0 [] (Some 0) ∷ []) (Noop a ∷ []) }
    ensures of_its_own_client { BrokenBy covered (Invoke a x ∷ Acked a ∷ Begin 0 1 (Tail 0) ∷ Answer 0 1 0 [] (Some 0) ∷ []) (Kept a x ∷ []) }
    ensures of_a_range { BrokenBy covered (Invoke a x ∷ Acked a ∷ Begin 1 1 (Range 0 1) ∷ Answer 1 1 0 [] (Some 0) ∷ []) (Kept a x ∷ []) }
    ensures at_the_tail { BrokenBy covered (Invoke a x ∷ Invoke b y ∷ Acked b ∷ Begin 1 1 (Tail 0) ∷ Answer 1 1 0 (Kept a x ∷ []) (Some 1) ∷ []) (Kept a x ∷ Kept b y ∷ []) }
{}

/// A forced answer reaches at least as far as what was shown before its read began.
pub fn a_tail_is_at_least_what_was_shown_before()
    ensures by_entries { BrokenBy tails_never_fall (Invoke a x ∷ Begin 0 1 (Range 0 1) ∷ Answer 0 1 0 (Kept a x ∷ []) None ∷ Begin 1 1 (Tail 0) ∷ Answer 1 1 0 [] (Some 0) ∷ []) (Kept a x ∷ []) }
    ensures by_a_tail { BrokenBy tails_never_fall (Invoke a x ∷ Begin 0 1 (Tail 1) ∷ Answer 0 1 1 [] (Some 1) ∷ Begin 1 1 (Tail 0) ∷ Answer 1 1 0 [] (Some 0) ∷ []) (Kept a x ∷ []) }
    ensures by_an_order { BrokenBy tails_never_fall (Invoke a x ∷ Seen 0 0 (a ∷ []) ∷ Begin 1 1 (Tail 0) ∷ Answer 1 1 0 [] (Some 0) ∷ []) (Kept a x ∷ []) }
    ensures by_one_place { BrokenBy tails_never_fall (Invoke a x ∷ Invoke b y ∷ Seen 0 1 (b ∷ []) ∷ Begin 1 1 (Tail 0) ∷ Answer 1 1 0 (Kept a x ∷ []) (Some 1) ∷ []) (Kept a x ∷ Kept b y ∷ []) }
    ensures of_its_own_client { BrokenBy tails_never_fall (Invoke a x ∷ Begin 0 1 (Range 0 1) ∷ Answer 0 1 0 (Kept a x ∷ []) None ∷ Begin 0 2 (Range 0 1) ∷ Answer 0 2 0 [] (Some 0) ∷ []) (Kept a x ∷ []) }
{}

/// A record that was invoked after something was read or trimmed stands behind it.
pub fn what_was_read_is_final()
    ensures by_entries { BrokenBy behind_read (Begin 0 1 (Range 0 1) ∷ Answer 0 1 0 (Kept b y ∷ []) None ∷ Invoke b y ∷ []) (Kept b y ∷ []) }
    ensures by_a_tail { BrokenBy behind_read (Begin 0 1 (Tail 1) ∷ Answer 0 1 1 [] (Some 1) ∷ Invoke b y ∷ []) (Kept b y ∷ []) }
    ensures by_an_order { BrokenBy behind_read (Seen 0 0 (b ∷ []) ∷ Invoke b y ∷ []) (Kept b y ∷ []) }
    ensures by_a_trim { BrokenBy behind_read (TrimAsk 0 1 1 ∷ TrimDone 0 1 1 ∷ Invoke b y ∷ []) (Kept b y ∷ []) }
    ensures by_a_trimmed_read { BrokenBy behind_read (TrimAsk 1 1 1 ∷ Begin 0 1 (Range 0 1) ∷ Trimmed 0 1 1 ∷ Invoke b y ∷ []) (Kept b y ∷ []) }
    ensures by_one_place { BrokenBy behind_read (Invoke a x ∷ Begin 0 1 (Tail 2) ∷ Answer 0 1 2 [] (Some 2) ∷ Invoke b y ∷ []) (Kept a x ∷ Noop b ∷ []) }
{}

/// A read ends as trimmed only where it was begun once, not answered, and a trim of its first place was asked for.
pub fn a_trimmed_read_had_places_below_a_trim()
    ensures never_begun { BrokenBy trims (TrimAsk 1 1 1 ∷ Trimmed 0 1 1 ∷ []) [] }
    ensures begun_by_another_client { BrokenBy trims (TrimAsk 1 1 1 ∷ Begin 1 1 (Range 0 1) ∷ Trimmed 0 1 1 ∷ []) [] }
    ensures begun_later { BrokenBy trims (TrimAsk 1 1 1 ∷ Trimmed 0 1 1 ∷ Begin 0 1 (Range 0 1) ∷ []) [] }
    ensures begun_twice { BrokenBy trims (TrimAsk 1 1 1 ∷ Begin 0 1 (Range 0 1) ∷ Begin 0 1 (Range 0 1) ∷ Trimmed 0 1 1 ∷ []) [] }
    ensures answered_before { BrokenBy trims (TrimAsk 1 1 1 ∷ Begin 0 1 (Tail 0) ∷ Answer 0 1 0 [] (Some 0) ∷ Trimmed 0 1 1 ∷ []) [] }
    ensures trimmed_twice { BrokenBy trims (TrimAsk 1 1 1 ∷ Begin 0 1 (Range 0 1) ∷ Trimmed 0 1 1 ∷ Trimmed 0 1 1 ∷ []) [] }
    ensures from_the_floor_on { BrokenBy trims (TrimAsk 1 1 1 ∷ Begin 0 1 (Range 1 2) ∷ Trimmed 0 1 1 ∷ []) [] }
    ensures never_asked { BrokenBy trims (Begin 0 1 (Range 0 1) ∷ Trimmed 0 1 1 ∷ []) [] }
    ensures asked_later { BrokenBy trims (Begin 0 1 (Range 0 1) ∷ Trimmed 0 1 1 ∷ TrimAsk 1 1 1 ∷ []) [] }
    ensures asked_for_less { BrokenBy trims (TrimAsk 1 1 1 ∷ Begin 0 1 (Range 0 2) ∷ Trimmed 0 1 2 ∷ []) [] }
{}

/// A trim is done only where it was asked for once, with this floor, and was not done before.
pub fn a_trim_is_done_once_as_it_was_asked()
    ensures never_asked { BrokenBy trims (TrimDone 0 1 1 ∷ []) [] }
    ensures asked_later { BrokenBy trims (TrimDone 0 1 1 ∷ TrimAsk 0 1 1 ∷ []) [] }
    ensures asked_by_another_client { BrokenBy trims (TrimAsk 1 1 1 ∷ TrimDone 0 1 1 ∷ []) [] }
    ensures asked_by_another_number { BrokenBy trims (TrimAsk 0 2 1 ∷ TrimDone 0 1 1 ∷ []) [] }
    ensures asked_for_another_floor { BrokenBy trims (TrimAsk 0 1 2 ∷ TrimDone 0 1 1 ∷ []) [] }
    ensures asked_twice { BrokenBy trims (TrimAsk 0 1 1 ∷ TrimAsk 0 1 1 ∷ TrimDone 0 1 1 ∷ []) [] }
    ensures done_twice { BrokenBy trims (TrimAsk 0 1 1 ∷ TrimDone 0 1 1 ∷ TrimDone 0 1 1 ∷ []) [] }
    ensures done_twice_for_other_floors { BrokenBy trims (TrimAsk 0 1 1 ∷ TrimAsk 0 1 2 ∷ TrimDone 0 1 1 ∷ TrimDone 0 1 2 ∷ []) [] }
{}
