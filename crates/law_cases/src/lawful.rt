//! Histories and lines that the law allows.

ghost use Rattle.std.specs.Prelude.{[], ◌∷◌, Some, None};
ghost use Rattle.law_cases.specs.Names.{a, b, c, x, y};
ghost use Rattle.rec_id.specs.Lawful.{Lawful};
ghost use Rattle.rec_id.specs.declared.entry.Entry.TheVariants.{Kept, Noop, Gone};
ghost use Rattle.rec_id.specs.declared.event.Ask.TheVariants.{Range, Tail};
ghost use Rattle.rec_id.specs.declared.event.Event.TheVariants.{Invoke, Acked, Rejected, Begin, Answer, Seen, TrimAsk, TrimDone, Trimmed};

/// Lines that the law allows for what appends were told.
pub fn appends_of_every_outcome_are_lawful()
    ensures nothing { Lawful [] [] }
    ensures acknowledged { Lawful (Invoke a x ∷ Acked a ∷ []) (Kept a x ∷ []) }
    ensures rejected { Lawful (Invoke a x ∷ Rejected a 0 ∷ []) (Noop a ∷ []) }
    ensures trimmed { Lawful (Invoke a x ∷ Acked a ∷ TrimAsk 0 1 1 ∷ TrimDone 0 1 1 ∷ []) (Gone a ∷ []) }
    ensures trimmed_before_it_was_acknowledged { Lawful (Invoke a x ∷ TrimAsk 1 1 1 ∷ Acked a ∷ []) (Gone a ∷ []) }
    ensures unfinished_and_kept { Lawful (Invoke a x ∷ []) (Kept a x ∷ []) }
    ensures unfinished_and_rejected { Lawful (Invoke a x ∷ []) (Noop a ∷ []) }
    ensures unfinished_and_gone { Lawful (Invoke a x ∷ TrimAsk 0 1 1 ∷ []) (Gone a ∷ []) }
    ensures unfinished_and_lost { Lawful (Invoke a x ∷ []) [] }
    ensures at_the_same_time { Lawful (Invoke a x ∷ Invoke b y ∷ Acked a ∷ Acked b ∷ []) (Kept b y ∷ Kept a x ∷ []) }
    ensures one_after_the_other { Lawful (Invoke a x ∷ Acked a ∷ Invoke b y ∷ Rejected b 1 ∷ Invoke c x ∷ Acked c ∷ []) (Kept a x ∷ Noop b ∷ Kept c x ∷ []) }
{}

/// Lines that the law allows for what readers were told.
pub fn reads_of_every_outcome_are_lawful()
    ensures a_range { Lawful (Invoke a x ∷ Invoke b y ∷ Begin 0 1 (Range 1 2) ∷ Answer 0 1 1 (Kept b y ∷ []) None ∷ []) (Kept a x ∷ Kept b y ∷ []) }
    ensures an_empty_range { Lawful (Begin 0 1 (Range 7 7) ∷ Answer 0 1 7 [] None ∷ []) [] }
    ensures a_forced_range { Lawful (Invoke a x ∷ Acked a ∷ Begin 0 1 (Range 0 4) ∷ Answer 0 1 0 (Kept a x ∷ []) (Some 1) ∷ []) (Kept a x ∷ []) }
    ensures a_forced_range_past_the_tail { Lawful (Invoke a x ∷ Begin 0 1 (Range 5 6) ∷ Answer 0 1 5 [] (Some 1) ∷ []) (Kept a x ∷ []) }
    ensures a_tail { Lawful (Invoke a x ∷ Acked a ∷ Begin 1 1 (Tail 0) ∷ Answer 1 1 0 (Kept a x ∷ []) (Some 1) ∷ []) (Kept a x ∷ []) }
    ensures a_tail_short_of_the_end { Lawful (Invoke a x ∷ Begin 1 1 (Tail 0) ∷ Answer 1 1 0 [] (Some 0) ∷ []) (Kept a x ∷ []) }
    ensures a_tail_that_finished_appends_pass { Lawful (Invoke a x ∷ Begin 1 1 (Tail 0) ∷ Acked a ∷ Answer 1 1 0 [] (Some 0) ∷ []) (Kept a x ∷ []) }
    ensures a_tail_that_other_reads_pass { Lawful (Invoke a x ∷ Begin 1 1 (Tail 0) ∷ Begin 0 1 (Range 0 1) ∷ Answer 0 1 0 (Kept a x ∷ []) None ∷ Answer 1 1 0 [] (Some 0) ∷ []) (Kept a x ∷ []) }
    ensures a_rejected_place { Lawful (Invoke a x ∷ Begin 0 1 (Range 0 1) ∷ Answer 0 1 0 (Noop a ∷ []) None ∷ []) (Noop a ∷ []) }
    ensures before_a_trim { Lawful (Invoke a x ∷ Begin 0 1 (Range 0 1) ∷ Answer 0 1 0 (Kept a x ∷ []) None ∷ TrimAsk 1 1 1 ∷ []) (Gone a ∷ []) }
    ensures after_a_trim { Lawful (Invoke a x ∷ TrimAsk 1 1 1 ∷ TrimDone 1 1 1 ∷ Begin 0 1 (Range 0 1) ∷ Trimmed 0 1 1 ∷ []) (Gone a ∷ []) }
    ensures trimmed_by_a_higher_trim { Lawful (TrimAsk 1 1 3 ∷ Begin 0 1 (Range 0 1) ∷ Trimmed 0 1 2 ∷ []) [] }
    ensures an_append_behind_it { Lawful (Invoke a x ∷ Begin 0 1 (Range 0 1) ∷ Answer 0 1 0 (Kept a x ∷ []) None ∷ Invoke b y ∷ []) (Kept a x ∷ Kept b y ∷ []) }
    ensures an_order { Lawful (Invoke a x ∷ Invoke b y ∷ Seen 0 1 (b ∷ []) ∷ Invoke c x ∷ []) (Kept a x ∷ Kept b y ∷ Kept c x ∷ []) }
    ensures no_order { Lawful (Seen 0 5 [] ∷ Invoke a x ∷ []) (Kept a x ∷ []) }
    ensures trims_of_two_clients { Lawful (Invoke a x ∷ Invoke b y ∷ TrimAsk 0 1 1 ∷ TrimDone 0 1 1 ∷ TrimAsk 0 2 2 ∷ TrimAsk 1 2 1 ∷ TrimDone 1 2 1 ∷ TrimDone 0 2 2 ∷ []) (Gone a ∷ Gone b ∷ []) }
    ensures a_trim_of_one_floor_asked_with_two { Lawful (TrimAsk 0 1 1 ∷ TrimAsk 0 1 2 ∷ TrimDone 0 1 1 ∷ []) [] }
    ensures a_tail_below_a_trim { Lawful (Invoke a x ∷ TrimAsk 0 1 1 ∷ TrimDone 0 1 1 ∷ Begin 1 1 (Tail 0) ∷ Answer 1 1 0 [] (Some 0) ∷ []) (Gone a ∷ []) }
    ensures one_read_after_the_other { Lawful (Begin 0 1 (Range 0 0) ∷ Answer 0 1 0 [] None ∷ Begin 0 2 (Range 0 0) ∷ Answer 0 2 0 [] None ∷ []) [] }
    ensures the_later_number_first { Lawful (Begin 0 2 (Range 0 0) ∷ Answer 0 2 0 [] None ∷ Begin 0 1 (Range 0 0) ∷ Answer 0 1 0 [] None ∷ []) [] }
    ensures a_read_after_a_trimmed_one { Lawful (TrimAsk 1 1 1 ∷ Begin 0 2 (Range 0 1) ∷ Trimmed 0 2 1 ∷ Begin 0 1 (Range 0 1) ∷ Trimmed 0 1 1 ∷ Begin 0 3 (Range 1 1) ∷ Answer 0 3 1 [] None ∷ []) [] }
    ensures the_same_number_of_two_clients { Lawful (Begin 0 1 (Range 0 0) ∷ Begin 1 1 (Range 0 0) ∷ Answer 0 1 0 [] None ∷ Answer 1 1 0 [] None ∷ []) [] }
{}

/// The line with the acknowledged append, and the line with the trimmed entry.
pub fn checked_lines_are_lawful()
    ensures acknowledged { Lawful (Invoke a x ∷ Acked a ∷ []) (Kept a x ∷ []) }
    ensures trimmed { Lawful (Invoke a x ∷ TrimAsk 0 1 1 ∷ []) (Gone a ∷ []) }
{}
