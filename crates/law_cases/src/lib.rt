//! What the law says of short histories and lines, as theorems that a check of the law can be held against.
//!
//! No function here does anything: the contract of each is a theorem. `specs/Names.antt` has the
//! records that the histories speak of.
#![tactic(auto)]

mod broken;
mod first_broken;
mod lawful;
mod laws;

pub use broken::{
    a_forced_answer_covers_what_was_finished, a_read_is_answered_by_what_it_asked_for,
    a_read_is_told_what_stands, a_tail_is_at_least_what_was_shown_before,
    a_trim_is_done_once_as_it_was_asked, a_trimmed_read_had_places_below_a_trim,
    no_record_stands_twice, nothing_stands_that_was_not_invoked,
    the_line_keeps_what_appends_were_told, what_was_finished_stands_in_front,
    what_was_read_is_final,
};
pub use first_broken::{
    a_broken_clause_is_told_with_its_first_pair, a_read_is_trimmed_after_a_trim_was_asked_for,
    an_append_is_invoked_before_it_is_finished, an_append_stands_once_it_is_acknowledged,
    an_entry_is_gone_where_a_trim_was_asked_for,
};
pub use lawful::{
    appends_of_every_outcome_are_lawful, checked_lines_are_lawful,
    reads_of_every_outcome_are_lawful,
};
pub use laws::{
    acknowledged_appends_stand_once, answers_agree, no_answer_has_a_gone_entry,
    order_is_precedence, tail_reads_are_forced,
};
