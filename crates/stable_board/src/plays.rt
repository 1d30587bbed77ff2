//! The kinds of step, by what each tells the end that makes it. These types are for the proofs alone.

ghost use Rattle.stable_board.specs.Told.{set_told, raise_told, look_told, note_told, settle_told};
ghost use Rattle.stable_board.specs.Views.{new_publisher, with_publisher, new_peeker, with_peeker, with_ended};
ghost use Rattle.stable_board.specs.declared.views.View.TheVariants.{Spent};

use crate::views::View;
use atomic_table::{Join, Play, Split};

/// A publisher tries the word of its next place.
pub(crate) struct Set;

impl Play<(), View> for Set {
    ghost then = { set_told };
}

/// A publisher raises word 0.
pub(crate) struct Raise;

impl Play<(), View> for Raise {
    ghost then = { raise_told };
}

/// A peeker loads word 0.
pub(crate) struct Look;

impl Play<(), View> for Look {
    ghost then = { look_told };
}

/// A peeker loads the word of a place.
pub(crate) struct Note;

impl Play<(), View> for Note {
    ghost then = { note_told };
}

/// The keeper loads word 0 once all others have ended.
pub(crate) struct Settle;

impl Play<(), View> for Settle {
    ghost then = { settle_told };
}

pub(crate) struct MorePublishers;

impl Split<View> for MorePublishers {
    ghost left = { with_publisher };

    ghost right = { new_publisher };
}

pub(crate) struct MorePeekers;

impl Split<View> for MorePeekers {
    ghost left = { with_peeker };

    ghost right = { new_peeker };
}

/// The keeper takes in what an ended end did or saw.
pub(crate) struct End;

impl Join<View> for End {
    ghost both = { with_ended };

    ghost spent = { Spent };
}
