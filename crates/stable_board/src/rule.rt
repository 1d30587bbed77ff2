//! The words that all ends of a board share, and the fact about them that each step keeps.

use crate::views::View;
use atomic_table::{Seat, Table, TableRule};
use std::alloc::Global;

/// The rule of a board (`specs/Rule.antt`).
pub struct BoardRule;

impl TableRule<(), View, ()> for BoardRule {
    ghost use Rattle.stable_board.specs.Views.{Holds, keeps};

    ghost holds = { λ _ state. Holds state.words state.views };

    ghost first = { λ _. keeps 0 0 };
}

/// 65,537 words, of which no seat takes a slot.
pub type SharedBoard = Table<(), View, (), BoardRule, Global>;

pub(crate) type BoardSeat = Seat<(), View>;
