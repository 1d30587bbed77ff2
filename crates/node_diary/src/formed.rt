//! That diaries of fed nodes are well formed.

ghost use Rattle.view_config.specs.Shape.{Dimensions};
ghost use Rattle.diary_laws.specs.Formed.{IsFormed};
ghost use Rattle.diary_laws.specs.Nodes.{nodes_of_shape};
ghost use Rattle.node_diary.specs.Fed.{IsFedIn};
ghost use Rattle.node_diary.specs.Feeding.{Diarist};
ghost use Rattle.node_diary.specs.Given.{IsGivenAll, diary_of};

/// A law, and no code. In every shape, for every node of it that was fed: its diary is well formed, where each input was one
/// that a run gives to the node, and a crash the last.
pub fn every_fed_diary_is_formed()
    ensures { (shape : Dimensions) (d : Diarist) → IsFedIn shape d → IsGivenAll shape d → IsFormed (nodes_of_shape shape) (diary_of d) }
{}
