//! That there is a merge, and but one order of it.

ghost use Rattle.std.specs.Prelude.{◌≡◌, List};
ghost use Rattle.list_facts.specs.Lists.{Each};
ghost use Rattle.view_config.specs.Shape.{Dimensions};
ghost use Rattle.lazy_msgs.specs.declared.diary.Diary.{Diary};
ghost use Rattle.diary_laws.specs.Closed.{AreClosedDiaries};
ghost use Rattle.diary_laws.specs.Formed.{AreDiaries};
ghost use Rattle.diary_laws.specs.Machines.{Step};
ghost use Rattle.diary_laws.specs.Merges.{CanBecome, IsFound, IsMerged, sent_by};
ghost use Rattle.diary_laws.specs.Nodes.{NodeState, nodes_of_shape};

/// A law, and no code. Two merged lists of the steps of well-formed diaries, one a node, are one list. In a
/// closed list each step's message is among those that the merged steps sent, so that all become events.
pub fn every_merge_has_one_order()
    ensures one { (shape : Dimensions) (diaries : List Diary) → AreDiaries (nodes_of_shape shape) diaries
        → (first second : List (Step NodeState)) → IsMerged (nodes_of_shape shape) diaries first
        → IsMerged (nodes_of_shape shape) diaries second → first ≡ second }
    ensures found { (shape : Dimensions) (diaries : List Diary) → AreClosedDiaries (nodes_of_shape shape) diaries
        → (merged : List (Step NodeState)) → IsMerged (nodes_of_shape shape) diaries merged
        → Each (λ step. IsFound (sent_by merged) step.input) merged }
    ensures events { (shape : Dimensions) (diaries : List Diary) → AreClosedDiaries (nodes_of_shape shape) diaries
        → (merged : List (Step NodeState)) → IsMerged (nodes_of_shape shape) diaries merged → CanBecome merged }
{}
