//! The run of a merge of diaries.

ghost use Rattle.std.specs.Prelude.{List};
ghost use Rattle.view_config.specs.Shape.{Dimensions};
ghost use Rattle.lazy_msgs.specs.declared.diary.Diary.{Diary};
ghost use Rattle.lazy_msgs.specs.declared.input.WorldEvent.{WorldEvent};
ghost use Rattle.diary_laws.specs.Closed.{AreClosedDiaries};
ghost use Rattle.diary_laws.specs.Lived.{IsLived};
ghost use Rattle.diary_laws.specs.Machines.{Step};
ghost use Rattle.diary_laws.specs.Merges.{AreEventsOf, IsMerge, IsMerged, IsNumber, sent_by};
ghost use Rattle.diary_laws.specs.Nodes.{NodeState, nodes_of_shape};

/// A law, and no code. In every shape, for every closed list of well-formed diaries, one a node: no event of
/// its merge is refused, and the merge's run gives each node the state that its own diary leads to; the
/// crashed nodes are those whose diary ends in a crash, and the history is what the merged steps told. It
/// doesn't matter by which of its numbers a message is named that was sent more than once.
pub fn every_merge_is_lived()
    ensures merge { (shape : Dimensions) (diaries : List Diary) → AreClosedDiaries (nodes_of_shape shape) diaries
        → (events : List WorldEvent) (is : IsMerge (nodes_of_shape shape) diaries events)
        → IsLived shape diaries is.merged events }
    ensures numbered { (shape : Dimensions) (diaries : List Diary) → AreClosedDiaries (nodes_of_shape shape) diaries
        → (merged : List (Step NodeState)) (events : List WorldEvent) → IsMerged (nodes_of_shape shape) diaries merged
        → AreEventsOf (IsNumber (sent_by merged)) merged events → IsLived shape diaries merged events }
{}
