//! The states that diaries lead to, and the lines of the merge's run.

ghost use Rattle.std.specs.Prelude.{List};
ghost use Rattle.view_config.specs.Shape.{Dimensions, IsShape};
ghost use Rattle.lazy_msgs.specs.declared.diary.Diary.{Diary};
ghost use Rattle.lazy_msgs.specs.declared.input.WorldEvent.{WorldEvent};
ghost use Rattle.lazy_rules.specs.WorldRules.{run};
ghost use Rattle.lazy_rules.specs.WorldState.{WorldState, first_world};
ghost use Rattle.diary_laws.specs.Formed.{AreDiaries};
ghost use Rattle.diary_laws.specs.Lived.{IsLived};
ghost use Rattle.diary_laws.specs.Machines.{Step};
ghost use Rattle.diary_laws.specs.Nodes.{NodeState, nodes_of_shape};
ghost use Rattle.diary_laws.specs.Snapshots.{HoldAlike, IsSnapshot};

/// A law, and no code. A world of the states that the diaries lead to, and of their crashes, has the holders of
/// the merge's run, and each holder's line, or the shard by which it is lost.
pub fn every_snapshot_has_the_runs_lines()
    ensures { (shape : Dimensions) (diaries : List Diary) → IsShape shape → AreDiaries (nodes_of_shape shape) diaries
        → (merged : List (Step NodeState)) (events : List WorldEvent) → IsLived shape diaries merged events
        → (w : WorldState) → IsSnapshot shape diaries w → HoldAlike w (run events (first_world shape)) }
{}
