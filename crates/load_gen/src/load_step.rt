//! One step of a load.

use lazy_msgs::WorldEvent;

/// What a step does.
#[derive(Drop)]
pub enum LoadStep {
    /// This event is to happen.
    Make(WorldEvent),
    /// The step has no event: no message was sent that it could deliver.
    Skip,
    /// All steps were made.
    End,
}
