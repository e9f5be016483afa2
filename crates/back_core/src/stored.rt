// An event as a back stores it.
use crate::BackEvent;
use resource_use::ResourceUse;
use std::snapshot::Snapshot;
use vk_types::HandleId;

/// An event. The uses of an object that was given stand in the garbage, and here for contracts alone, so that a give
/// takes no memory.
#[derive(Drop)]
pub(crate) enum Stored {
    Event(BackEvent),
    Gave {
        group: u8,
        id: HandleId,
        uses: Snapshot<ResourceUse>,
    },
}
