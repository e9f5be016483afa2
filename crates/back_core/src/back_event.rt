// What happens to a back.
use cells::Bytes;
use resource_use::ResourceUse;
use vk_types::{Batch, HandleId, Kind, QueueSerial, Stop};

/// What a share group had the back do, and what the back did. A batch belongs to the group of its index.
#[derive(Debug, Drop)]
pub enum BackEvent {
    Created {
        group: u8,
        id: HandleId,
        kind: Kind,
    },
    Wrote {
        group: u8,
        id: HandleId,
        at: u64,
        bytes: Bytes,
    },
    Enqueued {
        batch: Batch,
    },
    /// The device accepted the first flushed batch.
    Submitted,
    /// The device ran an item of a batch, which are counted as the device counts them.
    Ran {
        batch: u64,
        node: u32,
    },
    Retired {
        serial: QueueSerial,
    },
    Fetched {
        group: u8,
        id: HandleId,
        at: u64,
        bytes: Bytes,
    },
    Gave {
        group: u8,
        id: HandleId,
        uses: ResourceUse,
    },
    Abandoned {
        group: u8,
        id: HandleId,
    },
    /// A cleanup that read these numbers destroyed so many objects. Where the device was lost before all that these
    /// numbers cover were destroyed, the next one was spent.
    Cleaned {
        read: [u64; 64],
        destroyed: u64,
    },
    Closing,
    Stopped {
        stop: Stop,
    },
}
