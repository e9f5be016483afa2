// A node that waits.
use vk_types::Node;

/// A node that was accepted and has not run: the place of its batch among the accepted ones, its place in the batch, both
/// from 0, the queue that got it, and what it does.
#[derive(Debug, Drop)]
pub struct WaitingNode {
    pub batch: u64,
    pub node: u32,
    pub queue: u8,
    pub command: Node,
}
