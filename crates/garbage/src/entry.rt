// What a front gave away.
use resource_use::ResourceUse;
use vk_types::Handle;

/// A handle that was given away, with its last uses. It can be neither dropped nor cloned: its handle has to be spent.
#[derive(Debug)]
pub struct Garbage {
    pub handle: Handle,
    pub uses: ResourceUse,
}
