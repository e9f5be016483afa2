use gl_calls::Entry;

/// The calls of a share group with their replies, in the order in which they were made.
#[derive(Debug, Drop)]
pub struct GroupHistory {
    pub group: u8,
    pub entries: Vec<Entry>,
}

/// What a run counted: calls of the histories and those refused; bytes of host writes, submits, executed nodes that are no
/// barriers, executed barriers, creates and destroys of the device.
#[derive(Clone, Copy, Debug, PartialEq, Eq)]
pub struct Counts {
    pub calls: u64,
    pub errors: u64,
    pub uploads: u64,
    pub batches: u64,
    pub nodes: u64,
    pub barriers: u64,
    pub created: u64,
    pub destroyed: u64,
}

/// How a reply text ends: all calls were answered, the same with a summary before the last line, or the device was lost.
#[derive(Clone, Copy, Debug, PartialEq, Eq)]
pub enum Tail {
    End,
    Summary(Counts),
    Lost,
}
