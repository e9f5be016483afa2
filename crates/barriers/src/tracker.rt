// The tracker of one object.
ghost use Rattle.std.specs.Prelude.{◌≡◌, Bool, List, []};
ghost use Rattle.barriers.specs.Licence.{Use, Accessed, Fenced, writes, changes_layout, layouts_of, barrier_due, touched, layout_now, first_layout};
ghost use Rattle.barriers.specs.Trackers.{Tracks, IsTouchOf, is_due, first_of, due_by, new_tracker, taken, taken_touch};

use vk_types::{Access, Barrier, HandleId, Layout, Touch};

/// What is known of the uses of one object on the device: the kinds that its last barrier let through, the kinds of
/// access since that barrier, and of an image the layout that it is in. (Vulkan 1.1, Pipeline Barriers and Image Layouts.)
#[derive(Clone, Copy, Debug, PartialEq, Eq)]
pub struct Tracker {
    id: HandleId,
    second: Option<Access>,
    since: Access,
    layout: Option<Layout>,
}

impl Tracker {
    /// The tracker of a new object, which is an image or a buffer.
    pub fn new(id: HandleId, is_image: bool) -> Tracker
        ensures is { result ≡ new_tracker id is_image }
        ensures tracks { Tracks result id is_image [] }
    {
        Tracker {
            id,
            second: None,
            since: Access::NONE,
            layout: if is_image {
                Some(Layout::Undefined)
            } else {
                None
            },
        }
    }

    /// The barrier before a touch by a node with this joint access of the object, exactly where one is licensed.
    pub fn before(&self, touch: &Touch) -> Option<Barrier>
        ensures by { result ≡ due_by self.now touch.now }
        ensures licensed { (is_image : Bool) (uses : List Use) → Tracks self.now touch.now.id is_image uses →
            result ≡ barrier_due touch.now.id is_image uses touch.now }
    {
        if !self.is_due(touch) {
            return None;
        }
        Some(Barrier {
            id: self.id,
            first: self.first(),
            second: touch.access,
            layouts: named_layouts(self.layout, touch.layout),
        })
    }

    /// Takes in a barrier of the object.
    pub fn fence(&mut self, barrier: &Barrier)
        ensures { self.new ≡ taken self.old (Fenced barrier.now) }
    {
        self.second = Some(barrier.second);
        self.since = Access::NONE;
        if let Some((_, new)) = barrier.layouts {
            self.layout = Some(new);
        }
    }

    /// Takes in an access of the object, by a node or by the host.
    pub fn access(&mut self, access: Access)
        ensures { self.new ≡ taken self.old (Accessed access) }
    {
        self.since = self.since.joined(access);
    }

    /// Takes in a touch, and the barrier before it. A read by the host is a touch too.
    pub fn after(&mut self, touch: &Touch)
        ensures takes { self.new ≡ taken_touch self.old touch.now }
        ensures tracks { (is_image : Bool) (uses : List Use) → Tracks self.old touch.now.id is_image uses →
            IsTouchOf touch.now.id is_image touch.now →
            Tracks self.new touch.now.id is_image (touched touch.now.id is_image uses touch.now) }
    {
        if let Some(barrier) = self.before(touch) {
            self.fence(&barrier);
        }
        self.access(touch.access);
    }

    /// The layout that an image is in; a buffer has none.
    pub fn layout(&self) -> Option<Layout>
        ensures { (id : HandleId) (is_image : Bool) (uses : List Use) → Tracks self.now id is_image uses →
            result ≡ layout_now (first_layout is_image) uses }
    {
        self.layout
    }

    /// Whether a barrier is licensed before a touch.
    fn is_due(&self, touch: &Touch) -> bool
        ensures { result ≡ is_due self.now touch.now }
    {
        if moves(self.layout, touch.layout) {
            return true;
        }
        if self.since != Access::NONE && does_write(self.since.joined(touch.access)) {
            return true;
        }
        match self.second {
            Some(second) => !touch.access.meets(second),
            None => false,
        }
    }

    /// What a barrier waits for: the accesses since the last one, and where there are none what that one let through.
    fn first(&self) -> Access
        ensures { result ≡ first_of self.now }
    {
        if self.since != Access::NONE {
            return self.since;
        }
        match self.second {
            Some(second) => second,
            None => Access::NONE,
        }
    }
}

/// Whether a kind of access writes.
fn does_write(access: Access) -> bool
    ensures { result ≡ writes access }
{
    access.meets(Access::TRANSFER_WRITE) || access.meets(Access::COLOR_WRITE)
}

/// Whether a touch needs a layout that an image is not in.
fn moves(now: Option<Layout>, wanted: Option<Layout>) -> bool
    ensures { result ≡ changes_layout now wanted }
{
    match (now, wanted) {
        (_, None) => false,
        (None, Some(_)) => true,
        (Some(now), Some(wanted)) => now != wanted,
    }
}

/// The layouts that a barrier names.
fn named_layouts(now: Option<Layout>, wanted: Option<Layout>) -> Option<(Layout, Layout)>
    ensures { result ≡ layouts_of now wanted }
{
    match (now, wanted) {
        (Some(now), Some(wanted)) => Some((now, wanted)),
        (_, _) => None,
    }
}
