// Batches without nodes, and garbage, through a link.
ghost use Rattle.std.specs.Prelude.{◌≡◌, [], IfOk, OnOk};
ghost use Rattle.back_core.specs.Link.{IsNew};
ghost use Rattle.back_tests.specs.Copying.{HasThree};

use crate::copying::batch_of;
use back_core::BackLink;
use garbage::Garbage;
use resource_use::ResourceUse;
use std::alloc::Global;
use vk_types::{Handle, Kind, QueueSerial, SerialIndex, Stop};

/// Enqueues two batches of the first index, and one of the second between them.
pub(crate) fn enqueue_three<L: BackLink>(alloc: Global, link: &mut L) -> Result<(), Stop>
    requires { IsNew (L.state link.old) 0 }
{
    let first = SerialIndex::new(0);
    let second = SerialIndex::new(1);
    match link.enqueue(batch_of(alloc, first, 1, Vec::new(alloc))) {
        Ok(()) => {}
        Err(_) => return Err(Stop::Memory),
    }
    match link.enqueue(batch_of(alloc, second, 1, Vec::new(alloc))) {
        Ok(()) => {}
        Err(_) => return Err(Stop::Memory),
    }
    match link.enqueue(batch_of(alloc, first, 2, Vec::new(alloc))) {
        Ok(()) => Ok(()),
        Err(_) => Err(Stop::Memory),
    }
}

// Three new buffers.
fn create_three<L: BackLink>(link: &mut L) -> Result<(Handle, Handle, Handle), Stop>
    requires { IsNew (L.state link.old) 0 }
    ensures { IfOk result (λ r. HasThree (L.state link.new) r.0.0 r.1.0 r.2.0) }
{
    let kind = Kind::Buffer { size: 4 };
    let first = link.create(kind)?;
    let second = match link.create(kind) {
        Ok(second) => second,
        Err(stop) => {
            link.abandon(first);
            return Err(stop);
        }
    };
    let third = match link.create(kind) {
        Ok(third) => third,
        Err(stop) => {
            link.abandon(first);
            link.abandon(second);
            return Err(stop);
        }
    };
    Ok((first, second, third))
}

/// Gives three new buffers away, of which the second is used by the next batch of the first index.
pub(crate) fn give_three<L: BackLink>(alloc: Global, link: &mut L) -> Result<(), Stop>
    requires { IsNew (L.state link.old) 0 }
    ensures group { OnOk result ((L.state link.new).group ≡ 0) }
    ensures unused { OnOk result ((L.state link.new).mine ≡ []) }
{
    let mut used = ResourceUse::new(alloc);
    used.note(QueueSerial {
        index: SerialIndex::new(0),
        number: 1,
    })?;
    let (first, second, third) = create_three(link)?;
    link.give(Garbage {
        handle: first,
        uses: ResourceUse::new(alloc),
    });
    link.give(Garbage {
        handle: second,
        uses: used,
    });
    link.give(Garbage {
        handle: third,
        uses: ResourceUse::new(alloc),
    });
    Ok(())
}

/// Gives three new buffers away, and enqueues the batch that uses the second of them.
pub(crate) fn give_and_enqueue<L: BackLink>(alloc: Global, link: &mut L) -> Result<(), Stop>
    requires { IsNew (L.state link.old) 0 }
{
    give_three(alloc, link)?;
    match link.enqueue(batch_of(alloc, SerialIndex::new(0), 1, Vec::new(alloc))) {
        Ok(()) => Ok(()),
        Err(_) => Err(Stop::Memory),
    }
}
