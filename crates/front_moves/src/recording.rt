// How nodes on buffers are recorded, each behind the barriers that are due before it.
ghost use Rattle.std.specs.Prelude.{◌≡◌, ℕ, ◌+◌, ◌<◌, ◌≤◌, ◌==◌, ◌⊎◌, not, if◌then◌else◌, ◌++◌, ◌≢◌, [], ◌∷◌, length, OnOk, OnErr, IfErr, Err, IfSome, IfNone, IsSome, slice_set, slice_index_or, true, false, is_err};
ghost use Rattle.vk_device.specs.Faults.{HasCause};
ghost use Rattle.vk_types.specs.Touches.{the_end};
ghost use Rattle.vk_types.specs.declared.stops.Stop.TheVariants.{Memory};
ghost use Rattle.resource_use.specs.Uses.{number_of};
ghost use Rattle.back_core.specs.Needs.{IsOfGroup};
ghost use Rattle.front_model.specs.declared.object.Object.TheVariants.{Buffer};
ghost use Rattle.front_model.specs.Face.{put_object, outline_at, view, recorded};
ghost use Rattle.front_model.specs.Stands.{Holds, Owns, Moved, IsQuiet, no_hands};
ghost use Rattle.barriers.specs.Recording.{node_for};
ghost use Rattle.front_moves.specs.Recording.{behind_both};
ghost use Rattle.vk_types.specs.Accesses.{host_read};
ghost use Rattle.tables.specs.Table.{entry};
ghost use Rattle.barriers.specs.Trackers.{due_by};
ghost use Rattle.object_helper.specs.Objects.{access_of};
ghost use Rattle.front_model.specs.Wanted.{with_copy};
ghost use Rattle.front_moves.specs.Objects.{key_of};
ghost use Rattle.vk_types.specs.declared.handles.Kind.TheVariants as kind;
ghost use Rattle.front_moves.specs.Core.{face, in_hand, HasStore, HasBytes, IsParted, IsQuietBut, IsUntouched, IsRetired, IsOpen};
ghost use Rattle.back_core.specs.Frame.{ActsAtBack, NoBatch};

use crate::group_core::Core;
use crate::pending::Pending;
use crate::reading_comes_to::waiting_comes_to;
use crate::recording_comes_to::{
    copy_comes_to, opening_comes_to, stopped_recording_comes_to, upload_comes_to,
};
use back_core::BackLink;
use front_model::Object;
use garbage::Garbage;
use std::alloc::AllocError;
use vk_types::{Access, Barrier, HandleId, Node, Op, QueueSerial, SerialIndex, Stop};

/// Adds a barrier, where one is due.
pub(crate) fn push_due(
    pending: &mut Pending,
    place: usize,
    due: Option<Barrier>,
) -> Result<(), AllocError>
    requires { place < 8 }
    ensures { OnOk result (pending.new ≡ slice_set pending.old place (slice_index_or pending.old place [] ++ node_for due)) }
{
    match due {
        Some(barrier) => pending.push(
            place,
            Node {
                op: Op::Barrier(barrier),
            },
        ),
        None => Ok(()),
    }
}

/// Adds a copy behind the barriers that are due before it.
pub(crate) fn push_copy(
    pending: &mut Pending,
    place: usize,
    one: Option<Barrier>,
    other: Option<Barrier>,
    copy: Node,
) -> Result<(), Stop>
    requires { place < 8 }
    ensures ok { OnOk result (pending.new ≡ slice_set pending.old place (slice_index_or pending.old place [] ++ behind_both one other copy)) }
    ensures eight { OnOk result (length pending.old ≡ 8) }
    ensures err { IfErr result (λ stop. stop ≡ Memory) }
{
    if push_due(pending, place, one).is_err()
        || push_due(pending, place, other).is_err()
        || pending.push(place, copy).is_err()
    {
        return Err(Stop::Memory);
    }
    Ok(())
}

impl Core {
    /// Records the copy of a whole staging buffer to a place of a buffer, and gives the staging buffer away.
    pub(crate) fn record_upload<L: BackLink>(
        &mut self,
        link: &mut L,
        serial: QueueSerial,
        staging: Garbage,
        buffer: u32,
        at: u64,
        len: u64,
    ) -> Result<(), Stop>
        requires holds { Holds (face self.old) (in_hand staging.handle.0 (kind.Buffer len)) (L.state link.old) }
        requires group { IsOfGroup (face self.old).group serial.index }
        requires next { serial.number ≡ (face self.old).last serial.index + 1 }
        requires uses { (i : ℕ) → number_of staging.uses i ≡ (if i == serial.index then serial.number else 0) }
        requires parted { IsParted false (face self.old) serial.index (Buffer buffer) }
        requires few { length ((face self.old).pending serial.index) < 1024 }
        requires store { (size : ℕ) × HasBytes (face self.old) buffer size × (at + len ≤ size) }
        requires some { 0 < len }
        ensures moved { OnOk result (Moved (face self.new) (L.state link.new)
            (put_object (view (face self.old) (L.state link.old)) (Buffer buffer)
            (with_copy (view (face self.old) (L.state link.old) (Buffer buffer)) at len (recorded (face self.old) (L.state link.old) staging.handle.0) 0))
            (outline_at (face self.old)) (IsQuietBut (face self.old) (L.state link.old) (Buffer buffer))) }
        ensures group { (face self.new).group ≡ (face self.old).group }
        ensures err { OnErr result (Owns (face self.new).objects (L.state link.new)) }
        ensures cause { HasCause (L.faults link.old) (L.faults link.new) result }
        ensures at_back { ActsAtBack L.state L.told link.old link.new 0 false (is_err result) NoBatch }
    {
        upload_comes_to();
        stopped_recording_comes_to();
        let place = self.place(serial.index);
        let src = staging.handle.id();
        let dst = self.id_of(Object::Buffer(buffer));
        if let Ok(due) = self
            .objects
            .access(Object::Buffer(buffer), Access::TRANSFER_WRITE, serial)
        {
            let copy = Node {
                op: Op::CopyBuffer {
                    src,
                    src_at: 0,
                    dst,
                    dst_at: at,
                    size: len,
                },
            };
            if push_copy(&mut self.pending, place, None, due, copy).is_ok() {
                link.give(staging);
                return Ok(());
            }
        }
        let Garbage { handle, uses: _ } = staging;
        link.abandon(handle);
        Err(Stop::Memory)
    }

    /// Records a copy from a buffer to a buffer.
    pub(crate) fn record_copy<L: BackLink>(
        &mut self,
        link: &L,
        serial: QueueSerial,
        src: u32,
        src_at: u64,
        dst: u32,
        dst_at: u64,
        size: u64,
    ) -> Result<(), Stop>
        requires holds { Holds (face self.old) no_hands (L.state link.now) }
        requires group { IsOfGroup (face self.old).group serial.index }
        requires next { serial.number ≡ (face self.old).last serial.index + 1 }
        requires source_parted { IsParted (not (src == dst)) (face self.old) serial.index (Buffer src) }
        requires parted { IsParted false (face self.old) serial.index (Buffer dst) }
        requires few { length ((face self.old).pending serial.index) < 1024 }
        requires source { (len : ℕ) × HasBytes (face self.old) src len × (src_at + size ≤ len) }
        requires target { (len : ℕ) × HasBytes (face self.old) dst len × (dst_at + size ≤ len) }
        requires some { 0 < size }
        requires apart { src ≡ dst → (src_at + size ≤ dst_at) ⊎ (dst_at + size ≤ src_at) }
        ensures moved { OnOk result (Moved (face self.new) (L.state link.now)
            (put_object (view (face self.old) (L.state link.now)) (Buffer dst)
            (with_copy (view (face self.old) (L.state link.now) (Buffer dst)) dst_at size (view (face self.old) (L.state link.now) (Buffer src)) src_at))
            (outline_at (face self.old)) (λ o. IsQuietBut (face self.old) (L.state link.now) (Buffer dst) o × (o ≢ Buffer src))) }
        ensures group { (face self.new).group ≡ (face self.old).group }
        ensures err { OnErr result (Owns (face self.new).objects (L.state link.now)) }
        ensures memory { IfErr result (λ stop. stop ≡ Memory) }
    {
        copy_comes_to();
        stopped_recording_comes_to();
        let _ = link;
        let place = self.place(serial.index);
        let from = self.id_of(Object::Buffer(src));
        let to = self.id_of(Object::Buffer(dst));
        match self
            .objects
            .access_both(Object::Buffer(src), Object::Buffer(dst), serial)
        {
            Ok((one, other)) => {
                let copy = Node {
                    op: Op::CopyBuffer {
                        src: from,
                        src_at,
                        dst: to,
                        dst_at,
                        size,
                    },
                };
                push_copy(&mut self.pending, place, one, other, copy)
            }
            Err(_) => Err(Stop::Memory),
        }
    }

    /// Records the barrier that is due before the host reads a buffer, if one is.
    pub(crate) fn record_opening<L: BackLink>(
        &mut self,
        link: &L,
        serial: QueueSerial,
        buffer: u32,
    ) -> Result<(), Stop>
        requires holds { Holds (face self.old) no_hands (L.state link.now) }
        requires group { IsOfGroup (face self.old).group serial.index }
        requires next { serial.number ≡ (face self.old).last serial.index + 1 }
        requires parted { IsParted false (face self.old) serial.index (Buffer buffer) }
        requires few { length ((face self.old).pending serial.index) < 1024 }
        requires store { (size : ℕ) × HasBytes (face self.old) buffer size }
        ensures moved { OnOk result (Moved (face self.new) (L.state link.now) (view (face self.old) (L.state link.now)) (outline_at (face self.old)) (IsQuietBut (face self.old) (L.state link.now) (Buffer buffer))) }
        ensures parted { OnOk result (IsParted false (face self.new) serial.index (Buffer buffer)) }
        ensures opened { OnOk result (IsOpen (face self.new) (Buffer buffer)) }
        ensures group { (face self.new).group ≡ (face self.old).group }
        ensures err { OnErr result (Owns (face self.new).objects (L.state link.now)) }
        ensures memory { IfErr result (λ stop. stop ≡ Memory) }
    {
        opening_comes_to();
        stopped_recording_comes_to();
        let _ = link;
        let place = self.place(serial.index);
        let _id = self.id_of(Object::Buffer(buffer));
        let barrier = match self.due_opening(Object::Buffer(buffer)) {
            Some(barrier) => barrier,
            None => return Ok(()),
        };
        if self
            .objects
            .fence(Object::Buffer(buffer), &barrier, serial)
            .is_ok()
            && self
                .pending
                .push(
                    place,
                    Node {
                        op: Op::Barrier(barrier),
                    },
                )
                .is_ok()
        {
            return Ok(());
        }
        Err(Stop::Memory)
    }

    /// The barrier that is due before the host reads an object.
    fn due_opening(&self, object: Object) -> Option<Barrier>
        ensures { IfSome (entry (key_of object) self.now.stores) (λ x. result ≡ due_by x.tracker (access_of x.handle host_read)) }
    {
        match self.objects.get(object) {
            Some(store) => store.due(Access::HOST_READ, None),
            None => None,
        }
    }

    /// The handle of an object's store.
    fn id_of(&self, object: Object) -> HandleId
        requires { IsSome ((face self.now).objects object) }
        ensures handle { IfSome ((face self.now).objects object) (λ x. x.handle ≡ result.0) }
        ensures size { (size : ℕ) → HasStore (face self.now) object (kind.Buffer size) → size ≤ the_end }
    {
        match self.objects.get(object) {
            Some(store) => {
                // so that the size is known to fit
                let _ = store.size();
                store.id()
            }
            None => unreachable!(),
        }
    }

    /// Waits until each batch that touches an object is retired.
    pub(crate) fn wait_for_uses<L: BackLink>(
        &self,
        link: &mut L,
        object: Object,
    ) -> Result<(), Stop>
        requires holds { Holds (face self.now) no_hands (L.state link.old) }
        requires untouched { IsUntouched (face self.now) object }
        ensures moved { OnOk result (Moved (face self.now) (L.state link.new) (view (face self.now) (L.state link.old)) (outline_at (face self.now)) (IsQuiet (face self.now) (L.state link.old))) }
        ensures retired { OnOk result (IsRetired (face self.now) (L.state link.new) object) }
        ensures same { OnOk result ((L.state link.new).mine ≡ (L.state link.old).mine) }
        ensures err { OnErr result (Owns (face self.now).objects (L.state link.new)) }
        ensures cause { HasCause (L.faults link.old) (L.faults link.new) result }
        ensures at_back { ActsAtBack L.state L.told link.old link.new 0 true (is_err result) NoBatch }
    {
        waiting_comes_to();
        for place in 0..8u8 {
            let index = SerialIndex::new(8 * self.group + place);
            let number = self.last_use(index, object);
            if number > 0 {
                match link.wait_for(QueueSerial { index, number }) {
                    Ok(()) => {}
                    Err(stop) => return Err(stop),
                }
            }
        }
        Ok(())
    }

    /// The number of the last batch of an index that uses an object's store, or 0.
    fn last_use(&self, index: SerialIndex, object: Object) -> u64
        ensures used { IfSome ((face self.now).objects object) (λ x. result ≡ x.slot.used index) }
        ensures none { IfNone ((face self.now).objects object) (result ≡ 0) }
    {
        match self.objects.get(object) {
            Some(store) => store.last_use(index),
            None => 0,
        }
    }
}
