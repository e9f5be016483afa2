// A share group's seat at the turnstile of its back.
ghost use Rattle.std.specs.Prelude.{◌≡◌, ℕ, ◌+◌, ◌<◌, ◌≤◌, true, false, [], length, IfOk, IfErr, IfSome, OnOk, OnErr};
ghost use mathlib.Core.List.{IsPrefix};
ghost use Rattle.cells.specs.Contents.{cells, Agrees};
ghost use Rattle.vk_model.specs.Fitting.{IsKind};
ghost use Rattle.back_core.specs.declared.ending.Ending.TheVariants.{Stopped};
ghost use Rattle.back_core.specs.Own.{log_of, IsReadable};
ghost use Rattle.back_core.specs.Link.{IsNew, contents_of, created, wrote, enqueued, fetched, gave, abandoned};
ghost use Rattle.back_core.specs.Needs.{IsFresh, HostMay, MayEnqueue, MayGive, HasBatch};
ghost use Rattle.back_core.specs.Answers.{Learns, Completes, Waits};
ghost use Rattle.back_core.specs.Back.{ending_of, is_stopped};
ghost use Rattle.turnstile.specs.Histories.{own};
ghost use Rattle.shared_gpu.specs.Notes.{events_of, names_of};
ghost use Rattle.shared_gpu.specs.Seats.{seat_link, IsSeat};

use crate::Shared;
use crate::turns::{put, take};
use back_core::{Ending, what_a_group_sees};
use garbage::Garbage;
use std::marker::{Model, PhantomData};
use std::sync::Wait;
use turnstile::{Naming, Pass, Turnstile};
use vk_device::Device;
use vk_types::{Batch, Handle, HandleId, Kind, QueueSerial, SerialIndex, Stop};

/// A group with its pass of the turnstile that `N` names, with no turn out.
#[derive(Drop)]
pub struct Seat<D: Device, N: Naming> {
    group: u8,
    pass: Pass<Shared<D>>,
    at: PhantomData<N>,
}

impl<D: Device, N: Naming> Model for Seat<D, N> {
    ghost use Rattle.shared_gpu.specs.Views.{SeatModel};

    ghost Value = { SeatModel };

    ghost use Rattle.shared_gpu.specs.Seats.{IsSeat};

    ghost view = { λ s. record { group = s.group; pass = s.pass } };

    ghost invariant = { λ s. IsSeat N.name s.group s.pass };
}

impl<D: Device, N: Naming> Seat<D, N> {
    /// The seat of a group, one of 0 to 7, by its pass, which has the number after the group's.
    pub fn new(group: u8, pass: Pass<Shared<D>>) -> Seat<D, N>
        requires { IsSeat N.name group pass }
        ensures group { result.group ≡ group }
        ensures pass { result.pass ≡ pass }
        ensures new { own names_of (group + 1) pass.seen ≡ [] → IsNew (seat_link result) group }
    {
        Seat {
            group,
            pass,
            at: PhantomData,
        }
    }

    /// The pass again.
    pub fn into_pass(self) -> Pass<Shared<D>>
        ensures pass { result ≡ self.pass }
        ensures seat { IsSeat N.name self.group result }
    {
        let Seat {
            group: _,
            pass,
            at: _,
        } = self;
        pass
    }

    /// Makes an object.
    pub(crate) fn create<R: Wait>(
        &mut self,
        rt: &R,
        back: &Turnstile<Shared<D>>,
        kind: Kind,
    ) -> Result<Handle, Stop>
        requires name { back.now.name ≡ N.name }
        requires kind { IsKind kind }
        ensures fresh { IfOk result (λ id. IsFresh (seat_link self.old) id.0) }
        ensures ok { IfOk result (λ id. seat_link self.new ≡ created (seat_link self.old) id.0 kind) }
        ensures err { OnErr result (seat_link self.new ≡ seat_link self.old) }
        ensures group { self.new.group ≡ self.old.group }
        ensures begins { IsPrefix self.old.pass.seen self.new.pass.seen }
        ensures stopped { IfErr result (λ stop. ending_of (events_of self.new.pass.seen) ≡ Stopped stop) }
    {
        what_a_group_sees();
        let mut turn = take(rt, back, &mut self.pass, self.group);
        let answer = turn.value.create(self.group, kind);
        put(back, &mut self.pass, turn);
        answer
    }

    /// Writes bytes into a buffer, from the place `at` on.
    pub(crate) fn write_host<R: Wait>(
        &mut self,
        rt: &R,
        back: &Turnstile<Shared<D>>,
        id: HandleId,
        at: u64,
        bytes: &[u8],
    ) -> Result<(), Stop>
        requires name { back.now.name ≡ N.name }
        requires may { HostMay (seat_link self.old) id.0 at (length bytes.now) }
        ensures ok { OnOk result (seat_link self.new ≡ wrote (seat_link self.old) id.0 at bytes.now) }
        ensures err { OnErr result (seat_link self.new ≡ seat_link self.old) }
        ensures group { self.new.group ≡ self.old.group }
        ensures begins { IsPrefix self.old.pass.seen self.new.pass.seen }
        ensures stopped { IfErr result (λ stop. ending_of (events_of self.new.pass.seen) ≡ Stopped stop) }
    {
        what_a_group_sees();
        let mut turn = take(rt, back, &mut self.pass, self.group);
        let answer = turn.value.write_host(self.group, id, at, bytes);
        put(back, &mut self.pass, turn);
        answer
    }

    /// Hands a batch to the back, or has it handed back for want of memory.
    pub(crate) fn enqueue<R: Wait>(
        &mut self,
        rt: &R,
        back: &Turnstile<Shared<D>>,
        batch: Batch,
    ) -> Result<(), Batch>
        requires name { back.now.name ≡ N.name }
        requires may { MayEnqueue (seat_link self.old) batch }
        ensures ok { OnOk result (seat_link self.new ≡ enqueued (seat_link self.old) batch) }
        ensures room { OnOk result (batch.number < 18446744073709551615) }
        ensures err { OnErr result (seat_link self.new ≡ seat_link self.old) }
        ensures handed_back { IfErr result (λ back. back ≡ batch) }
        ensures group { self.new.group ≡ self.old.group }
        ensures begins { IsPrefix self.old.pass.seen self.new.pass.seen }
    {
        what_a_group_sees();
        let mut turn = take(rt, back, &mut self.pass, self.group);
        let answer = turn.value.enqueue(batch);
        put(back, &mut self.pass, turn);
        answer
    }

    /// A number up to which the batches of an index are retired, by one load.
    pub(crate) fn completed(&mut self, back: &Turnstile<Shared<D>>, index: SerialIndex) -> u64
        requires { back.now.name ≡ N.name }
        ensures answer { Completes (seat_link self.old) (seat_link self.new) index result }
        ensures learns { Learns (seat_link self.old) (seat_link self.new) }
        ensures done { (seat_link self.new).done index ≡ result }
        ensures group { self.new.group ≡ self.old.group }
        ensures seen { self.new.pass.seen ≡ self.old.pass.seen }
    {
        back.published(&mut self.pass, u32::from(index.get()) + 1)
    }

    // How the back ends, by one turn that adds nothing.
    fn ending<R: Wait>(&mut self, rt: &R, back: &Turnstile<Shared<D>>) -> Ending
        requires { back.now.name ≡ N.name }
        ensures link { seat_link self.new ≡ seat_link self.old }
        ensures ending { result ≡ ending_of (events_of self.new.pass.seen) }
        ensures group { self.new.group ≡ self.old.group }
        ensures begins { IsPrefix self.old.pass.seen self.new.pass.seen }
    {
        let turn = take(rt, back, &mut self.pass, self.group);
        let ending = turn.value.ending();
        put(back, &mut self.pass, turn);
        ending
    }

    // One look at a batch that is waited for, and one at the back where the batch is not known to be retired.
    fn waited<R: Wait>(
        &mut self,
        rt: &R,
        back: &Turnstile<Shared<D>>,
        index: SerialIndex,
        number: u64,
    ) -> Option<Result<(), Stop>>
        requires { back.now.name ≡ N.name }
        ensures learns { Learns (seat_link self.old) (seat_link self.new) }
        ensures reached { IfSome result (λ r. OnOk r (number ≤ (seat_link self.new).done index)) }
        ensures stopped { IfSome result (λ r. IfErr r (λ stop. ending_of (events_of self.new.pass.seen) ≡ Stopped stop)) }
        ensures group { self.new.group ≡ self.old.group }
        ensures begins { IsPrefix self.old.pass.seen self.new.pass.seen }
    {
        let reached = self.completed(back, index);
        if reached >= number {
            return Some(Ok(()));
        }
        match self.ending(rt, back) {
            Ending::Stopped(stop) => Some(Err(stop)),
            Ending::Running | Ending::Closing => None,
        }
    }

    /// Waits until a batch of the group is retired, or the back is stopped.
    pub(crate) fn wait_for<R: Wait>(
        &mut self,
        rt: &R,
        back: &Turnstile<Shared<D>>,
        serial: QueueSerial,
    ) -> Result<(), Stop>
        requires { back.now.name ≡ N.name }
        ensures ok { OnOk result (Waits (seat_link self.old) (seat_link self.new) serial.index serial.number) }
        ensures err { OnErr result (Learns (seat_link self.old) (seat_link self.new)) }
        ensures group { self.new.group ≡ self.old.group }
        ensures begins { IsPrefix self.old.pass.seen self.new.pass.seen }
        ensures stopped { IfErr result (λ stop. ending_of (events_of self.new.pass.seen) ≡ Stopped stop) }
    {
        let QueueSerial { index, number } = serial;
        for _ in rt.forever() {
            if let Some(answer) = self.waited(rt, back, index, number) {
                return answer;
            }
        }
        unreachable!()
    }

    /// Reads bytes of a buffer, from the place `at` on.
    pub(crate) fn read_host<R: Wait>(
        &mut self,
        rt: &R,
        back: &Turnstile<Shared<D>>,
        id: HandleId,
        at: u64,
        out: &mut [u8],
    ) -> Result<(), Stop>
        requires name { back.now.name ≡ N.name }
        requires may { HostMay (seat_link self.old) id.0 at (length out.old) }
        requires readable { IsReadable (log_of (seat_link self.old).mine) id.0 at (length out.old) }
        ensures ok { OnOk result (seat_link self.new ≡ fetched (seat_link self.old) id.0 at out.new) }
        ensures unread { OnErr result (out.new ≡ out.old) }
        ensures bytes { OnOk result (Agrees out.new (cells (length out.old) (λ i. contents_of (seat_link self.old) id.0 (at + i)))) }
        ensures err { OnErr result (seat_link self.new ≡ seat_link self.old) }
        ensures group { self.new.group ≡ self.old.group }
        ensures begins { IsPrefix self.old.pass.seen self.new.pass.seen }
        ensures stopped { IfErr result (λ stop. ending_of (events_of self.new.pass.seen) ≡ Stopped stop) }
    {
        what_a_group_sees();
        let mut turn = take(rt, back, &mut self.pass, self.group);
        let answer = turn.value.read_host(self.group, id, at, out);
        put(back, &mut self.pass, turn);
        answer
    }

    /// Gives an object away, also where the back was stopped.
    pub(crate) fn give<R: Wait>(&mut self, rt: &R, back: &Turnstile<Shared<D>>, item: Garbage)
        requires name { back.now.name ≡ N.name }
        requires may { MayGive (seat_link self.old) item.handle.0 item.uses }
        ensures link { seat_link self.new ≡ gave (seat_link self.old) item.handle.0 item.uses }
        ensures group { self.new.group ≡ self.old.group }
        ensures begins { IsPrefix self.old.pass.seen self.new.pass.seen }
    {
        let mut turn = take(rt, back, &mut self.pass, self.group);
        turn.value.give(self.group, item);
        put(back, &mut self.pass, turn);
    }

    /// Lets an object go, also where the back was stopped.
    pub(crate) fn abandon<R: Wait>(&mut self, rt: &R, back: &Turnstile<Shared<D>>, handle: Handle)
        requires name { back.now.name ≡ N.name }
        requires held { (seat_link self.old).held handle.0 ≡ true }
        ensures link { seat_link self.new ≡ abandoned (seat_link self.old) handle.0 }
        ensures group { self.new.group ≡ self.old.group }
        ensures begins { IsPrefix self.old.pass.seen self.new.pass.seen }
    {
        let mut turn = take(rt, back, &mut self.pass, self.group);
        turn.value.abandon(self.group, handle);
        put(back, &mut self.pass, turn);
    }

    /// Stops the back for want of memory, unless it was stopped before, by one turn. The group sees what it saw.
    pub fn stop_for_memory<R: Wait>(&mut self, rt: &R, back: &Turnstile<Shared<D>>)
        requires { back.now.name ≡ N.name }
        ensures link { seat_link self.new ≡ seat_link self.old }
        ensures stopped { is_stopped (ending_of (events_of self.new.pass.seen)) ≡ true }
        ensures group { self.new.group ≡ self.old.group }
        ensures begins { IsPrefix self.old.pass.seen self.new.pass.seen }
    {
        what_a_group_sees();
        let mut turn = take(rt, back, &mut self.pass, self.group);
        turn.value.stop_for_memory();
        put(back, &mut self.pass, turn);
    }
}
