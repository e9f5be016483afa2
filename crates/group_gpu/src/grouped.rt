// The front of a share group with the group's seat at the back: what lies behind the turnstile of the group.
ghost use Rattle.std.specs.Prelude.{◌≡◌, ◌+◌, [], ◌∷◌, ◌++◌, true, false, None, is_err, Contains, Err, IfOk, OnOk, OnErr};
ghost use Rattle.std.specs.List.{All};
ghost use Rattle.vk_types.specs.declared.stops.Stop.TheVariants.{Lost};
ghost use Rattle.vk_device.specs.Faults.{HasCause};
ghost use Rattle.gl_model.specs.Refusal.{refusal};
ghost use Rattle.gl_model.specs.Sizes.{HasItsData};
ghost use Rattle.gl_model.specs.Legal.{IsLegal};
ghost use Rattle.back_core.specs.declared.ending.Ending.TheVariants.{Stopped};
ghost use Rattle.back_core.specs.Back.{ending_of, is_stopped};
ghost use Rattle.back_core.specs.Frame.{AtBack, ActsAtBack};
ghost use Rattle.front_model.specs.Stands.{Owns, BarriersAreLicensed};
ghost use Rattle.front_moves.specs.Core.{face};
ghost use Rattle.front_core.specs.Share.{HasOrigin, is_built, is_map_read};
ghost use Rattle.front_core.specs.Polls.{Polls, Flushes};
ghost use Rattle.front_core.specs.Economy.{MayHandOver, IsEndingBatch, due_of, waits_of};
ghost use Rattle.front_core.specs.Front.{FrontStands, HasAnswered, HasStopped, IsClosed};
ghost use Rattle.shared_gpu.specs.Notes.{events_of};
ghost use Rattle.shared_gpu.specs.Seats.{seat_link};
ghost use Rattle.group_gpu.specs.Groups.{GroupStands, WasClosed};

use crate::NotedCall;
use back_core::BackLink;
use front_core::{Front, fronts_license_barriers};
use gl_calls::{Call, Entry, Reply};
use shared_gpu::{Seat, Seated, Shared};
use std::marker::Model;
use std::sync::Wait;
use turnstile::{Chronicle, Naming, Turnstile};
use vk_device::Device;
use vk_types::Stop;

/// A front with its group's seat at the back that `N` names. The front stands on what the seat's pass has seen, whatever other
/// groups and the workers do at the back meanwhile, or it was stopped.
pub struct Grouped<D: Device, N: Naming> {
    front: Front,
    seat: Seat<D, N>,
}

impl<D: Device, N: Naming> Model for Grouped<D, N> {
    ghost use Rattle.group_gpu.specs.Views.{GroupedModel};

    ghost Value = { GroupedModel };

    ghost use Rattle.shared_gpu.specs.Seats.{seat_link};
    ghost use Rattle.group_gpu.specs.Groups.{GroupStands};

    ghost view = { λ g. record { front = g.front; seat = g.seat } };

    ghost invariant = { λ g. GroupStands g.front (seat_link g.seat) };
}

impl<D: Device, N: Naming> Chronicle for Grouped<D, N> {
    ghost use Rattle.group_gpu.specs.Groups.{names_of, notes_of};

    type Entry = NotedCall;

    ghost history = { λ g. notes_of g.seat.group g.front.threads g.front.history };

    ghost names = { names_of };

    ghost published = { λ g word. 0 };

    fn count(&self) -> u64 {
        self.front.history().len() as u64 + 1
    }

    fn published(&self, word: u32) -> u64 {
        let _ = word;
        0
    }
}

impl<D: Device, N: Naming> Grouped<D, N> {
    /// A group that was asked nothing, whose front stands on what its seat's pass has seen, as a new front does where that pass
    /// has no entry.
    pub fn new(front: Front, seat: Seat<D, N>) -> Grouped<D, N>
        requires stands { FrontStands front (seat_link seat) }
        requires empty { front.history ≡ [] }
        ensures front { result.front ≡ front }
        ensures seat { result.seat ≡ seat }
    {
        fronts_license_barriers();
        Grouped { front, seat }
    }

    /// Whether a call ended by `Lost` or `Memory`.
    pub fn is_stopped(&self) -> bool
        ensures { result ≡ self.now.front.stopped }
    {
        self.front.is_stopped()
    }

    /// The calls that were answered. They are legal, also where the front was stopped, and of threads of the group alone.
    pub fn history(&self) -> &[Entry]
        ensures history { result.now ≡ self.now.front.history }
        ensures legal { IsLegal self.now.front.threads self.now.front.history }
        ensures declared { All (λ e. Contains self.now.front.threads e.thread) self.now.front.history }
    {
        self.front.history()
    }

    /// Answers a call of a thread of the group. After `Lost` or `Memory` the front is stopped, and the back too: one that was not
    /// stopped before is stopped for want of memory.
    pub fn call<R: Wait>(
        self,
        rt: &R,
        back: &Turnstile<Shared<D>>,
        thread: u32,
        line: u32,
        call: &Call,
    ) -> (Grouped<D, N>, Result<Reply, Stop>)
        requires name { back.now.name ≡ N.name }
        requires running { self.front.stopped ≡ false }
        requires declared { Contains self.front.threads thread }
        requires built { is_built call.now ≡ true }
        requires its_data { HasItsData call.now }
        ensures ok { IfOk result.1 (λ reply. HasAnswered self.front result.0.front (seat_link result.0.seat) thread line call.now reply) }
        ensures origin { IfOk result.1 (λ reply. is_map_read call.now ≡ true → refusal self.front.state thread call.now ≡ None →
            HasOrigin (seat_link self.seat) (seat_link result.0.seat) reply) }
        ensures polls { IfOk result.1 (λ reply. refusal self.front.state thread call.now ≡ None →
            Polls self.front.syncs (seat_link self.seat) (seat_link result.0.seat) call.now reply) }
        ensures flushes { IfOk result.1 (λ reply. refusal self.front.state thread call.now ≡ None →
            Flushes self.front.state self.front.serials self.front.syncs thread call.now (face result.0.front.core)
            (seat_link result.0.seat) reply) }
        ensures err { OnErr result.1 (HasStopped self.front result.0.front (seat_link result.0.seat)) }
        ensures threads { result.0.front.threads ≡ self.front.threads }
        ensures group { result.0.seat.group ≡ self.seat.group }
        ensures lost { result.1 ≡ Err Lost → ending_of (events_of result.0.seat.pass.seen) ≡ Stopped Lost }
        ensures stopped { OnErr result.1 (is_stopped (ending_of (events_of result.0.seat.pass.seen)) ≡ true) }
        ensures at_back { AtBack (seat_link self.seat) (seat_link result.0.seat) None None (due_of self.front.state thread call.now)
            (waits_of self.front.state thread call.now) (is_err result.1)
            (MayHandOver (face self.front.core) self.front.state self.front.serials self.front.syncs thread call.now) }
        ensures licensed { BarriersAreLicensed (seat_link result.0.seat) }
    {
        let Grouped { mut front, seat } = self;
        let mut link = Seated::new(rt, back, seat);
        let answer = front.call(&mut link, thread, line, call);
        let seat = stop_back(rt, back, link.into_seat(), &answer);
        (Grouped { front, seat }, answer)
    }

    /// Ends the group: a front that runs is closed, and each handle that is left is let go. Where the closing ends early the back
    /// is stopped.
    pub fn end<R: Wait>(
        self,
        rt: &R,
        back: &Turnstile<Shared<D>>,
    ) -> (Vec<Entry>, Seat<D, N>, Result<(), Stop>)
        requires name { back.now.name ≡ N.name }
        ensures history { result.0.items ≡ self.front.history }
        ensures legal { IsLegal self.front.threads result.0.items }
        ensures declared { All (λ e. Contains self.front.threads e.thread) result.0.items }
        ensures closed { OnOk result.2 (self.front.stopped ≡ false → WasClosed self.front (seat_link result.1)) }
        ensures licensed { BarriersAreLicensed (seat_link result.1) }
        ensures group { result.1.group ≡ self.seat.group }
        ensures lost { result.2 ≡ Err Lost → ending_of (events_of result.1.pass.seen) ≡ Stopped Lost }
        ensures stopped { OnErr result.2 (is_stopped (ending_of (events_of result.1.pass.seen)) ≡ true) }
        ensures at_back { AtBack (seat_link self.seat) (seat_link result.1) None None 0 false (is_err result.2)
            (IsEndingBatch self.front.syncs) }
    {
        let Grouped { mut front, seat } = self;
        let mut link = Seated::new(rt, back, seat);
        let answer = close_running(&mut front, &mut link);
        let history = front.abandon(&mut link);
        let seat = stop_back(rt, back, link.into_seat(), &answer);
        (history, seat, answer)
    }
}

// Closes a front that was not stopped.
fn close_running<L: BackLink>(front: &mut Front, link: &mut L) -> Result<(), Stop>
    requires { GroupStands front.old (L.state link.old) }
    ensures owns { Owns (face front.new.core).objects (L.state link.new) }
    ensures history { front.new.history ≡ front.old.history }
    ensures closed { OnOk result (front.old.stopped ≡ false → IsClosed front.old front.new (L.state link.new)) }
    ensures licensed { BarriersAreLicensed (L.state link.new) }
    ensures cause { HasCause (L.faults link.old) (L.faults link.new) result }
    ensures at_back { ActsAtBack L.state L.told link.old link.new 0 false (is_err result) (IsEndingBatch front.old.syncs) }
{
    if front.is_stopped() {
        return Ok(());
    }
    front.close(link)
}

// Stops the back where the group found no memory, so that all its threads and the workers learn of it.
fn stop_back<D: Device, N: Naming, R: Wait, T>(
    rt: &R,
    back: &Turnstile<Shared<D>>,
    mut seat: Seat<D, N>,
    answer: &Result<T, Stop>,
) -> Seat<D, N>
    requires name { back.now.name ≡ N.name }
    requires lost { answer.now ≡ Err Lost → ending_of (events_of seat.pass.seen) ≡ Stopped Lost }
    ensures link { seat_link result ≡ seat_link seat }
    ensures group { result.group ≡ seat.group }
    ensures lost { answer.now ≡ Err Lost → ending_of (events_of result.pass.seen) ≡ Stopped Lost }
    ensures stopped { OnErr answer.now (is_stopped (ending_of (events_of result.pass.seen)) ≡ true) }
{
    match answer {
        Err(Stop::Memory) => {
            seat.stop_for_memory(rt, back);
            seat
        }
        Err(Stop::Lost) => seat,
        Ok(_) => seat,
    }
}
