// The front of a share group: its calls in turn, and their history.
ghost use Rattle.std.specs.Prelude.{◌≡◌, ◌+◌, ◌≤◌, ◌<◌, true, false, Contains, None, [], ◌∷◌, ◌++◌, IfOk, IfSome, OnOk, OnErr, is_err};
ghost use Rattle.std.specs.Vec.{vec_len, vec_capacity};
ghost use Rattle.vk_device.specs.Faults.{HasCause};
ghost use Rattle.gl_model.specs.Refusal.{refusal};
ghost use Rattle.gl_model.specs.Sizes.{HasItsData};
ghost use Rattle.front_model.specs.Stands.{Owns, BarriersAreLicensed};
ghost use Rattle.front_moves.specs.Core.{face};
ghost use Rattle.front_core.specs.Share.{HasOrigin, is_built, is_map_read};
ghost use Rattle.front_core.specs.Polls.{Polls, Flushes};
ghost use Rattle.front_core.specs.Front.{FrontStands, IsNewFront, HasAnswered, HasStopped, IsClosed, entry_of};
ghost use Rattle.back_core.specs.Frame.{ActsAtBack, NoBatch};
ghost use Rattle.front_core.specs.Economy.{MayHandOver, IsEndingBatch, due_of, waits_of};

use crate::histories_come_to::histories_come_to;
use crate::share::Share;
use back_core::BackLink;
use front_moves::Core;
use gl_calls::{Call, Entry, Reply};
use gl_state::SharedState;
use std::alloc::{AllocError, Global};
use std::marker::Model;
use sync_serials::SyncSerials;
use tables::Table;
use vk_types::Stop;

/// One share group: what it has on the device, its state, and the calls that were answered. A front is to be ended by `abandon`.
pub struct Front {
    share: Share,
    syncs: SyncSerials,
    threads: Vec<u32>,
    history: Vec<Entry>,
    stopped: bool,
    closed: bool,
}

impl Model for Front {
    ghost use Rattle.front_core.specs.Front.{FrontModel};

    ghost Value = { FrontModel };

    ghost view = { λ f. record { core = f.share.core; state = f.share.state; serials = f.share.serials; syncs = f.syncs; threads = f.threads.items; history = f.history.items; stopped = f.stopped; closed = f.closed } };
}

/// A copy of a call, and room in a history for its entry.
fn prepared(history: &mut Vec<Entry>, alloc: Global, call: &Call) -> Result<Call, AllocError>
    ensures items { history.new.items ≡ history.old.items }
    ensures room { OnOk result (vec_len history.new < vec_capacity history.new) }
    ensures copy { IfOk result (λ copy. copy ≡ call.now) }
{
    history.reserve(1)?;
    call.copy(alloc)
}

/// Puts the entry of a call at the end of a history that has room for it, and gives the reply back.
fn note(
    history: &mut Vec<Entry>,
    alloc: Global,
    thread: u32,
    line: u32,
    call: Call,
    reply: Reply,
) -> Result<Reply, AllocError>
    requires { vec_len history.old < vec_capacity history.old }
    ensures ok { OnOk result (history.new.items ≡ history.old.items ++ entry_of thread line call reply ∷ []) }
    ensures reply { IfOk result (λ given. given ≡ reply) }
    ensures err { OnErr result (history.new.items ≡ history.old.items) }
{
    let copy = reply.copy(alloc)?;
    history.push_reserved(Entry {
        thread,
        line,
        call,
        reply: copy,
    });
    Ok(reply)
}

impl Front {
    /// The front of a group, 0 to 7, with these threads. It stands on each new link of the group.
    pub fn new(alloc: Global, group: u8, threads: &[u32]) -> Result<Front, AllocError>
        requires low { group < 8 }
        ensures { IfOk result (λ front. IsNewFront front group threads.now) }
    {
        histories_come_to();
        let state = SharedState::new(alloc, threads)?;
        let threads = Vec::from_slice(alloc, threads)?;
        Ok(Front {
            share: Share {
                alloc,
                core: Core::new(alloc, group),
                state,
                serials: Table::new(alloc),
            },
            syncs: SyncSerials::new(alloc, group),
            threads,
            history: Vec::new(alloc),
            stopped: false,
            closed: false,
        })
    }

    /// Answers a call that a thread makes on a line of its trace, and notes it in the history. After `Lost` or `Memory` the front is
    /// stopped, and its history is that from before the call.
    pub fn call<L: BackLink>(
        &mut self,
        link: &mut L,
        thread: u32,
        line: u32,
        call: &Call,
    ) -> Result<Reply, Stop>
        requires stands { FrontStands self.old (L.state link.old) }
        requires declared { Contains self.old.threads thread }
        requires built { is_built call.now ≡ true }
        requires its_data { HasItsData call.now }
        ensures ok { IfOk result (λ reply. HasAnswered self.old self.new (L.state link.new) thread line call.now reply) }
        ensures origin { IfOk result (λ reply. is_map_read call.now ≡ true → refusal self.old.state thread call.now ≡ None → HasOrigin (L.state link.old) (L.state link.new) reply) }
        ensures polls { IfOk result (λ reply. refusal self.old.state thread call.now ≡ None → Polls self.old.syncs (L.state link.old) (L.state link.new) call.now reply) }
        ensures flushes { IfOk result (λ reply. refusal self.old.state thread call.now ≡ None →
            Flushes self.old.state self.old.serials self.old.syncs thread call.now (face self.new.core) (L.state link.new) reply) }
        ensures err { OnErr result (HasStopped self.old self.new (L.state link.new)) }
        ensures cause { HasCause (L.faults link.old) (L.faults link.new) result }
        ensures at_back { ActsAtBack L.state L.told link.old link.new (due_of self.old.state thread call.now) (waits_of self.old.state thread call.now) (is_err result)
            (MayHandOver (face self.old.core) self.old.state self.old.serials self.old.syncs thread call.now) }
        ensures licensed { BarriersAreLicensed (L.state link.new) }
    {
        histories_come_to();
        self.share.state.objects_are_referred_to();
        let Ok(asked) = prepared(&mut self.history, self.share.alloc, call) else {
            self.stopped = true;
            return Err(Stop::Memory);
        };
        let reply = match self.share.answer(link, &mut self.syncs, thread, call) {
            Ok(reply) => reply,
            Err(stop) => {
                self.stopped = true;
                return Err(stop);
            }
        };
        match note(
            &mut self.history,
            self.share.alloc,
            thread,
            line,
            asked,
            reply,
        ) {
            Ok(reply) => Ok(reply),
            Err(_) => {
                self.stopped = true;
                Err(Stop::Memory)
            }
        }
    }

    /// The calls that were answered, in order, with their replies.
    pub fn history(&self) -> &[Entry]
        ensures { result.now ≡ self.now.history }
    {
        self.history.as_slice()
    }

    /// Whether a call or the closing ended by `Lost` or `Memory`.
    pub fn is_stopped(&self) -> bool
        ensures { result ≡ self.now.stopped }
    {
        self.stopped
    }

    /// Flushes each context and gives every handle away. The front is closed from now on, and its group holds nothing.
    pub fn close<L: BackLink>(&mut self, link: &mut L) -> Result<(), Stop>
        requires stands { FrontStands self.old (L.state link.old) }
        ensures ok { OnOk result (IsClosed self.old self.new (L.state link.new)) }
        ensures err { OnErr result (HasStopped self.old self.new (L.state link.new)) }
        ensures cause { HasCause (L.faults link.old) (L.faults link.new) result }
        ensures at_back { ActsAtBack L.state L.told link.old link.new 0 false (is_err result) (IsEndingBatch self.old.syncs) }
        ensures licensed { BarriersAreLicensed (L.state link.new) }
    {
        histories_come_to();
        match self.share.flush_all(link, &self.syncs) {
            Ok(()) => match self.share.core.close(link) {
                Ok(()) => {
                    self.closed = true;
                    Ok(())
                }
                Err(stop) => {
                    self.stopped = true;
                    Err(stop)
                }
            },
            Err(stop) => {
                self.stopped = true;
                Err(stop)
            }
        }
    }

    /// Ends a front, and gives its history. Each handle that it has still is let go. This takes no memory.
    pub fn abandon<L: BackLink>(self, link: &mut L) -> Vec<Entry>
        requires owns { Owns (face self.core).objects (L.state link.old) }
        ensures history { result.items ≡ self.history }
        ensures rest { L.state link.new ≡ record (L.state link.old) { held = (L.state link.new).held } }
        ensures faults { L.faults link.old ≤ L.faults link.new }
        ensures at_back { ActsAtBack L.state L.told link.old link.new 0 false false NoBatch }
    {
        let Front {
            share,
            syncs: _,
            threads: _,
            history,
            stopped: _,
            closed: _,
        } = self;
        let Share {
            alloc: _,
            core,
            state: _,
            serials: _,
        } = share;
        core.abandon(link);
        history
    }
}
