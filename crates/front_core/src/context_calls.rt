// The calls that create, destroy and take contexts: each context has an index for its batches.
ghost use Rattle.std.specs.Prelude.{◌≡◌, ℕ, ◌+◌, ◌*◌, ◌==◌, ◌<◌, ◌≤◌, true, false, IfOk, IfSome, IfNone, OnOk, OnErr, is_err};
ghost use Rattle.vk_device.specs.Faults.{HasCause};
ghost use Rattle.tables.specs.Table.{any_value, has, only, with_entry, IsOrdered};
ghost use Rattle.back_core.specs.Needs.{IsOfGroup};
ghost use Rattle.front_model.specs.Stands.{Holds, Owns, no_hands};
ghost use Rattle.front_moves.specs.Core.{face};
ghost use Rattle.front_core.specs.Share.{MayCall, Stays, IsCarriedOut, HaveIndexes, IsLowestFree, replaced_index};
ghost use Rattle.front_core.specs.Polls.{HasFlushedAll};
ghost use Rattle.sync_serials.specs.Serials.{newest_of};
ghost use Rattle.back_core.specs.Frame.{ActsAtBack, NoBatch};
ghost use Rattle.front_core.specs.Economy.{IsNeededAnd, IsTrueReason, IsSwitch};

use crate::share::Share;
use crate::state_calls_come_to::state_calls_come_to;
use back_core::BackLink;
use gl_calls::{Call, Reply};
use gl_model::Context;
use gl_state::current_number;
use sync_serials::SyncSerials;
use tables::Table;
use vk_types::{Reason, SerialIndex, Stop};

/// Whether a context has an index.
fn has_index(serials: &Table<SerialIndex>, index: u8) -> bool
    ensures value { result ≡ any_value (λ i. i == index) serials.now }
    ensures ordered { IsOrdered serials.now }
{
    serials.iter().any(|e| e.1.get() == index)
}

/// The lowest index of a group that no context has, if there is one.
fn free_index(serials: &Table<SerialIndex>, group: u8) -> Option<SerialIndex>
    requires { group < 8 }
    ensures own { IfSome result (λ i. IsOfGroup group i) }
    ensures free { IfSome result (λ i. any_value (λ j. j == i) serials.now ≡ false) }
    ensures lowest { IfSome result (λ i. (k : ℕ) → 8 * group ≤ k → k < i → any_value (λ j. j == k) serials.now ≡ true) }
    ensures none { IfNone result ((k : ℕ) → IsOfGroup group k → any_value (λ j. j == k) serials.now ≡ true) }
    ensures ordered { IfNone result (IsOrdered serials.now) }
{
    for place in 0..8u8 {
        let index = 8 * group + place;
        if !has_index(serials, index) {
            return Some(SerialIndex::new(index));
        }
    }
    None
}

/// Takes out the indexes of contexts that there no longer are.
fn drop_indexes(serials: &mut Table<SerialIndex>, contexts: &Table<Context>)
    ensures { serials.new ≡ only (λ n. has n contexts.now) serials.old }
{
    serials.retain(|n, _| contexts.contains_key(*n));
}

impl Share {
    /// The index of the context that a thread gives up as it takes another, or none.
    fn given_up(&self, thread: u32, number: u32) -> Option<SerialIndex>
        ensures { result ≡ replaced_index self.now.state self.now.serials thread number }
    {
        let current = current_number(&self.state.group().contexts, thread)?;
        if current == number {
            return None;
        }
        self.serials.get(current).copied()
    }

    /// Hands what the context that a thread gives up recorded to the back.
    fn switch<L: BackLink>(
        &mut self,
        link: &mut L,
        syncs: &SyncSerials,
        thread: u32,
        number: u32,
    ) -> Result<(), Stop>
        requires indexes { HaveIndexes self.old.state.contexts self.old.serials (face self.old.core).group }
        requires holds { Holds (face self.old.core) no_hands (L.state link.old) }
        requires tables { syncs.now.group ≡ (face self.old.core).group }
        requires newest { (i : ℕ) → IsOfGroup (face self.old.core).group i → newest_of syncs.now i ≤ (face self.old.core).last i + 1 }
        ensures moved { OnOk result (Stays (face self.old.core) (face self.new.core) (L.state link.old) (L.state link.new)) }
        ensures flushed { OnOk result (IfSome (replaced_index self.old.state self.old.serials thread number) (HasFlushedAll (face self.new.core) syncs.now)) }
        ensures state { self.new.state ≡ self.old.state }
        ensures serials { self.new.serials ≡ self.old.serials }
        ensures group { (face self.new.core).group ≡ (face self.old.core).group }
        ensures err { OnErr result (Owns (face self.new.core).objects (L.state link.new)) }
        ensures cause { HasCause (L.faults link.old) (L.faults link.new) result }
        ensures at_back { ActsAtBack L.state L.told link.old link.new 0 false (is_err result)
            (IsNeededAnd syncs.now (IsSwitch self.old.state self.old.serials thread number)) }
    {
        match self.given_up(thread, number) {
            Some(index) => self.flush_context(link, syncs, index, Reason::Switch),
            None => Ok(()),
        }
    }

    /// Creates a context, which gets the lowest index of the group that no context has (EGL 1.5, Creating Rendering Contexts).
    pub(crate) fn create_context<L: BackLink>(
        &mut self,
        link: &mut L,
        thread: u32,
        number: u16,
    ) -> Result<Reply, Stop>
        requires indexes { HaveIndexes self.old.state.contexts self.old.serials (face self.old.core).group }
        requires may { MayCall (face self.old.core) (L.state link.old) self.old.state thread (Call.CreateContext number) }
        ensures done { IfOk result (λ reply. IsCarriedOut (face self.old.core) (face self.new.core) (L.state link.old) (L.state link.new) self.old.state self.new.state thread (Call.CreateContext number) reply) }
        ensures indexes { OnOk result (HaveIndexes self.new.state.contexts self.new.serials (face self.new.core).group) }
        ensures lowest { OnOk result ((i : ℕ) × (self.new.serials ≡ with_entry number i self.old.serials) × IsLowestFree (face self.old.core).group self.old.serials i) }
        ensures group { (face self.new.core).group ≡ (face self.old.core).group }
        ensures err { OnErr result (Owns (face self.new.core).objects (L.state link.new)) }
        ensures cause { HasCause (L.faults link.old) (L.faults link.new) result }
        ensures at_back { ActsAtBack L.state L.told link.old link.new 0 false (is_err result) NoBatch }
    {
        state_calls_come_to();
        let Some(index) = free_index(&self.serials, self.core.group()) else {
            unreachable!();
        };
        match self.serials.insert(u32::from(number), index) {
            Ok(()) => match self.state_call(link, thread, &Call::CreateContext { number }) {
                Ok(reply) => Ok(reply),
                Err(stop) => Err(stop),
            },
            Err(_) => Err(Stop::Memory),
        }
    }

    /// Destroys a context, or marks one that is current (EGL 1.5, Destroying Rendering Contexts).
    pub(crate) fn destroy_context<L: BackLink>(
        &mut self,
        link: &mut L,
        thread: u32,
        number: u16,
    ) -> Result<Reply, Stop>
        requires indexes { HaveIndexes self.old.state.contexts self.old.serials (face self.old.core).group }
        requires may { MayCall (face self.old.core) (L.state link.old) self.old.state thread (Call.DestroyContext number) }
        ensures done { IfOk result (λ reply. IsCarriedOut (face self.old.core) (face self.new.core) (L.state link.old) (L.state link.new) self.old.state self.new.state thread (Call.DestroyContext number) reply) }
        ensures indexes { OnOk result (HaveIndexes self.new.state.contexts self.new.serials (face self.new.core).group) }
        ensures left { OnOk result (self.new.serials ≡ only (λ n. has n self.new.state.contexts) self.old.serials) }
        ensures group { (face self.new.core).group ≡ (face self.old.core).group }
        ensures err { OnErr result (Owns (face self.new.core).objects (L.state link.new)) }
        ensures cause { HasCause (L.faults link.old) (L.faults link.new) result }
        ensures at_back { ActsAtBack L.state L.told link.old link.new 0 false (is_err result) NoBatch }
    {
        match self.state_call(link, thread, &Call::DestroyContext { number }) {
            Ok(reply) => {
                drop_indexes(&mut self.serials, &self.state.group().contexts);
                Ok(reply)
            }
            Err(stop) => Err(stop),
        }
    }

    /// Makes a context current on a thread, or none. What the replaced one recorded is handed to the back (EGL 1.5, Binding
    /// Contexts and Drawables).
    pub(crate) fn make_current<L: BackLink>(
        &mut self,
        link: &mut L,
        syncs: &SyncSerials,
        thread: u32,
        number: u16,
    ) -> Result<Reply, Stop>
        requires indexes { HaveIndexes self.old.state.contexts self.old.serials (face self.old.core).group }
        requires may { MayCall (face self.old.core) (L.state link.old) self.old.state thread (Call.MakeCurrent number) }
        requires tables { syncs.now.group ≡ (face self.old.core).group }
        requires newest { (i : ℕ) → IsOfGroup (face self.old.core).group i → newest_of syncs.now i ≤ (face self.old.core).last i + 1 }
        ensures done { IfOk result (λ reply. IsCarriedOut (face self.old.core) (face self.new.core) (L.state link.old) (L.state link.new) self.old.state self.new.state thread (Call.MakeCurrent number) reply) }
        ensures indexes { OnOk result (HaveIndexes self.new.state.contexts self.new.serials (face self.new.core).group) }
        ensures left { OnOk result (self.new.serials ≡ only (λ n. has n self.new.state.contexts) self.old.serials) }
        ensures flushed { OnOk result (IfSome (replaced_index self.old.state self.old.serials thread number) (HasFlushedAll (face self.new.core) syncs.now)) }
        ensures group { (face self.new.core).group ≡ (face self.old.core).group }
        ensures err { OnErr result (Owns (face self.new.core).objects (L.state link.new)) }
        ensures cause { HasCause (L.faults link.old) (L.faults link.new) result }
        ensures at_back { ActsAtBack L.state L.told link.old link.new 0 false (is_err result)
            (IsNeededAnd syncs.now (IsTrueReason (face self.old.core) self.old.state self.old.serials thread (Call.MakeCurrent number))) }
    {
        match self.switch(link, syncs, thread, u32::from(number)) {
            Ok(()) => match self.state_call(link, thread, &Call::MakeCurrent { number }) {
                Ok(reply) => {
                    drop_indexes(&mut self.serials, &self.state.group().contexts);
                    Ok(reply)
                }
                Err(stop) => Err(stop),
            },
            Err(stop) => Err(stop),
        }
    }
}
