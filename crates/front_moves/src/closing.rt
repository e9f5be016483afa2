// How a front ends: each context is flushed and each store given away, or each store is let go.
ghost use Rattle.std.specs.Prelude.{◌≡◌, ℕ, ◌≤◌, [], false, Some, None, OnOk, OnErr, is_err};
ghost use Rattle.vk_device.specs.Faults.{HasCause};
ghost use Rattle.front_model.specs.declared.object.Object.{Object};
ghost use Rattle.front_model.specs.Face.{Stored};
ghost use Rattle.front_model.specs.Stands.{Holds, Owns, no_hands};
ghost use Rattle.front_moves.specs.Core.{face};
ghost use Rattle.front_moves.specs.Ending.{HasClosed};
ghost use Rattle.back_core.specs.Frame.{ActsAtBack, NoBatch};
ghost use Rattle.front_moves.specs.Reasons.{IsEnding};

use crate::closing_comes_to::{abandon_comes_to, close_comes_to};
use crate::group_core::Core;
use crate::stores_come_to::end_comes_to;
use back_core::BackLink;
use garbage::Garbage;
use vk_types::{Reason, SerialIndex, Stop};

impl Core {
    /// Flushes each context, and gives each store away. The group then holds nothing.
    pub fn close<L: BackLink>(&mut self, link: &mut L) -> Result<(), Stop>
        requires holds { Holds (face self.old) no_hands (L.state link.old) }
        ensures closed { OnOk result (HasClosed (face self.new) (L.state link.new)) }
        ensures group { (face self.new).group ≡ (face self.old).group }
        ensures err { OnErr result (Owns (face self.new).objects (L.state link.new)) }
        ensures cause { HasCause (L.faults link.old) (L.faults link.new) result }
        ensures at_back { ActsAtBack L.state L.told link.old link.new 0 false (is_err result) IsEnding }
    {
        close_comes_to();
        match self.flush_each(link) {
            Ok(()) => {
                self.end_each(link);
                Ok(())
            }
            Err(stop) => Err(stop),
        }
    }

    /// Flushes each context of the group.
    fn flush_each<L: BackLink>(&mut self, link: &mut L) -> Result<(), Stop>
        requires holds { Holds (face self.old) no_hands (L.state link.old) }
        ensures holds { OnOk result (Holds (face self.new) no_hands (L.state link.new)) }
        ensures pending { OnOk result ((index : ℕ) → (face self.new).pending index ≡ []) }
        ensures group { (face self.new).group ≡ (face self.old).group }
        ensures err { OnErr result (Owns (face self.new).objects (L.state link.new)) }
        ensures cause { HasCause (L.faults link.old) (L.faults link.new) result }
        ensures at_back { ActsAtBack L.state L.told link.old link.new 0 false (is_err result) IsEnding }
    {
        for place in 0..8u8 {
            let index = SerialIndex::new(8 * self.group + place);
            match self.flush(link, index, Reason::End) {
                Ok(()) => {}
                Err(stop) => return Err(stop),
            }
        }
        Ok(())
    }

    /// Ends the store of each object.
    fn end_each<L: BackLink>(&mut self, link: &mut L)
        requires holds { Holds (face self.old) no_hands (L.state link.old) }
        ensures holds { Holds (face self.new) no_hands (L.state link.new) }
        ensures stored { (o : Object) → (face self.new).objects o ≡ None }
        ensures pending { (face self.new).pending ≡ (face self.old).pending }
        ensures group { (face self.new).group ≡ (face self.old).group }
        ensures faults { L.faults link.old ≤ L.faults link.new }
        ensures at_back { ActsAtBack L.state L.told link.old link.new 0 false false NoBatch }
    {
        end_comes_to();
        while let Some((_, store)) = self.objects.take_first() {
            link.give(store.into_garbage());
        }
    }

    /// Lets each store go, in a run that was stopped. This takes no memory.
    pub fn abandon<L: BackLink>(self, link: &mut L)
        requires owns { Owns (face self).objects (L.state link.old) }
        ensures rest { L.state link.new ≡ record (L.state link.old) { held = (L.state link.new).held } }
        ensures let_go { (o : Object) (x : Stored) → (face self).objects o ≡ Some x → (L.state link.new).held x.handle ≡ false }
        ensures faults { L.faults link.old ≤ L.faults link.new }
        ensures at_back { ActsAtBack L.state L.told link.old link.new 0 false false NoBatch }
    {
        abandon_comes_to();
        let Core {
            alloc: _,
            group: _,
            indexes: _,
            pending: _,
            mut objects,
        } = self;
        while let Some((_, store)) = objects.take_first() {
            let Garbage { handle, uses: _ } = store.into_garbage();
            link.abandon(handle);
        }
        objects.destroy_empty();
    }
}
