// The calls that write no cells: names, bindings, contexts, parameters and errors.
ghost use Rattle.std.specs.Prelude.{◌≡◌, ◌≤◌, true, false, IfOk, OnErr, is_err};
ghost use Rattle.vk_device.specs.Faults.{HasCause};
ghost use Rattle.front_model.specs.Stands.{Owns};
ghost use Rattle.front_moves.specs.Core.{face};
ghost use Rattle.front_core.specs.Share.{MayCall, IsCarriedOut, is_of_state};
ghost use Rattle.back_core.specs.Frame.{ActsAtBack, NoBatch};

use crate::share::Share;
use crate::state_calls_come_to::state_calls_come_to;
use back_core::BackLink;
use gl_calls::{Call, Reply};
use gl_state::{Applied, apply};
use vk_types::Stop;

impl Share {
    /// Carries out a call that writes no cells: the state changes, and the objects that stopped existing are ended.
    pub(crate) fn state_call<L: BackLink>(
        &mut self,
        link: &mut L,
        thread: u32,
        call: &Call,
    ) -> Result<Reply, Stop>
        requires which { is_of_state call.now ≡ true }
        requires may { MayCall (face self.old.core) (L.state link.old) self.old.state thread (call.now) }
        ensures done { IfOk result (λ reply. IsCarriedOut (face self.old.core) (face self.new.core) (L.state link.old) (L.state link.new) self.old.state self.new.state thread (call.now) reply) }
        ensures pending { (face self.new.core).pending ≡ (face self.old.core).pending }
        ensures serials { self.new.serials ≡ self.old.serials }
        ensures group { (face self.new.core).group ≡ (face self.old.core).group }
        ensures err { OnErr result (Owns (face self.new.core).objects (L.state link.new)) }
        ensures cause { HasCause (L.faults link.old) (L.faults link.new) result }
        ensures at_back { ActsAtBack L.state L.told link.old link.new 0 false (is_err result) NoBatch }
    {
        state_calls_come_to();
        match apply(self.alloc, &mut self.state, thread, call) {
            Ok(applied) => {
                let Applied {
                    reply,
                    ended,
                    switched: _,
                } = applied;
                self.core.end_all(
                    link,
                    ended.buffers.as_slice(),
                    ended.textures.as_slice(),
                    ended.renderbuffers.as_slice(),
                );
                match reply {
                    Some(reply) => Ok(reply),
                    None => unreachable!(),
                }
            }
            Err(_) => Err(Stop::Memory),
        }
    }
}
