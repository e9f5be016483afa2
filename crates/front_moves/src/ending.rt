// How the stores of several objects are ended.
ghost use Rattle.std.specs.Prelude.{◌≡◌, ◌≤◌, ◌++◌, map, false};
ghost use Rattle.front_model.specs.declared.object.Object.TheVariants.{Buffer, Texture, Renderbuffer};
ghost use Rattle.front_model.specs.Face.{object_of};
ghost use Rattle.front_model.specs.Stands.{Holds, no_hands};
ghost use Rattle.front_moves.specs.Core.{face};
ghost use Rattle.front_moves.specs.Ending.{HasEnded};
ghost use Rattle.back_core.specs.Frame.{ActsAtBack, NoBatch};

use crate::group_core::Core;
use back_core::BackLink;
use front_model::{Object, StoredKind};

impl Core {
    /// Ends the stores of some buffers, textures and renderbuffers, each where it has one.
    pub fn end_all<L: BackLink>(
        &mut self,
        link: &mut L,
        buffers: &[u32],
        textures: &[u32],
        renderbuffers: &[u32],
    )
        requires holds { Holds (face self.old) no_hands (L.state link.old) }
        ensures ended { HasEnded (face self.old) (face self.new) (L.state link.old) (L.state link.new)
            (map Buffer buffers.now ++ map Texture textures.now ++ map Renderbuffer renderbuffers.now) }
        ensures pending { (face self.new).pending ≡ (face self.old).pending }
        ensures faults { L.faults link.old ≤ L.faults link.new }
        ensures at_back { ActsAtBack L.state L.told link.old link.new 0 false false NoBatch }
    {
        self.end_kind(link, StoredKind::Buffer, buffers);
        self.end_kind(link, StoredKind::Texture, textures);
        self.end_kind(link, StoredKind::Renderbuffer, renderbuffers);
    }

    /// Ends the stores of some objects of a kind.
    fn end_kind<L: BackLink>(&mut self, link: &mut L, kind: StoredKind, numbers: &[u32])
        requires holds { Holds (face self.old) no_hands (L.state link.old) }
        ensures ended { HasEnded (face self.old) (face self.new) (L.state link.old) (L.state link.new) (map (object_of kind) numbers.now) }
        ensures pending { (face self.new).pending ≡ (face self.old).pending }
        ensures faults { L.faults link.old ≤ L.faults link.new }
        ensures at_back { ActsAtBack L.state L.told link.old link.new 0 false false NoBatch }
    {
        for number in numbers {
            self.end(link, Object::of(kind, *number));
        }
    }
}
