// What was known of a front holds still where its group only learned how far the back is.
ghost use Rattle.std.specs.Prelude.{◌≡◌, Option};
ghost use Rattle.gl_model.specs.GroupModel.{GroupModel};
ghost use Rattle.back_core.specs.Link.{Link};
ghost use Rattle.back_core.specs.Answers.{Learns};
ghost use Rattle.front_model.specs.declared.object.Object.{Object};
ghost use Rattle.front_model.specs.Face.{Stored, Face, view};
ghost use Rattle.front_model.specs.Stands.{Hands, Holds, Owns, IsQuiet};
ghost use Rattle.front_model.specs.Wanted.{Stands};

/// A front goes on standing where its link only learned, and shows what it showed.
pub fn fronts_learn()
    ensures holds { (f : Face) (hands : Hands) (s t : Link) → Holds f hands s → Learns s t → Holds f hands t }
    ensures quiet { (f : Face) (s t : Link) (o : Object) → IsQuiet f s o → Learns s t → IsQuiet f t o }
    ensures view { (f : Face) (s t : Link) → Learns s t → view f t ≡ view f s }
    ensures stands { (f : Face) (s t : Link) (state : GroupModel) → Stands f s state → Learns s t → Stands f t state }
    ensures owns { (objects : Object → Option Stored) (s t : Link) → Owns objects s → Learns s t → Owns objects t }
{}
