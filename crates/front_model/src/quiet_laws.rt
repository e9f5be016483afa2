// What an object shows that the host may use.
ghost use Rattle.std.specs.Prelude.{◌≡◌};
ghost use Rattle.back_core.specs.Link.{Link, contents_of};
ghost use Rattle.front_model.specs.declared.object.Object.{Object};
ghost use Rattle.front_model.specs.Face.{Face, view};
ghost use Rattle.front_model.specs.Stands.{IsQuiet};

/// An object that is quiet shows what the group had done with its store: nothing waits on it, and nothing pending touches it.
pub fn quiet_objects_show()
    ensures { (f : Face) (s : Link) (o : Object) (quiet : IsQuiet f s o) → contents_of s quiet.stored.handle ≡ view f s o }
{}
