// The objects of a share group that hold cells.
ghost use Rattle.std.specs.Prelude.{◌≡◌};
ghost use Rattle.front_model.specs.Face.{object_of};

/// An object that holds cells, by its number among those of its kind. (OpenGL ES 3.0.6, sections 2.10, 3.8 and 4.4.2.)
#[derive(Clone, Copy, Debug, PartialEq, Eq)]
pub enum Object {
    Buffer(u32),
    Texture(u32),
    Renderbuffer(u32),
}

/// The kinds of object that hold cells.
#[derive(Clone, Copy, Debug, PartialEq, Eq)]
pub enum StoredKind {
    Buffer,
    Texture,
    Renderbuffer,
}

impl Object {
    /// The object of a kind that has a number.
    pub fn of(kind: StoredKind, number: u32) -> Object
        ensures { result ≡ object_of kind number }
    {
        match kind {
            StoredKind::Buffer => Object::Buffer(number),
            StoredKind::Texture => Object::Texture(number),
            StoredKind::Renderbuffer => Object::Renderbuffer(number),
        }
    }
}
