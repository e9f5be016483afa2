// The ids of objects.
ghost use Rattle.std.specs.Prelude.{◌≡◌};
ghost use Rattle.gl_objects.specs.Ids.{number_of, key_of};

/// An object of a share group: the place of the object in its table in the low 64 bits, and the number of objects of the
/// kind that were made before it in the high 64 bits. No two objects of a kind have one id, in the whole life of the group.
#[derive(Clone, Copy, Debug, PartialEq, Eq)]
pub struct ObjectId(pub u128);

#[tactic(auto, unfolding(crate::specs::Ids::number_of, crate::specs::Ids::key_of))]
impl ObjectId {
    /// The id of an object at a place, before which so many were made.
    pub fn new(number: u64, key: usize) -> ObjectId
        ensures number { number_of result ≡ number }
        ensures key { key_of result ≡ key }
    {
        ObjectId(number as u128 * 0x1_0000_0000_0000_0000 + key as u128)
    }

    /// How many objects of the kind were made before this one.
    pub fn number(self) -> u64
        ensures { result ≡ number_of self }
    {
        (self.0 / 0x1_0000_0000_0000_0000) as u64
    }

    /// The place of the object in its table.
    pub fn key(self) -> usize
        ensures { result ≡ key_of self }
    {
        (self.0 % 0x1_0000_0000_0000_0000) as usize
    }
}
