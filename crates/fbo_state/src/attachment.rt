// What is attached.
ghost use Rattle.std.specs.Prelude.{◌≡◌, ◌<◌, ◌≤◌, length, map, slice_set};
ghost use Rattle.gl_model.specs.Bindings.{is_empty, same_attachment};
ghost use Rattle.fbo_state.specs.Framebuffers.{told, without_image};

use arrayvec::ArrayVec;
use gl_objects::ObjectId;

/// What a framebuffer has at an attachment point.
#[derive(Clone, Copy, Debug)]
pub enum Attachment {
    Empty,
    Texture(ObjectId),
    Renderbuffer(ObjectId),
}

/// The blank of an unused place.
impl Default for Attachment {
    ghost use Rattle.fbo_state.specs.declared.attachment.Attachment.TheVariants.{Empty};

    ghost is_default = { λ a. a ≡ Empty };

    fn default() -> Attachment {
        Attachment::Empty
    }
}

/// Four attachments.
pub type Points = ArrayVec<Attachment, 4>;

/// Puts an attachment at a point.
pub fn set_point(points: &mut Points, point: u8, image: Attachment)
    requires { point < length points.old.items }
    ensures { points.new.items ≡ slice_set points.old.items point image }
{
    points.as_mut_slice()[usize::from(point)] = image;
}

/// Whether nothing is attached.
pub fn is_empty(attachment: Attachment) -> bool
    ensures { result ≡ is_empty (told attachment) }
{
    matches!(attachment, Attachment::Empty)
}

/// Whether both are the same image, or both are empty.
pub fn is_same(a: Attachment, b: Attachment) -> bool
    ensures { result ≡ same_attachment (told a) (told b) }
{
    match (a, b) {
        (Attachment::Empty, Attachment::Empty) => true,
        (Attachment::Texture(a), Attachment::Texture(b)) => a.number() == b.number(),
        (Attachment::Renderbuffer(a), Attachment::Renderbuffer(b)) => a.number() == b.number(),
        _ => false,
    }
}

/// An attachment after an image was taken away.
fn without_image(attachment: Attachment, image: Attachment) -> Attachment
    ensures { result ≡ without_image image attachment }
{
    if is_same(attachment, image) {
        Attachment::Empty
    } else {
        attachment
    }
}

/// The points after an image was taken away.
pub fn detached(points: &[Attachment], image: Attachment) -> Points
    requires { length points.now ≤ 4 }
    ensures { result.items ≡ map (without_image image) points.now }
{
    let mut left = Points::new();
    for attachment in points {
        left.push(without_image(*attachment, image));
    }
    left
}
