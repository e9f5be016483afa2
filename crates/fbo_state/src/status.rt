// The status of a framebuffer, and the area that its images have in common.
ghost use Rattle.std.specs.Prelude.{◌≡◌, ◌&&◌, not, is_none, map, List, Option, ◌∷◌};
ghost use Rattle.gl_model.specs.declared.objects.ImageInfo.{ImageInfo};
ghost use Rattle.gl_model.specs.Bindings.{is_empty, has_twin, same_attachment};
ghost use Rattle.fbo_state.specs.Framebuffers.{told, status_at, stored, least_sides};

use crate::attachment::{Attachment, is_empty, is_same};
use formats::FbStatus;
use gl_model::ImageInfo;

/// Whether an image without storage is attached.
fn lacks_storage(attachment: Attachment, info: Option<ImageInfo>) -> bool
    ensures { result ≡ (not (is_empty (told attachment)) && is_none info) }
{
    !is_empty(attachment) && info.is_none()
}

/// Whether this is an image that is the same as the other.
fn is_twin(attachment: Attachment, other: Attachment) -> bool
    ensures { result ≡ (not (is_empty (told attachment)) && same_attachment (told attachment) (told other)) }
{
    !is_empty(attachment) && is_same(attachment, other)
}

/// Whether one image is at two points.
fn has_twin(points: &[Attachment; 4]) -> bool
    ensures { result ≡ has_twin (map told points.now) }
{
    let [a, b, c, d] = *points;
    is_twin(a, b)
        || is_twin(a, c)
        || is_twin(a, d)
        || is_twin(b, c)
        || is_twin(b, d)
        || is_twin(c, d)
}

/// The status of a framebuffer other than 0.
pub fn status(points: &[Attachment; 4], infos: &[Option<ImageInfo>; 4]) -> FbStatus
    ensures { result ≡ status_at infos.now points.now }
{
    let [a, b, c, d] = *points;
    let [e, f, g, h] = *infos;
    if lacks_storage(a, e) || lacks_storage(b, f) || lacks_storage(c, g) || lacks_storage(d, h) {
        return FbStatus::IncompleteAttachment;
    }
    if is_empty(a) && is_empty(b) && is_empty(c) && is_empty(d) {
        return FbStatus::IncompleteMissingAttachment;
    }
    if has_twin(points) {
        return FbStatus::Unsupported;
    }
    FbStatus::Complete
}

/// The lesser sides of one more image.
fn with_image(sides: Option<(u32, u32)>, info: Option<ImageInfo>) -> Option<(u32, u32)>
    ensures { (rest : List (Option ImageInfo)) → sides ≡ least_sides (stored rest) → result ≡ least_sides (stored (info ∷ rest)) }
{
    let Some(image) = info else {
        return sides;
    };
    match sides {
        Some((width, height)) => Some((image.width.min(width), image.height.min(height))),
        None => Some((image.width, image.height)),
    }
}

/// The least width and the least height of the images that have storage.
pub fn common_area(infos: &[Option<ImageInfo>; 4]) -> Option<(u32, u32)>
    ensures { result ≡ least_sides (stored infos.now) }
{
    let mut sides = None;
    for k in (0..4).rev() {
        sides = with_image(sides, infos[k]);
    }
    sides
}
