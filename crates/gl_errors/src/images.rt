ghost use Rattle.std.specs.Prelude.{◌≡◌, ◌||◌, Some, [], ◌∷◌};
ghost use Rattle.gl_model.specs.RefusalRows.{◌⇒◌, invalid_operation};
ghost use Rattle.gl_model.specs.BufferRows.{is_mapped};
ghost use Rattle.gl_model.specs.ImageRows.{upload_rows};
ghost use Rattle.gl_errors.specs.Decision.{decided};
ghost use Rattle.formats.specs.Texel.{own_pair_of, general_pair_of};
ghost use Rattle.formats.specs.Pairs.{same_pair};
ghost use Rattle.gl_model.specs.ImageRows.{
  tex_storage_rows,
  renderbuffer_storage_rows,
  tex_sub_image_rows,
  copy_tex_sub_image_rows,
  read_pixels_rows,
  is_outside,
  is_bad_offset,
  is_bad_source,
  is_bad_source_pointer,
  is_bad_destination,
  is_bad_destination_pointer,
  pair_texel,
};

use crate::decision::{Decision, refused};
use formats::{
    Format, PixelFormat, PixelStore, PixelType, element_size, general_pair, is_other, is_pair,
    is_same_format, own_pair, row_layout, texel_size,
};
use gl_calls::{FormatWord, GlError, PixelDestination, PixelSource, Reply};
use gl_model::{BufferFacts, ImageInfo};

/// TexStorage2D. `full` says that with the new image the group passes its limit.
pub fn tex_storage(
    levels: i32,
    format: FormatWord,
    width: i32,
    height: i32,
    bound: Option<Option<ImageInfo>>,
    full: bool,
) -> Decision
    ensures { result ≡ decided (tex_storage_rows levels format width height bound full) }
{
    if matches!(format, FormatWord::Other) {
        return refused(GlError::InvalidEnum);
    }
    if levels < 1 || width < 1 || height < 1 || width > 2048 || height > 2048 {
        return refused(GlError::InvalidValue);
    }
    let Some(None) = bound else {
        return refused(GlError::InvalidOperation);
    };
    if full {
        return refused(GlError::OutOfMemory);
    }
    Decision::Accepted
}

/// RenderbufferStorage. `full` says that with the new image the group passes its limit.
pub fn renderbuffer_storage(
    format: FormatWord,
    width: i32,
    height: i32,
    bound: Option<Option<ImageInfo>>,
    full: bool,
) -> Decision
    ensures { result ≡ decided (renderbuffer_storage_rows format width height bound full) }
{
    if matches!(format, FormatWord::Other) {
        return refused(GlError::InvalidEnum);
    }
    if width < 0 || height < 0 || width > 2048 || height > 2048 {
        return refused(GlError::InvalidValue);
    }
    if bound.is_none() {
        return refused(GlError::InvalidOperation);
    }
    if full {
        return refused(GlError::OutOfMemory);
    }
    Decision::Accepted
}

/// Whether a rectangle is not inside an image.
fn outside(x: i32, y: i32, width: i32, height: i32, image: &ImageInfo) -> bool
    ensures { result ≡ is_outside x y width height image.now }
{
    x < 0
        || y < 0
        || (image.width as u64) < x.unsigned_abs() as u64 + width.unsigned_abs() as u64
        || (image.height as u64) < y.unsigned_abs() as u64 + height.unsigned_abs() as u64
}

/// Whether an offset into a buffer does not serve a transfer.
fn bad_offset(at: u64, kind: PixelType, needed: u128, buffer: &BufferFacts) -> bool
    ensures { result ≡ is_bad_offset at kind needed (Some buffer.now) }
{
    at % element_size(kind) != 0 || buffer.size < at || ((buffer.size - at) as u128) < needed
}

/// Whether a buffer is bound and mapped.
fn has_map(buffer: &Option<BufferFacts>) -> bool
    ensures { result ≡ is_mapped buffer.now }
{
    match buffer {
        Some(facts) => facts.map.is_some(),
        None => false,
    }
}

/// What a source of pixels is refused by.
fn check_source(
    from: &PixelSource,
    kind: PixelType,
    needed: u128,
    unpack: &Option<BufferFacts>,
) -> Decision
    ensures { result ≡ decided ((is_bad_source from.now kind needed unpack.now ⇒ invalid_operation) ∷ (is_bad_source_pointer from.now needed unpack.now ⇒ Reply.BadPointer) ∷ []) }
{
    match (from, unpack) {
        (PixelSource::Client { payload }, None) => {
            if (payload.len() as u128) < needed {
                return Decision::Refused(Reply::BadPointer);
            }
            Decision::Accepted
        }
        (PixelSource::Offset(at), Some(buffer)) => {
            if bad_offset(*at, kind, needed, buffer) {
                return refused(GlError::InvalidOperation);
            }
            Decision::Accepted
        }
        _ => Decision::Refused(Reply::BadPointer),
    }
}

/// An upload into an image.
fn upload(
    x: i32,
    y: i32,
    width: i32,
    height: i32,
    pixels: PixelFormat,
    kind: PixelType,
    from: &PixelSource,
    store: &PixelStore,
    unpack: &Option<BufferFacts>,
    image: &ImageInfo,
) -> Decision
    ensures { result ≡ decided (upload_rows x y width height pixels kind from.now store.now unpack.now image.now) }
{
    if outside(x, y, width, height, image) {
        return refused(GlError::InvalidValue);
    }
    if !is_pair(pixels, kind, own_pair(image.format)) {
        return refused(GlError::InvalidOperation);
    }
    if has_map(unpack) {
        return refused(GlError::InvalidOperation);
    }
    let rows = row_layout(
        store,
        texel_size(image.format),
        width.unsigned_abs(),
        height.unsigned_abs(),
    );
    check_source(from, kind, rows.needed, unpack)
}

/// TexSubImage2D.
#[tactic(auto, unfolding(gl_model::specs::ImageRows::tex_sub_image_rows))]
pub fn tex_sub_image(
    x: i32,
    y: i32,
    width: i32,
    height: i32,
    pixels: PixelFormat,
    kind: PixelType,
    from: &PixelSource,
    store: &PixelStore,
    unpack: &Option<BufferFacts>,
    image: Option<ImageInfo>,
) -> Decision
    ensures { result ≡ decided (tex_sub_image_rows x y width height pixels kind from.now store.now unpack.now image) }
{
    if is_other(pixels, kind) {
        return refused(GlError::InvalidEnum);
    }
    if width < 0 || height < 0 {
        return refused(GlError::InvalidValue);
    }
    match image {
        Some(image) => upload(
            x, y, width, height, pixels, kind, from, store, unpack, &image,
        ),
        None => refused(GlError::InvalidOperation),
    }
}

/// CopyTexSubImage2D. Same says that the read image is the texture.
#[tactic(auto, unfolding(gl_model::specs::ImageRows::copy_tex_sub_image_rows))]
pub fn copy_tex_sub_image(
    x: i32,
    y: i32,
    width: i32,
    height: i32,
    complete: bool,
    read: Option<ImageInfo>,
    image: Option<ImageInfo>,
    same: bool,
) -> Decision
    ensures { result ≡ decided (copy_tex_sub_image_rows x y width height complete read image same) }
{
    if width < 0 || height < 0 {
        return refused(GlError::InvalidValue);
    }
    if !complete {
        return refused(GlError::InvalidFramebufferOperation);
    }
    let Some(read) = read else {
        return refused(GlError::InvalidOperation);
    };
    let Some(image) = image else {
        return refused(GlError::InvalidOperation);
    };
    if outside(x, y, width, height, &image) {
        return refused(GlError::InvalidValue);
    }
    if !is_same_format(read.format, image.format) {
        return refused(GlError::InvalidOperation);
    }
    if same {
        return refused(GlError::InvalidOperation);
    }
    Decision::Accepted
}

/// What a destination of pixels is refused by.
fn check_destination(
    to: PixelDestination,
    kind: PixelType,
    needed: u128,
    pack: &Option<BufferFacts>,
) -> Decision
    ensures { result ≡ decided ((is_bad_destination to kind needed pack.now ⇒ invalid_operation) ∷ (is_bad_destination_pointer to pack.now ⇒ Reply.BadPointer) ∷ []) }
{
    match (to, pack) {
        (PixelDestination::Client, None) => Decision::Accepted,
        (PixelDestination::Offset(at), Some(buffer)) => {
            if bad_offset(at, kind, needed, buffer) {
                return refused(GlError::InvalidOperation);
            }
            Decision::Accepted
        }
        _ => Decision::Refused(Reply::BadPointer),
    }
}

/// The bytes of a texel of the client in a pair.
fn texel_of_pair(format: Format, pixels: PixelFormat, kind: PixelType) -> u32
    ensures { result ≡ pair_texel format pixels kind }
{
    if is_pair(pixels, kind, own_pair(format)) {
        texel_size(format)
    } else {
        16
    }
}

/// Whether an image can be read in a pair.
fn is_readable(format: Format, pixels: PixelFormat, kind: PixelType) -> bool
    ensures { result ≡ (same_pair (pixels, kind) (general_pair_of format) || same_pair (pixels, kind) (own_pair_of format)) }
{
    is_pair(pixels, kind, general_pair(format)) || is_pair(pixels, kind, own_pair(format))
}

/// ReadPixels.
pub fn read_pixels(
    width: i32,
    height: i32,
    pixels: PixelFormat,
    kind: PixelType,
    to: PixelDestination,
    store: &PixelStore,
    pack: &Option<BufferFacts>,
    complete: bool,
    read: Option<ImageInfo>,
) -> Decision
    ensures { result ≡ decided (read_pixels_rows width height pixels kind to store.now pack.now complete read) }
{
    if width < 0 || height < 0 {
        return refused(GlError::InvalidValue);
    }
    if is_other(pixels, kind) {
        return refused(GlError::InvalidEnum);
    }
    if !complete {
        return refused(GlError::InvalidFramebufferOperation);
    }
    let Some(image) = read else {
        return refused(GlError::InvalidOperation);
    };
    if !is_readable(image.format, pixels, kind) {
        return refused(GlError::InvalidOperation);
    }
    if has_map(pack) {
        return refused(GlError::InvalidOperation);
    }
    let rows = row_layout(
        store,
        texel_of_pair(image.format, pixels, kind),
        width.unsigned_abs(),
        height.unsigned_abs(),
    );
    check_destination(to, kind, rows.needed, pack)
}
