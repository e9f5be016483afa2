//! The words of each list, and what they stand for.

ghost use Rattle.std.specs.Prelude.{◌≡◌};
ghost use Rattle.trace_words.specs.Tables.{meaning, entries};

use formats::{Format, PixelFormat, PixelType};
use gl_calls::{
    AttachPoint, AttachWhat, BindTarget, BlitFilter, BlitMask, BufferTarget, DrawBuffer,
    FenceCondition, FormatWord, FramebufferTarget, LimitName, ObjectKind, StoreParameter, Usage,
};

pub const BUFFERS: [(&str, BufferTarget); 6] = [
    ("array", BufferTarget::Array),
    ("copy_read", BufferTarget::CopyRead),
    ("copy_write", BufferTarget::CopyWrite),
    ("pixel_pack", BufferTarget::PixelPack),
    ("pixel_unpack", BufferTarget::PixelUnpack),
    ("other", BufferTarget::Other),
];

pub const FRAMEBUFFERS: [(&str, FramebufferTarget); 4] = [
    ("framebuffer", FramebufferTarget::Both),
    ("read_fb", FramebufferTarget::Read),
    ("draw_fb", FramebufferTarget::Draw),
    ("other", FramebufferTarget::Other),
];

pub const BIND_TARGETS: [(&str, BindTarget); 11] = [
    ("array", BindTarget::Buffer(BufferTarget::Array)),
    ("copy_read", BindTarget::Buffer(BufferTarget::CopyRead)),
    ("copy_write", BindTarget::Buffer(BufferTarget::CopyWrite)),
    ("pixel_pack", BindTarget::Buffer(BufferTarget::PixelPack)),
    (
        "pixel_unpack",
        BindTarget::Buffer(BufferTarget::PixelUnpack),
    ),
    (
        "framebuffer",
        BindTarget::Framebuffer(FramebufferTarget::Both),
    ),
    ("read_fb", BindTarget::Framebuffer(FramebufferTarget::Read)),
    ("draw_fb", BindTarget::Framebuffer(FramebufferTarget::Draw)),
    ("texture", BindTarget::Texture),
    ("renderbuffer", BindTarget::Renderbuffer),
    ("other", BindTarget::Buffer(BufferTarget::Other)),
];

pub const OBJECT_KINDS: [(&str, ObjectKind); 4] = [
    ("buffer", ObjectKind::Buffer),
    ("texture", ObjectKind::Texture),
    ("renderbuffer", ObjectKind::Renderbuffer),
    ("framebuffer", ObjectKind::Framebuffer),
];

pub const USAGES: [(&str, Usage); 10] = [
    ("stream_draw", Usage::StreamDraw),
    ("stream_read", Usage::StreamRead),
    ("stream_copy", Usage::StreamCopy),
    ("static_draw", Usage::StaticDraw),
    ("static_read", Usage::StaticRead),
    ("static_copy", Usage::StaticCopy),
    ("dynamic_draw", Usage::DynamicDraw),
    ("dynamic_read", Usage::DynamicRead),
    ("dynamic_copy", Usage::DynamicCopy),
    ("other", Usage::Other),
];

pub const FORMATS: [(&str, FormatWord); 13] = [
    ("r8ui", FormatWord::Known(Format::R8ui)),
    ("r8i", FormatWord::Known(Format::R8i)),
    ("r16ui", FormatWord::Known(Format::R16ui)),
    ("r16i", FormatWord::Known(Format::R16i)),
    ("r32ui", FormatWord::Known(Format::R32ui)),
    ("r32i", FormatWord::Known(Format::R32i)),
    ("rg8ui", FormatWord::Known(Format::Rg8ui)),
    ("rgba8ui", FormatWord::Known(Format::Rgba8ui)),
    ("rgba8i", FormatWord::Known(Format::Rgba8i)),
    ("rgb10_a2ui", FormatWord::Known(Format::Rgb10A2ui)),
    ("rgba32ui", FormatWord::Known(Format::Rgba32ui)),
    ("rgba32i", FormatWord::Known(Format::Rgba32i)),
    ("other", FormatWord::Other),
];

pub const PIXEL_FORMATS: [(&str, PixelFormat); 4] = [
    ("red_integer", PixelFormat::RedInteger),
    ("rg_integer", PixelFormat::RgInteger),
    ("rgba_integer", PixelFormat::RgbaInteger),
    ("other", PixelFormat::Other),
];

pub const PIXEL_TYPES: [(&str, PixelType); 8] = [
    ("unsigned_byte", PixelType::UnsignedByte),
    ("byte", PixelType::Byte),
    ("unsigned_short", PixelType::UnsignedShort),
    ("short", PixelType::Short),
    ("unsigned_int", PixelType::UnsignedInt),
    ("int", PixelType::Int),
    (
        "unsigned_int_2_10_10_10_rev",
        PixelType::UnsignedInt2101010Rev,
    ),
    ("other", PixelType::Other),
];

pub const POINTS: [(&str, AttachPoint); 4] = [
    ("c0", AttachPoint::C0),
    ("c1", AttachPoint::C1),
    ("c2", AttachPoint::C2),
    ("c3", AttachPoint::C3),
];

pub const ATTACHED: [(&str, AttachWhat); 2] = [
    ("texture", AttachWhat::Texture),
    ("renderbuffer", AttachWhat::Renderbuffer),
];

pub const DRAW_BUFFERS: [(&str, DrawBuffer); 6] = [
    ("c0", DrawBuffer::Point(AttachPoint::C0)),
    ("c1", DrawBuffer::Point(AttachPoint::C1)),
    ("c2", DrawBuffer::Point(AttachPoint::C2)),
    ("c3", DrawBuffer::Point(AttachPoint::C3)),
    ("none", DrawBuffer::None),
    ("other", DrawBuffer::Other),
];

pub const PARAMETERS: [(&str, StoreParameter); 9] = [
    ("pack_align", StoreParameter::PackAlign),
    ("pack_row", StoreParameter::PackRow),
    ("pack_skip_rows", StoreParameter::PackSkipRows),
    ("pack_skip_pixels", StoreParameter::PackSkipPixels),
    ("unpack_align", StoreParameter::UnpackAlign),
    ("unpack_row", StoreParameter::UnpackRow),
    ("unpack_skip_rows", StoreParameter::UnpackSkipRows),
    ("unpack_skip_pixels", StoreParameter::UnpackSkipPixels),
    ("other", StoreParameter::Other),
];

pub const LIMITS: [(&str, LimitName); 5] = [
    ("max_texture_size", LimitName::MaxTextureSize),
    ("max_renderbuffer_size", LimitName::MaxRenderbufferSize),
    ("max_color_attachments", LimitName::MaxColorAttachments),
    ("max_draw_buffers", LimitName::MaxDrawBuffers),
    ("other", LimitName::Other),
];

pub const SWITCHES: [(&str, bool); 2] = [("on", true), ("off", false)];

pub const MASKS: [(&str, BlitMask); 3] = [
    ("color", BlitMask::Color),
    ("none", BlitMask::None),
    ("other", BlitMask::Other),
];

pub const FILTERS: [(&str, BlitFilter); 3] = [
    ("nearest", BlitFilter::Nearest),
    ("linear", BlitFilter::Linear),
    ("other", BlitFilter::Other),
];

pub const CONDITIONS: [(&str, FenceCondition); 2] = [
    ("gpu", FenceCondition::GpuCommandsComplete),
    ("other", FenceCondition::Other),
];

/// What the word stands for in the table.
pub fn word_in<T: Copy>(table: &[(&str, T)], word: &[u8]) -> Option<T>
    ensures { result ≡ meaning (entries table.now) word.now }
{
    for (spelled, meaning) in table {
        if spelled.as_bytes() == word {
            return Some(*meaning);
        }
    }
    None
}
