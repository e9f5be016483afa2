ghost use Rattle.std.specs.Prelude.{◌≡◌, ◌&&◌, not, is_none, Some};
ghost use Rattle.gl_model.specs.Bindings.{image_of, read_attachment};
ghost use Rattle.std.specs.Option.{option_copied};

use crate::counted::Counted;
use crate::objects::ImageInfo;
use crate::state::{Attachment, Context, Framebuffer, GroupState, Names};
use formats::FbStatus;
use gl_calls::{AttachWhat, FramebufferTarget};

impl Attachment {
    ghost use Rattle.gl_model.specs.Bindings.{is_empty, same_attachment};

    /// Whether nothing is attached.
    pub fn is_empty(&self) -> bool
        ensures { result ≡ is_empty self.now }
    {
        matches!(self, Attachment::Empty)
    }

    /// Whether both are the same image, or both are empty.
    pub fn is_same(&self, other: &Attachment) -> bool
        ensures { result ≡ same_attachment self.now other.now }
    {
        match (self, other) {
            (Attachment::Empty, Attachment::Empty) => true,
            (Attachment::Texture(a), Attachment::Texture(b)) => a == b,
            (Attachment::Renderbuffer(a), Attachment::Renderbuffer(b)) => a == b,
            _ => false,
        }
    }

    /// Whether this is an image that is the same as the other.
    fn is_twin(&self, other: &Attachment) -> bool
        ensures { result ≡ (not (is_empty self.now) && same_attachment self.now other.now) }
    {
        !self.is_empty() && self.is_same(other)
    }
}

impl Framebuffer {
    ghost use Rattle.gl_model.specs.Bindings.{point_of, draw_attachment, has_twin, is_empty};
    ghost use Rattle.std.specs.List.{list_all};

    /// The attachment at a point, and empty past the last one.
    pub fn point(&self, k: u8) -> Attachment
        ensures { result ≡ point_of self.now k }
    {
        match self.points.get(k as usize) {
            Some(attachment) => *attachment,
            None => Attachment::Empty,
        }
    }

    /// What draw buffer k draws to.
    pub fn draw_attachment(&self, k: u8) -> Attachment
        ensures { result ≡ draw_attachment self.now k }
    {
        match self.draws.get(k as usize) {
            Some(true) => self.point(k),
            _ => Attachment::Empty,
        }
    }

    /// Whether nothing is attached at any point.
    fn has_no_image(&self) -> bool
        ensures { result ≡ list_all is_empty self.now.points }
    {
        let [a, b, c, d] = &self.points;
        a.is_empty() && b.is_empty() && c.is_empty() && d.is_empty()
    }

    /// Whether one image is at two points.
    fn has_twin(&self) -> bool
        ensures { result ≡ has_twin self.now.points }
    {
        let [a, b, c, d] = &self.points;
        a.is_twin(b) || a.is_twin(c) || a.is_twin(d) || b.is_twin(c) || b.is_twin(d) || c.is_twin(d)
    }
}

/// The image of an object of a table, if it has storage.
fn image_in(images: &Counted<Option<ImageInfo>>, object: u32) -> Option<ImageInfo>
    ensures { result ≡ image_of images.now (Some object) }
{
    match images.get(object) {
        Some(image) => *image,
        None => None,
    }
}

/// What the read framebuffer reads.
pub fn read_attachment(framebuffer: Option<Framebuffer>) -> Attachment
    ensures { result ≡ read_attachment framebuffer }
{
    match framebuffer {
        Some(f) => match f.read {
            Some(k) => f.point(k),
            None => Attachment::Empty,
        },
        None => Attachment::Empty,
    }
}

impl Context {
    ghost use Rattle.gl_model.specs.Bindings.{framebuffer_name, framebuffer_of};

    /// The name that is bound to a framebuffer target.
    pub fn framebuffer_name(&self, target: FramebufferTarget) -> u32
        ensures { result ≡ framebuffer_name self.now target }
    {
        match target {
            FramebufferTarget::Both | FramebufferTarget::Draw => self.draw,
            FramebufferTarget::Read => self.read,
            FramebufferTarget::Other => 0,
        }
    }

    /// The framebuffer of a name, and None for 0.
    pub fn framebuffer(&self, name: u32) -> Option<Framebuffer>
        ensures { result ≡ framebuffer_of self.now name }
    {
        match self.framebuffers.get(name) {
            Some(framebuffer) => *framebuffer,
            None => None,
        }
    }
}

impl Context {
    ghost use Rattle.gl_model.specs.Refusal.{read_framebuffer, draw_framebuffer, reads_bound_texture, reads_drawn};
    ghost use Rattle.gl_model.specs.Bindings.{drawn_attachments};

    /// The read framebuffer.
    pub fn read_framebuffer(&self) -> Option<Framebuffer>
        ensures { result ≡ read_framebuffer self.now }
    {
        self.framebuffer(self.read)
    }

    /// The draw framebuffer.
    pub fn draw_framebuffer(&self) -> Option<Framebuffer>
        ensures { result ≡ draw_framebuffer self.now }
    {
        self.framebuffer(self.draw)
    }

    /// Whether the image that is read is the bound texture.
    pub fn reads_bound_texture(&self) -> bool
        ensures { result ≡ reads_bound_texture self.now }
    {
        match self.texture {
            Some(texture) => {
                Attachment::Texture(texture).is_same(&read_attachment(self.read_framebuffer()))
            }
            None => false,
        }
    }

    /// Whether the image that is read is one that is drawn to.
    pub fn reads_drawn(&self) -> bool
        ensures { result ≡ reads_drawn self.now }
    {
        let read = read_attachment(self.read_framebuffer());
        match self.draw_framebuffer() {
            Some(f) => {
                read.is_twin(&f.draw_attachment(0))
                    || read.is_twin(&f.draw_attachment(1))
                    || read.is_twin(&f.draw_attachment(2))
                    || read.is_twin(&f.draw_attachment(3))
            }
            None => false,
        }
    }
}

impl Names {
    ghost use Rattle.gl_model.specs.Refusal.{has_object};

    /// Whether a name has an object.
    pub fn has_object(&self, name: u32) -> bool
        ensures { result ≡ has_object self.now name }
    {
        matches!(self.objects.get(name), Some(Some(_)))
    }
}

impl GroupState {
    ghost use Rattle.gl_model.specs.Bindings.{attached_image, status_of, is_empty};
    ghost use Rattle.gl_model.specs.Refusal.{bound_texture, bound_renderbuffer, has_image, read_image, read_is_complete, draw_is_complete};

    /// The image that is attached, if it has storage.
    pub fn attached_image(&self, attachment: Attachment) -> Option<ImageInfo>
        ensures { result ≡ attached_image self.now attachment }
    {
        match attachment {
            Attachment::Empty => None,
            Attachment::Texture(texture) => image_in(&self.textures, texture),
            Attachment::Renderbuffer(renderbuffer) => image_in(&self.renderbuffers, renderbuffer),
        }
    }

    /// Whether an image without storage is attached.
    fn lacks_storage(&self, attachment: Attachment) -> bool
        ensures { result ≡ (not (is_empty attachment) && is_none (attached_image self.now attachment)) }
    {
        !attachment.is_empty() && self.attached_image(attachment).is_none()
    }

    /// The status of a framebuffer, and that of framebuffer 0 for None.
    pub fn status(&self, framebuffer: Option<Framebuffer>) -> FbStatus
        ensures { result ≡ status_of self.now framebuffer }
    {
        let Some(f) = framebuffer else {
            return FbStatus::Undefined;
        };
        let [a, b, c, d] = f.points;
        if self.lacks_storage(a)
            || self.lacks_storage(b)
            || self.lacks_storage(c)
            || self.lacks_storage(d)
        {
            return FbStatus::IncompleteAttachment;
        }
        if f.has_no_image() {
            return FbStatus::IncompleteMissingAttachment;
        }
        if f.has_twin() {
            return FbStatus::Unsupported;
        }
        FbStatus::Complete
    }

    /// The image that is read, if the read buffer has one.
    pub fn read_image(&self, context: &Context) -> Option<ImageInfo>
        ensures { result ≡ read_image self.now context.now }
    {
        self.attached_image(read_attachment(context.read_framebuffer()))
    }

    /// Whether the read framebuffer is complete.
    pub fn read_is_complete(&self, context: &Context) -> bool
        ensures { result ≡ read_is_complete self.now context.now }
    {
        matches!(self.status(context.read_framebuffer()), FbStatus::Complete)
    }

    /// Whether the draw framebuffer is complete.
    pub fn draw_is_complete(&self, context: &Context) -> bool
        ensures { result ≡ draw_is_complete self.now context.now }
    {
        matches!(self.status(context.draw_framebuffer()), FbStatus::Complete)
    }

    /// What is bound to the texture target.
    pub fn bound_texture(&self, context: &Context) -> Option<Option<ImageInfo>>
        ensures { result ≡ bound_texture self.now context.now }
    {
        match context.texture {
            Some(texture) => self.textures.get(texture).copied(),
            None => None,
        }
    }

    /// What is bound to the renderbuffer target.
    pub fn bound_renderbuffer(&self, context: &Context) -> Option<Option<ImageInfo>>
        ensures { result ≡ bound_renderbuffer self.now context.now }
    {
        match context.renderbuffer {
            Some(renderbuffer) => self.renderbuffers.get(renderbuffer).copied(),
            None => None,
        }
    }

    /// Whether a name has an image of a kind.
    pub fn has_image(&self, what: AttachWhat, name: u32) -> bool
        ensures { result ≡ has_image self.now what name }
    {
        match what {
            AttachWhat::Texture => self.texture_names.has_object(name),
            AttachWhat::Renderbuffer => self.renderbuffer_names.has_object(name),
        }
    }
}
