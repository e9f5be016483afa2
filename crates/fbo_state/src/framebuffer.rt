ghost use Rattle.std.specs.Prelude.{◌≡◌, ◌<◌, ◌&&◌, ℕ, [], Some, IfSome, IfNone, map, slice_index_or, slice_set, nat_lt};
ghost use Rattle.gl_model.specs.Bindings.{attached_image, status_of, point_of, draws_to};
ghost use Rattle.gl_model.specs.GroupEffect.{new_framebuffer, with_point, detached};
ghost use Rattle.gl_model.specs.ImageEffect.{in_common};
ghost use Rattle.gl_model.specs.declared.state.GroupState.{GroupState};
ghost use Rattle.fbo_state.specs.Framebuffers.{made, told, numbered, without_image, status_at, stored, least_sides, HasFour};

use crate::attachment::{Attachment, Points, detached, set_point};
use crate::status;
use arrayvec::ArrayVec;
use formats::FbStatus;
use gl_model::ImageInfo;
use std::marker::Model;

/// A framebuffer object: its four points, whether draw buffer k draws to point k or to none, and the point that is read.
#[derive(Drop)]
pub struct Framebuffer {
    points: Points,
    draws: ArrayVec<bool, 4>,
    read: Option<u8>,
}

impl Model for Framebuffer {
    ghost use Rattle.fbo_state.specs.Framebuffers.{FramebufferState, HasFour};

    ghost Value = { FramebufferState };

    ghost view = { λ f. record { points = f.points.items; draws = f.draws.items; read = f.read } };

    ghost invariant = { λ f. HasFour (record { points = f.points.items; draws = f.draws.items; read = f.read }) };
}

impl Framebuffer {
    /// A framebuffer as it is made: with nothing attached, it draws to point 0 and reads it.
    pub fn new() -> Framebuffer
        ensures value { result ≡ made }
        ensures made { numbered result ≡ new_framebuffer }
    {
        Framebuffer {
            points: Points::from([Attachment::Empty; 4]),
            draws: ArrayVec::from([true, false, false, false]),
            read: Some(0),
        }
    }

    /// Puts an image at a point below 4, or nothing, and gives what was there before.
    pub fn attach(&mut self, point: u8, image: Attachment) -> Attachment
        requires { point < 4 }
        ensures before { result ≡ slice_index_or self.old.points point Attachment.Empty }
        ensures after { self.new ≡ record self.old { points = slice_set self.old.points point image } }
        ensures meaning { numbered self.new ≡ with_point point (told image) (numbered self.old) }
    {
        let before = self.attachment(point);
        set_point(&mut self.points, point, image);
        before
    }

    /// Takes an image away from each point where it is attached.
    pub fn detach_all(&mut self, image: Attachment)
        ensures after { self.new ≡ record self.old { points = map (without_image image) self.old.points } }
        ensures meaning { numbered self.new ≡ detached (told image) (numbered self.old) }
    {
        self.points = detached(self.points.as_slice(), image);
    }

    /// What is attached at a point below 4.
    pub fn attachment(&self, point: u8) -> Attachment
        requires { point < 4 }
        ensures value { result ≡ slice_index_or self.now.points point Attachment.Empty }
        ensures meaning { told result ≡ point_of (numbered self.now) point }
    {
        self.points.as_slice()[usize::from(point)]
    }

    /// Sets whether draw buffer k, below 4, draws.
    pub fn set_draw(&mut self, k: u8, on: bool)
        requires { k < 4 }
        ensures { self.new ≡ record self.old { draws = slice_set self.old.draws k on } }
    {
        self.draws.as_mut_slice()[usize::from(k)] = on;
    }

    /// Whether draw buffer k, below 4, draws.
    pub fn draws(&self, k: u8) -> bool
        requires { k < 4 }
        ensures { result ≡ draws_to (numbered self.now) k }
    {
        self.draws.as_slice()[usize::from(k)]
    }

    /// Sets the point that is read, below 4, or none.
    pub fn set_read(&mut self, point: Option<u8>)
        requires { IfSome point (λ k. k < 4) }
        ensures { self.new ≡ record self.old { read = point } }
    {
        self.read = point;
    }

    /// The point that is read, and None where none is.
    pub fn read_point(&self) -> Option<u8>
        ensures value { result ≡ self.now.read }
        ensures law { HasFour self.now }
    {
        self.read
    }

    /// The four points.
    fn points(&self) -> [Attachment; 4]
        ensures { result ≡ self.now.points }
    {
        let points = self.points.as_slice();
        [points[0], points[1], points[2], points[3]]
    }

    /// The status of the framebuffer (OpenGL ES 3.0.6, Framebuffer Completeness), where infos are the facts of the images
    /// at the four points, and None where there is no storage.
    pub fn status(&self, infos: &[Option<ImageInfo>; 4]) -> FbStatus
        ensures value { result ≡ status_at infos.now self.now.points }
        ensures meaning { (group : GroupState) → infos.now ≡ map (attached_image group) (numbered self.now).points → result ≡ status_of group (Some (numbered self.now)) }
    {
        status::status(&self.points(), infos)
    }

    /// The least width and the least height of the images at the four points, by their facts as for `status`, and None
    /// where no point has an image with storage (OpenGL ES 3.0.6, Whole Framebuffer Operations).
    pub fn common_area(&self, infos: &[Option<ImageInfo>; 4]) -> Option<(u32, u32)>
        ensures value { result ≡ least_sides (stored infos.now) }
        ensures none { IfNone result (stored infos.now ≡ []) }
        ensures meaning { IfSome result (λ area. (x y : ℕ) → in_common (stored infos.now) x y ≡ (nat_lt x area.0 && nat_lt y area.1)) }
    {
        status::common_area(infos)
    }
}
