use fbo_state::{Attachment, Framebuffer, ImageInfo};
use formats::{FbStatus, Format};
use gl_objects::ObjectId;
use std::test::Fail;

fn image(width: u32, height: u32) -> Option<ImageInfo> {
    Some(ImageInfo {
        format: Format::Rgba8ui,
        width,
        height,
    })
}

#[test]
fn one_image_at_two_points_is_not_supported(rt: HostRuntime) -> Result<(), Fail> {
    let mut framebuffer = Framebuffer::new();
    let texture = Attachment::Texture(ObjectId::new(5, 0));
    framebuffer.attach(0, texture);
    framebuffer.attach(2, texture);
    let infos = [image(4, 3), None, image(4, 3), None];
    assert!(rt; matches!(framebuffer.status(&infos), FbStatus::Unsupported));
    framebuffer.attach(2, Attachment::Renderbuffer(ObjectId::new(5, 0)));
    assert!(rt; matches!(framebuffer.status(&infos), FbStatus::Complete));
    framebuffer.detach_all(texture);
    assert!(rt; matches!(framebuffer.attachment(0), Attachment::Empty));
    assert!(rt; matches!(framebuffer.attachment(2), Attachment::Renderbuffer(_)));
    Ok(())
}

#[test]
fn the_common_area_has_the_least_sides(rt: HostRuntime) -> Result<(), Fail> {
    let framebuffer = Framebuffer::new();
    assert_eq!(rt;
        framebuffer.common_area(&[image(4, 3), None, image(2, 9), None]),
        Some((2, 3))
    );
    assert_eq!(rt; framebuffer.common_area(&[None; 4]), None);
    Ok(())
}
