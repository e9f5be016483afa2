use formats::{Format, PixelFormat, PixelType};
use gl_model::ImageInfo;
use readback::{blank, place, plan_of};
use std::test::Fail;
use vk_types::Rect;

// Two columns and two rows of one byte.
const IMAGE: ImageInfo = ImageInfo {
    format: Format::R8ui,
    width: 2,
    height: 2,
};

fn rect(x: i32, y: i32, w: u32, h: u32) -> Rect {
    Rect { x, y, w, h }
}

#[test]
fn rows_are_placed_without_padding(rt: HostRuntime) -> Result<(), Fail> {
    let pair = (PixelFormat::RedInteger, PixelType::UnsignedByte);
    for (asked, want) in [
        (rect(0, 0, 2, 2), [1, 2, 3, 4, 0, 0]),
        (rect(-1, 0, 3, 2), [0, 1, 2, 0, 3, 4]),
        (rect(0, -1, 2, 3), [0, 0, 1, 2, 3, 4]),
        (rect(0, 0, 3, 2), [1, 2, 0, 3, 4, 0]),
    ] {
        let Some(plan) = plan_of(&IMAGE, pair.0, pair.1, asked) else {
            assert!(rt; false);
            return Ok(());
        };
        let host = [1, 2, 3, 4];
        assert_eq!(rt; plan.size(), 4);
        let bytes = place(rt.alloc(), &plan, host.as_slice())?;
        let len = bytes.len();
        assert!(rt; len <= 6);
        assert_eq!(rt; bytes.as_slice(), &want[0..len]);
    }
    Ok(())
}

#[test]
fn a_read_beside_the_image_is_blank(rt: HostRuntime) -> Result<(), Fail> {
    let pair = (PixelFormat::RgbaInteger, PixelType::UnsignedInt);
    for asked in [
        rect(2, 0, 1, 1),
        rect(0, -3, 1, 3),
        rect(-2147483648, 0, 1, 1),
        rect(0, 0, 0, 2),
    ] {
        assert!(rt; plan_of(&IMAGE, pair.0, pair.1, asked).is_none());
    }
    let bytes = blank(rt.alloc(), 1, 1, 16)?;
    assert_eq!(rt; bytes.as_slice(), [0; 16].as_slice());
    Ok(())
}
