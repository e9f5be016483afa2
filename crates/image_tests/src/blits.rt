use formats::Format;
use gl_model::{ImageInfo, ScissorBox};
use transfer::{blit_node, clear_node, clear_rect};
use vk_types::{Coords, HandleId, Op, Rect};

const READ: HandleId = HandleId(1);

const DRAWN: HandleId = HandleId(2);

// Four columns and four rows.
const IMAGE: ImageInfo = ImageInfo {
    format: Format::R8ui,
    width: 4,
    height: 4,
};

fn rect(x: i32, y: i32, w: u32, h: u32) -> Rect {
    Rect { x, y, w, h }
}

// The columns that a blit of all rows writes.
fn columns(sx0: i32, sx1: i32, dx0: i32, dx1: i32) -> Option<(i32, u32)> {
    let coords = Coords {
        sx0,
        sy0: 0,
        sx1,
        sy1: 4,
        dx0,
        dy0: 0,
        dx1,
        dy1: 4,
    };
    let node = blit_node(READ, &IMAGE, DRAWN, coords, None, (4, 4))?;
    match node.op {
        Op::BlitImage { clip, .. } => Some((clip.x, clip.w)),
        _ => None,
    }
}

#[test]
fn blits_write_what_reads_a_texel(rt: HostRuntime) {
    assert_eq!(rt; columns(0, 4, 0, 4), Some((0, 4)));
    assert_eq!(rt; columns(0, 4, 4, 0), Some((0, 4)));
    assert_eq!(rt; columns(0, 4, 1, 3), Some((1, 2)));
    assert_eq!(rt; columns(0, 4, -2, 2), Some((0, 2)));
    assert_eq!(rt; columns(0, 4, 4, 8), None);
    assert_eq!(rt; columns(-4, 0, 0, 4), None);
    assert_eq!(rt; columns(2, 2, 0, 4), None);
    assert_eq!(rt; columns(0, 4, 3, 3), None);
    assert_eq!(rt; columns(-2147483648, 2147483647, 0, 4), None);
    assert_eq!(rt;
        columns(-2147483648, 2147483647, -2147483648, 2147483647),
        Some((0, 4))
    );
}

#[test]
fn clears_stop_at_the_box_and_the_area(rt: HostRuntime) {
    assert_eq!(rt; clear_rect(None, (4, 3)), Some(rect(0, 0, 4, 3)));
    for (x, y, width, height, want) in [
        (-1, -1, 3, 3, Some(rect(0, 0, 2, 2))),
        (1, 2, 9, 9, Some(rect(1, 2, 3, 1))),
        (4, 0, 1, 1, None),
        (0, 0, 0, 3, None),
        (2147483647, 0, 9, 9, None),
        (-2147483648, 0, 9, 9, None),
    ] {
        let scissor = Some(ScissorBox {
            x,
            y,
            width,
            height,
        });
        assert_eq!(rt; clear_rect(scissor, (4, 3)), want);
    }
}

// The bytes that a clear of an image of unsigned words writes.
fn cleared(signed: bool, value: &[u32; 4]) -> Option<[u8; 16]> {
    let info = ImageInfo {
        format: Format::Rgb10A2ui,
        width: 4,
        height: 4,
    };
    let node = clear_node(DRAWN, &info, signed, value, None, (4, 4))?;
    match node.op {
        Op::ClearImage { texel, .. } => Some(texel),
        _ => None,
    }
}

#[test]
fn clears_write_a_packed_value_that_fits(rt: HostRuntime) {
    let mut want = [0u8; 16];
    want[0] = 0x01;
    want[1] = 0x08;
    want[2] = 0x30;
    want[3] = 0xc0;
    assert_eq!(rt; cleared(false, &[1, 2, 3, 3]), Some(want));
    assert_eq!(rt; cleared(true, &[1, 2, 3, 3]), None);
    assert_eq!(rt; cleared(false, &[1024, 0, 0, 0]), None);
    assert_eq!(rt; cleared(false, &[0, 0, 0, 4]), None);
}
