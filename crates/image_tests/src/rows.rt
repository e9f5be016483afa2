use formats::{Format, PixelStore, general_pair, own_pair, row_layout, texel_size};
use gl_model::ImageInfo;
use readback::{pack_node, plan_of};
use std::process::Abort;
use transfer::upload_node;
use vk_types::{HandleId, Op, Rect};

const BUFFER: HandleId = HandleId(1);

const IMAGE: HandleId = HandleId(2);

// Three columns and two rows.
const RECT: Rect = Rect {
    x: 0,
    y: 0,
    w: 3,
    h: 2,
};

// A format, the bytes of a texel, and the strides of three texels at the alignments 1, 2, 4 and 8.
const FORMATS: [(Format, u32, [u64; 4]); 12] = [
    (Format::R8ui, 1, [3, 4, 4, 8]),
    (Format::R8i, 1, [3, 4, 4, 8]),
    (Format::R16ui, 2, [6, 6, 8, 8]),
    (Format::R16i, 2, [6, 6, 8, 8]),
    (Format::R32ui, 4, [12, 12, 12, 16]),
    (Format::R32i, 4, [12, 12, 12, 16]),
    (Format::Rg8ui, 2, [6, 6, 8, 8]),
    (Format::Rgba8ui, 4, [12, 12, 12, 16]),
    (Format::Rgba8i, 4, [12, 12, 12, 16]),
    (Format::Rgb10A2ui, 4, [12, 12, 12, 16]),
    (Format::Rgba32ui, 16, [48, 48, 48, 48]),
    (Format::Rgba32i, 16, [48, 48, 48, 48]),
];

// The parameters with one of these alignments.
fn aligned(k: usize) -> PixelStore {
    match k {
        0 => PixelStore::new().aligned(1),
        1 => PixelStore::new().aligned(2),
        2 => PixelStore::new().aligned(4),
        _ => PixelStore::new().aligned(8),
    }
}

// Rows of five texels, of which a row and two pixels are skipped.
const SKIPS: PixelStore = PixelStore {
    align: 4,
    row: 5,
    skip_rows: 1,
    skip_pixels: 2,
};

// Where the first row of an upload begins, and its stride.
fn uploaded(rt: &impl Abort, format: Format, at: u32, store: &PixelStore) -> Option<(u64, u64)> {
    let info = ImageInfo {
        format,
        width: 4,
        height: 4,
    };
    let layout = row_layout(store, texel_size(format), RECT.w, RECT.h);
    assert!(rt; layout.needed < 1000);
    let node = upload_node(BUFFER, u64::from(at), store, &info, IMAGE, RECT)?;
    match node.op {
        Op::BufferToImage { src_at, stride, .. } => Some((src_at, stride)),
        _ => None,
    }
}

#[test]
fn strides_are_rounded_up_to_the_alignment(rt: HostRuntime) {
    for (format, texel, strides) in FORMATS {
        assert_eq!(rt; texel_size(format), texel);
        for k in 0..4 {
            let rows = uploaded(&rt, format, 8, &aligned(k));
            assert_eq!(rt; rows, Some((8, strides[k])));
        }
    }
}

// Where the first texel of a read goes in a pack buffer, and the stride of its rows.
fn packed(
    rt: &impl Abort,
    format: Format,
    general: bool,
    rect: Rect,
    store: &PixelStore,
) -> Option<(u64, u64, bool)> {
    let info = ImageInfo {
        format,
        width: 4,
        height: 4,
    };
    let pair = if general {
        general_pair(format)
    } else {
        own_pair(format)
    };
    let plan = plan_of(&info, pair.0, pair.1, rect)?;
    let layout = row_layout(store, plan.texel, plan.width, plan.height);
    assert!(rt; layout.needed < 1000);
    let node = pack_node(&plan, IMAGE, BUFFER, 0, store);
    match node.op {
        Op::ImageToBuffer {
            dst_at,
            stride,
            expand,
            ..
        } => Some((dst_at, stride, expand)),
        _ => None,
    }
}

#[test]
fn reads_have_the_strides_of_their_pair(rt: HostRuntime) {
    for (format, texel, strides) in FORMATS {
        for k in 0..4 {
            let own = packed(&rt, format, false, RECT, &aligned(k));
            assert_eq!(rt; own, Some((0, strides[k], false)));
            let general = packed(&rt, format, true, RECT, &aligned(k));
            assert_eq!(rt; general, Some((0, 48, texel < 16)));
        }
    }
}

#[test]
fn skipped_rows_and_pixels_come_first(rt: HostRuntime) {
    assert_eq!(rt; uploaded(&rt, Format::R8ui, 0, &SKIPS), Some((10, 8)));
    assert_eq!(rt; uploaded(&rt, Format::Rgba8ui, 4, &SKIPS), Some((32, 20)));
    let outside = Rect {
        x: -1,
        y: -1,
        w: 3,
        h: 3,
    };
    assert_eq!(rt;
        packed(&rt, Format::R8ui, false, outside, &SKIPS),
        Some((19, 8, false))
    );
}
