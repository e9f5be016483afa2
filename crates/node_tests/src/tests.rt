// A small case of each node, with the bytes worked out by hand.
use crate::pair::after;
use std::test::Fail;
use vk_types::{Clear, Clears, Coords, HandleId, Kind, Load, Op, Rect};

const A: HandleId = HandleId(1);

const B: HandleId = HandleId(2);

const BUFFER: Kind = Kind::Buffer { size: 6 };

// Three columns and two rows of one byte.
const IMAGE: Kind = Kind::Image {
    format: 0,
    width: 3,
    height: 2,
};

// Two columns and two rows of one signed byte.
const SIGNED: Kind = Kind::Image {
    format: 1,
    width: 2,
    height: 2,
};

const SQUARE: Rect = Rect {
    x: 0,
    y: 0,
    w: 2,
    h: 2,
};

#[test]
fn a_copy_moves_its_range(rt: HostRuntime) -> Result<(), Fail> {
    let op = Op::CopyBuffer {
        src: A,
        src_at: 1,
        dst: B,
        dst_at: 2,
        size: 3,
    };
    let bytes = after(rt.alloc(), BUFFER, &[1, 2, 3, 4, 5, 6], BUFFER, &[0; 6], op)?;
    assert_eq!(rt; bytes.as_slice(), [0, 0, 2, 3, 4, 0].as_slice());
    Ok(())
}

#[test]
fn a_fill_stays_in_its_range(rt: HostRuntime) -> Result<(), Fail> {
    let op = Op::FillBuffer {
        dst: B,
        dst_at: 1,
        size: 2,
        byte: 9,
    };
    let bytes = after(rt.alloc(), BUFFER, &[0; 6], BUFFER, &[1, 2, 3, 4, 5, 6], op)?;
    assert_eq!(rt; bytes.as_slice(), [1, 9, 9, 4, 5, 6].as_slice());
    Ok(())
}

#[test]
fn rows_come_from_a_buffer(rt: HostRuntime) -> Result<(), Fail> {
    let op = Op::BufferToImage {
        src: A,
        src_at: 1,
        stride: 3,
        texel_size: 1,
        dst: B,
        rect: Rect {
            x: 1,
            y: 0,
            w: 2,
            h: 2,
        },
    };
    let bytes = after(rt.alloc(), BUFFER, &[1, 2, 3, 4, 5, 6], IMAGE, &[0; 6], op)?;
    assert_eq!(rt; bytes.as_slice(), [0, 2, 3, 0, 5, 6].as_slice());
    Ok(())
}

#[test]
fn a_later_row_goes_over_an_earlier_one(rt: HostRuntime) -> Result<(), Fail> {
    let op = Op::ImageToBuffer {
        src: A,
        rect: Rect {
            x: 0,
            y: 0,
            w: 3,
            h: 2,
        },
        dst: B,
        dst_at: 1,
        stride: 1,
        texel_size: 1,
        expand: false,
    };
    let bytes = after(rt.alloc(), IMAGE, &[1, 2, 3, 4, 5, 6], BUFFER, &[0; 6], op)?;
    assert_eq!(rt; bytes.as_slice(), [0, 1, 4, 5, 6, 0].as_slice());
    Ok(())
}

/// A texel keeps its bits, and a later row goes over an earlier one in a buffer that is as long as the rows.
#[test]
fn signed_rows_overlap(rt: HostRuntime) -> Result<(), Fail> {
    let op = Op::ImageToBuffer {
        src: A,
        rect: SQUARE,
        dst: B,
        dst_at: 1,
        stride: 1,
        texel_size: 1,
        expand: false,
    };
    let buffer = Kind::Buffer { size: 4 };
    let bytes = after(rt.alloc(), SIGNED, &[1, 2, 255, 4], buffer, &[0; 4], op)?;
    assert_eq!(rt; bytes.as_slice(), [0, 1, 255, 4].as_slice());
    Ok(())
}

/// A signed texel keeps its value in a word.
#[test]
fn signed_texels_expand(rt: HostRuntime) -> Result<(), Fail> {
    let op = Op::ImageToBuffer {
        src: A,
        rect: SQUARE,
        dst: B,
        dst_at: 0,
        stride: 32,
        texel_size: 1,
        expand: true,
    };
    let buffer = Kind::Buffer { size: 64 };
    let bytes = after(rt.alloc(), SIGNED, &[1, 2, 255, 4], buffer, &[7; 64], op)?;
    assert_eq!(rt; bytes.len(), 64);
    assert_eq!(rt;
        &bytes[..17],
        [1, 0, 0, 0, 0, 0, 0, 0, 0, 0, 0, 0, 1, 0, 0, 0, 2].as_slice()
    );
    assert_eq!(rt; &bytes[32..36], [255, 255, 255, 255].as_slice());
    Ok(())
}

#[test]
fn a_rectangle_moves_between_images(rt: HostRuntime) -> Result<(), Fail> {
    let op = Op::CopyImage {
        src: A,
        src_x: 0,
        src_y: 1,
        dst: B,
        rect: Rect {
            x: 1,
            y: 0,
            w: 2,
            h: 1,
        },
    };
    let bytes = after(rt.alloc(), IMAGE, &[1, 2, 3, 4, 5, 6], IMAGE, &[0; 6], op)?;
    assert_eq!(rt; bytes.as_slice(), [0, 4, 5, 0, 0, 0].as_slice());
    Ok(())
}

/// Columns 0, 1, 2 of the destination come from columns 2, 1, 0 of the source.
#[test]
fn a_blit_turns_an_image_round(rt: HostRuntime) -> Result<(), Fail> {
    let op = Op::BlitImage {
        src: A,
        dst: B,
        coords: Coords {
            sx0: 3,
            sy0: 0,
            sx1: 0,
            sy1: 2,
            dx0: 0,
            dy0: 0,
            dx1: 3,
            dy1: 2,
        },
        clip: Rect {
            x: 0,
            y: 0,
            w: 3,
            h: 1,
        },
    };
    let bytes = after(rt.alloc(), IMAGE, &[1, 2, 3, 4, 5, 6], IMAGE, &[0; 6], op)?;
    assert_eq!(rt; bytes.as_slice(), [3, 2, 1, 0, 0, 0].as_slice());
    Ok(())
}

/// Neither a source nor a destination without area writes.
#[test]
fn a_blit_without_area_writes_nothing(rt: HostRuntime) -> Result<(), Fail> {
    let whole = Rect {
        x: 0,
        y: 0,
        w: 3,
        h: 2,
    };
    let square = Coords {
        sx0: 0,
        sy0: 0,
        sx1: 2,
        sy1: 2,
        dx0: 0,
        dy0: 0,
        dx1: 2,
        dy1: 2,
    };
    let flat = [
        Coords { sx1: 0, ..square },
        Coords { sy1: 0, ..square },
        Coords { dx1: 0, ..square },
        Coords { dy1: 0, ..square },
    ];
    for coords in flat {
        let op = Op::BlitImage {
            src: A,
            dst: B,
            coords,
            clip: whole,
        };
        let bytes = after(rt.alloc(), IMAGE, &[1, 2, 3, 4, 5, 6], IMAGE, &[9; 6], op)?;
        assert_eq!(rt; bytes.as_slice(), [9; 6].as_slice());
    }
    Ok(())
}

#[test]
fn a_clear_stays_in_its_rectangle(rt: HostRuntime) -> Result<(), Fail> {
    let op = Op::ClearImage {
        image: B,
        rect: Rect {
            x: 1,
            y: 1,
            w: 2,
            h: 1,
        },
        texel: [9; 16],
    };
    let bytes = after(rt.alloc(), BUFFER, &[0; 6], IMAGE, &[1, 2, 3, 4, 5, 6], op)?;
    assert_eq!(rt; bytes.as_slice(), [1, 2, 3, 4, 9, 9].as_slice());
    Ok(())
}

/// The load comes first, and then the clears in order.
#[test]
fn a_pass_clears_in_order(rt: HostRuntime) -> Result<(), Fail> {
    let alloc = rt.alloc();
    let whole = Rect {
        x: 0,
        y: 0,
        w: 3,
        h: 1,
    };
    let corner = Rect {
        x: 0,
        y: 0,
        w: 1,
        h: 2,
    };
    let clears = vec![in alloc;
        Clear {
            rect: whole,
            texel: [8; 16]
        },
        Clear {
            rect: corner,
            texel: [9; 16]
        },
    ]?;
    let op = Op::PassPart {
        pass: 0,
        point: 0,
        image: B,
        load: Load::Clear([7; 16]),
        keep: true,
        clears: Clears::of(clears),
    };
    let bytes = after(alloc, BUFFER, &[0; 6], IMAGE, &[1, 2, 3, 4, 5, 6], op)?;
    assert_eq!(rt; bytes.as_slice(), [9, 8, 8, 9, 7, 7].as_slice());
    Ok(())
}
