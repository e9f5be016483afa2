// What a node does to the bytes of the objects.
ghost use Rattle.vk_model.specs.Fitting.{NodeFits};
ghost use Rattle.vk_objects.specs.Objects.{kind_of, TouchedHaveSizes, Executes};

use crate::Objects;
use crate::buffers::{copy, fill};
use crate::image_nodes::{blit_image, buffer_to_image, clear_image, copy_image, image_to_buffer};
use crate::passes::pass_part;
use vk_types::{Node, Op};

/// Applies a node to the bytes of the objects that it touches: bytes that agree with contents before agree with the
/// contents after the node. What it leaves undefined keeps its bytes. This takes no memory.
pub fn execute(node: &Node, objects: &mut Objects)
    requires fits { NodeFits (kind_of objects.old) node.now }
    requires sized { TouchedHaveSizes objects.old node.now }
    ensures { Executes objects.old objects.new node.now }
{
    match &node.op {
        Op::CopyBuffer {
            src,
            src_at,
            dst,
            dst_at,
            size,
        } => {
            copy(
                objects,
                *src,
                *src_at as usize,
                *dst,
                *dst_at as usize,
                *size as usize,
            );
        }
        Op::BufferToImage {
            src,
            src_at,
            stride,
            texel_size,
            dst,
            rect,
        } => {
            buffer_to_image(objects, *src, *src_at, *stride, *texel_size, *dst, *rect);
        }
        Op::ImageToBuffer {
            src,
            rect,
            dst,
            dst_at,
            stride,
            texel_size,
            expand,
        } => {
            image_to_buffer(
                objects,
                *src,
                *rect,
                *dst,
                *dst_at,
                *stride,
                *texel_size,
                *expand,
            );
        }
        Op::CopyImage {
            src,
            src_x,
            src_y,
            dst,
            rect,
        } => {
            copy_image(objects, *src, *src_x, *src_y, *dst, *rect);
        }
        Op::BlitImage {
            src,
            dst,
            coords,
            clip,
        } => blit_image(objects, *src, *dst, coords, *clip),
        Op::ClearImage { image, rect, texel } => clear_image(objects, *image, *rect, texel),
        Op::FillBuffer {
            dst,
            dst_at,
            size,
            byte,
        } => {
            fill(objects, *dst, *dst_at as usize, *size as usize, *byte);
        }
        Op::PassPart {
            pass,
            point,
            image,
            load,
            keep,
            clears,
        } => {
            pass_part(objects, *pass, *point, *image, *load, *keep, clears);
        }
        Op::Barrier(_) => {}
    }
}
