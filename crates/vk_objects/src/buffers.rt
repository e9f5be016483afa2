// Nodes on buffers.
ghost use Rattle.std.specs.Prelude.{◌≡◌, ◌+◌, ◌<◌, ◌≤◌, ◌^◌, ◌⊎◌, length, replicate, IsSome};
ghost use Rattle.cells.specs.Contents.{part, overwritten};
ghost use Rattle.vk_types.specs.declared.ops.Op.TheVariants.{CopyBuffer, FillBuffer};
ghost use Rattle.vk_objects.specs.Objects.{kind_of, bytes_of, SetsBytes, Executes};

use crate::Objects;
use vk_types::HandleId;

/// Copies bytes between two buffers, or inside one to a place that does not overlap theirs.
pub(crate) fn copy(
    objects: &mut Objects,
    src: HandleId,
    src_at: usize,
    dst: HandleId,
    dst_at: usize,
    size: usize,
)
    requires src { src_at + size ≤ length (bytes_of objects.old src.0) }
    requires dst { dst_at + size ≤ length (bytes_of objects.old dst.0) }
    requires live { IsSome (kind_of objects.old src.0) }
    requires also_live { IsSome (kind_of objects.old dst.0) }
    requires apart { src.0 ≡ dst.0 → (src_at + size ≤ dst_at) ⊎ (dst_at + size ≤ src_at) }
    ensures { Executes objects.old objects.new (record { op = CopyBuffer src src_at dst dst_at size }) }
{
    let _count = objects.byte_count(src);
    put_copy(objects, src, src_at, dst, dst_at, size);
}

fn put_copy(
    objects: &mut Objects,
    src: HandleId,
    src_at: usize,
    dst: HandleId,
    dst_at: usize,
    size: usize,
)
    requires src { src_at + size ≤ length (bytes_of objects.old src.0) }
    requires dst { dst_at + size ≤ length (bytes_of objects.old dst.0) }
    requires live { IsSome (kind_of objects.old src.0) }
    requires also_live { IsSome (kind_of objects.old dst.0) }
    requires apart { src.0 ≡ dst.0 → (src_at + size ≤ dst_at) ⊎ (dst_at + size ≤ src_at) }
    ensures sets { SetsBytes objects.old objects.new dst.0 (overwritten (bytes_of objects.old dst.0) dst_at (part (bytes_of objects.old src.0) src_at size)) }
    ensures end { dst_at + size < 2 ^ 64 }
{
    let mut bytes = objects.take(dst);
    if src == dst {
        bytes.move_within(src_at, dst_at, size);
    } else {
        match objects.bytes(src) {
            Some(from) => bytes.overwrite(dst_at, &from[src_at..src_at + size]),
            None => unreachable!(),
        }
    }
    prove!(dst_at + size <= bytes.len());
    objects.put_back(dst, bytes);
}

/// Writes one byte to a range of a buffer.
pub(crate) fn fill(objects: &mut Objects, dst: HandleId, dst_at: usize, size: usize, byte: u8)
    requires dst { dst_at + size ≤ length (bytes_of objects.old dst.0) }
    requires live { IsSome (kind_of objects.old dst.0) }
    ensures { Executes objects.old objects.new (record { op = FillBuffer dst dst_at size byte }) }
{
    put_filling(objects, dst, dst_at, size, byte);
}

fn put_filling(objects: &mut Objects, dst: HandleId, dst_at: usize, size: usize, byte: u8)
    requires dst { dst_at + size ≤ length (bytes_of objects.old dst.0) }
    requires live { IsSome (kind_of objects.old dst.0) }
    ensures sets { SetsBytes objects.old objects.new dst.0 (overwritten (bytes_of objects.old dst.0) dst_at (replicate size byte)) }
    ensures end { dst_at + size < 2 ^ 64 }
{
    let mut bytes = objects.take(dst);
    bytes.as_mut_slice()[dst_at..dst_at + size].fill(byte);
    objects.put_back(dst, bytes);
}
