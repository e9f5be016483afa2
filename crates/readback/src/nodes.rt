ghost use Rattle.std.specs.Prelude.{◌≡◌, ◌+◌, ◌<◌, ◌≤◌, ◌^◌};
ghost use Rattle.formats.specs.Rows.{needed_length};
ghost use Rattle.readback.specs.Plans.{plan_size, part_row, read_node, pack_place, pack_node};

use crate::plan::ReadPlan;
use formats::{PixelStore, row_layout, texel_size};
use vk_types::{HandleId, Node, Op};

impl ReadPlan {
    ghost use Rattle.std.specs.Prelude.{◌≡◌, ◌≤◌};
    ghost use Rattle.readback.specs.Plans.{plan_size, part_row};

    /// The bytes of what lies in the image.
    pub fn size(&self) -> u64
        requires columns { self.now.part.rect.w ≤ 2048 }
        requires rows { self.now.part.rect.h ≤ 2048 }
        requires texel { self.now.texel ≤ 16 }
        ensures value { result ≡ plan_size self.now }
        ensures bound { result ≤ 67108864 }
    {
        u64::from(self.part.rect.w) * u64::from(self.part.rect.h) * u64::from(self.texel)
    }

    /// The bytes of a row of what lies in the image.
    pub fn row(&self) -> u64
        ensures { result ≡ part_row self.now }
    {
        u64::from(self.part.rect.w) * u64::from(self.texel)
    }
}

/// The node that brings what lies in the image to a buffer, row after row from a place on.
pub fn read_node(plan: &ReadPlan, image: HandleId, buffer: HandleId, at: u64) -> Node
    ensures { result ≡ read_node plan.now image buffer at }
{
    Node {
        op: Op::ImageToBuffer {
            src: image,
            rect: plan.part.rect,
            dst: buffer,
            dst_at: at,
            stride: plan.row(),
            texel_size: texel_size(plan.format),
            expand: plan.expand,
        },
    }
}

/// Where the first texel of what lies in the image goes in a pack buffer.
fn pack_place(plan: &ReadPlan, base: u64, store: &PixelStore) -> u64
    requires columns { plan.now.part.left + plan.now.part.rect.w ≤ plan.now.width }
    requires rows { plan.now.part.top + plan.now.part.rect.h ≤ plan.now.height }
    requires some { 0 < plan.now.part.rect.w }
    requires some_rows { 0 < plan.now.part.rect.h }
    requires inside { base + needed_length store.now plan.now.texel plan.now.width plan.now.height < 2 ^ 64 }
    ensures { result ≡ pack_place plan.now base store.now }
{
    let layout = row_layout(store, plan.texel, plan.width, plan.height);
    let rows = u128::from(plan.part.top) * u128::from(layout.stride);
    let columns = u128::from(plan.part.left) * u128::from(plan.texel);
    (u128::from(base) + layout.first + rows + columns) as u64
}

/// The node that brings what lies in the image to the rows of a pack buffer, which the pack parameters lay out from a base on.
pub fn pack_node(
    plan: &ReadPlan,
    image: HandleId,
    buffer: HandleId,
    base: u64,
    store: &PixelStore,
) -> Node
    requires columns { plan.now.part.left + plan.now.part.rect.w ≤ plan.now.width }
    requires rows { plan.now.part.top + plan.now.part.rect.h ≤ plan.now.height }
    requires some { 0 < plan.now.part.rect.w }
    requires some_rows { 0 < plan.now.part.rect.h }
    requires inside { base + needed_length store.now plan.now.texel plan.now.width plan.now.height < 2 ^ 64 }
    ensures { result ≡ pack_node plan.now image buffer base store.now }
{
    let layout = row_layout(store, plan.texel, plan.width, plan.height);
    Node {
        op: Op::ImageToBuffer {
            src: image,
            rect: plan.part.rect,
            dst: buffer,
            dst_at: pack_place(plan, base, store),
            stride: layout.stride,
            texel_size: texel_size(plan.format),
            expand: plan.expand,
        },
    }
}
