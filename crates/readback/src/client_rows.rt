ghost use Rattle.std.specs.Prelude.{◌≡◌, ◌+◌, ◌*◌, ◌^◌, ◌<◌, ◌≤◌, length, replicate, IfOk, OnOk};
ghost use Rattle.cells.specs.Contents.{part, overwritten};
ghost use Rattle.readback.specs.Plans.{plan_size, part_row, row_at, placed};

use crate::plan::ReadPlan;
use cells::Bytes;
use std::alloc::{AllocError, Global};

/// The bytes of a read of so many texels. More than memory can have are want of memory.
fn read_size(width: u32, height: u32, texel: u32) -> Result<usize, AllocError>
    ensures { IfOk result (λ size. size ≡ width * height * texel) }
{
    let texels = u64::from(width) * u64::from(height);
    match texels.checked_mul(u64::from(texel)) {
        Some(size) => Ok(size as usize),
        None => Err(AllocError),
    }
}

/// The bytes of a read that meets no pixel of its image: no cell is defined, so any bytes serve.
pub fn blank(alloc: Global, width: u32, height: u32, texel: u32) -> Result<Bytes, AllocError>
    ensures zeros { IfOk result (λ bytes. bytes ≡ replicate (width * height * texel) 0) }
    ensures bound { OnOk result (width * height * texel < 2 ^ 64) }
{
    let size = read_size(width, height, texel)?;
    Bytes::zeroed(alloc, size)
}

/// Where a row of what lies in the image goes in the read's rows.
fn row_at(plan: &ReadPlan, row: u32) -> u128
    requires row { row < plan.now.part.rect.h }
    requires columns { plan.now.part.left + plan.now.part.rect.w ≤ plan.now.width }
    requires rows { plan.now.part.top + plan.now.part.rect.h ≤ plan.now.height }
    ensures value { result ≡ row_at plan.now row }
    ensures fits { result + part_row plan.now ≤ plan.now.width * plan.now.height * plan.now.texel }
{
    let rows = u128::from(plan.part.top) + u128::from(row);
    (rows * u128::from(plan.width) + u128::from(plan.part.left)) * u128::from(plan.texel)
}

/// Where such a row begins in what lies in the image.
fn part_at(plan: &ReadPlan, row: u32) -> u128
    requires { row < plan.now.part.rect.h }
    ensures value { result ≡ row * part_row plan.now }
    ensures fits { result + part_row plan.now ≤ plan_size plan.now }
{
    u128::from(row) * u128::from(plan.row())
}

/// Puts a row of what lies in the image in its place.
fn put_row(bytes: &mut Bytes, plan: &ReadPlan, row: u32, host: &[u8])
    requires row { row < plan.now.part.rect.h }
    requires columns { plan.now.part.left + plan.now.part.rect.w ≤ plan.now.width }
    requires rows { plan.now.part.top + plan.now.part.rect.h ≤ plan.now.height }
    requires size { length host.now ≡ plan_size plan.now }
    requires room { length bytes.old ≡ plan.now.width * plan.now.height * plan.now.texel }
    requires bound { length bytes.old < 2 ^ 64 }
    ensures { bytes.new ≡ overwritten bytes.old (row_at plan.now row) (part host.now (row * part_row plan.now) (part_row plan.now)) }
{
    let at = row_at(plan, row) as usize;
    let from = part_at(plan, row) as usize;
    let len = plan.row() as usize;
    bytes.overwrite(at, &host[from..from + len]);
}

/// The bytes of a read, row after row without padding: those of `host`, which has what lies in the image, and 0 elsewhere.
pub fn place(alloc: Global, plan: &ReadPlan, host: &[u8]) -> Result<Bytes, AllocError>
    requires columns { plan.now.part.left + plan.now.part.rect.w ≤ plan.now.width }
    requires rows { plan.now.part.top + plan.now.part.rect.h ≤ plan.now.height }
    requires size { length host.now ≡ plan_size plan.now }
    ensures { IfOk result (λ bytes. bytes ≡ placed plan.now host.now) }
{
    let mut bytes = blank(alloc, plan.width, plan.height, plan.texel)?;
    for row in 0..plan.part.rect.h {
        put_row(&mut bytes, plan, row, host);
    }
    Ok(bytes)
}
