//! What the threads of a generated trace do in a round.

ghost use Rattle.std.specs.Prelude.{◌≡◌, ◌++◌, OnOk, string_bytes};
ghost use Rattle.trace_gen.specs.Lines.{lines_text, update_lines, copy_lines, texels_lines, clear_lines, blit_lines, read_lines, drawn_lines};

use std::alloc::AllocError;

/// What the thread does at a word: the word's rest by 6 chooses, and two parts of the word say where.
#[tactic(auto, unfolding(crate::specs::Lines::drawn_lines))]
pub fn put_drawn(out: &mut String, thread: u8, word: u64) -> Result<(), AllocError>
    ensures { OnOk result (string_bytes out.new ≡ string_bytes out.old ++ lines_text (drawn_lines thread word)) }
{
    let a = (word >> 8) % 240;
    let b = (word >> 16) % 16;
    match word % 6 {
        0 => put_update(out, thread, a, b),
        1 => put_copy(out, thread, a, b),
        2 => put_texels(out, thread, a, b),
        3 => put_clear(out, thread, b),
        4 => put_blit(out, thread, b),
        _ => put_read(out, thread, b),
    }
}

#[tactic(auto, unfolding(crate::specs::Lines::update_lines))]
fn put_update(out: &mut String, thread: u8, a: u64, b: u64) -> Result<(), AllocError>
    ensures { OnOk result (string_bytes out.new ≡ string_bytes out.old ++ lines_text (update_lines thread a b)) }
{
    write!(out, "{thread} bsub copy_read {a} %16,{b},1\n")?;
    Ok(())
}

#[tactic(auto, unfolding(crate::specs::Lines::copy_lines))]
fn put_copy(out: &mut String, thread: u8, a: u64, b: u64) -> Result<(), AllocError>
    ensures { OnOk result (string_bytes out.new ≡ string_bytes out.old ++ lines_text (copy_lines thread a b)) }
{
    write!(out, "{thread} bcopy copy_read copy_write {a} {b} 8\n")?;
    Ok(())
}

#[tactic(auto, unfolding(crate::specs::Lines::texels_lines))]
fn put_texels(out: &mut String, thread: u8, a: u64, b: u64) -> Result<(), AllocError>
    ensures { OnOk result (string_bytes out.new ≡ string_bytes out.old ++ lines_text (texels_lines thread a b)) }
{
    write!(
        out,
        "{thread} tsub {b} {b} 4 4 rgba_integer unsigned_byte %64,{a},1\n"
    )?;
    Ok(())
}

#[tactic(auto, unfolding(crate::specs::Lines::clear_lines))]
fn put_clear(out: &mut String, thread: u8, b: u64) -> Result<(), AllocError>
    ensures { OnOk result (string_bytes out.new ≡ string_bytes out.old ++ lines_text (clear_lines thread b)) }
{
    write!(out, "{thread} clearu 0 {b} {b} {b} {b}\n")?;
    Ok(())
}

#[tactic(auto, unfolding(crate::specs::Lines::blit_lines))]
fn put_blit(out: &mut String, thread: u8, b: u64) -> Result<(), AllocError>
    ensures { OnOk result (string_bytes out.new ≡ string_bytes out.old ++ lines_text (blit_lines thread b)) }
{
    write!(out, "{thread} blit 0 0 16 16 {b} {b} 32 32 color nearest\n")?;
    Ok(())
}

#[tactic(auto, unfolding(crate::specs::Lines::read_lines))]
fn put_read(out: &mut String, thread: u8, b: u64) -> Result<(), AllocError>
    ensures { OnOk result (string_bytes out.new ≡ string_bytes out.old ++ lines_text (read_lines thread b)) }
{
    write!(out, "{thread} bind read_fb 2\n")?;
    write!(
        out,
        "{thread} readpix {b} {b} 2 2 rgba_integer unsigned_byte client\n"
    )?;
    write!(out, "{thread} bind read_fb 1\n")?;
    Ok(())
}
