//! What a thread of a generated trace does last.

ghost use Rattle.std.specs.Prelude.{◌≡◌, ◌++◌, OnOk, string_bytes};
ghost use Rattle.trace_gen.specs.Lines.{lines_text, last_lines};

use std::alloc::AllocError;

/// Waits, and reads the thread's second buffer.
#[tactic(auto, unfolding(crate::specs::Lines::last_lines))]
pub fn put_last_lines(out: &mut String, thread: u8) -> Result<(), AllocError>
    ensures { OnOk result (string_bytes out.new ≡ string_bytes out.old ++ lines_text (last_lines thread)) }
{
    write!(out, "{thread} finish\n")?;
    write!(out, "{thread} bmap copy_write 0 256 r\n")?;
    write!(out, "{thread} mread copy_write 0 256\n")?;
    write!(out, "{thread} bunmap copy_write\n")?;
    Ok(())
}
