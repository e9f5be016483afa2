//! What a thread of a generated trace does first.

ghost use Rattle.std.specs.Prelude.{◌≡◌, ◌++◌, ◌<◌, OnOk, string_bytes};
ghost use Rattle.trace_gen.specs.Lines.{lines_text, context_lines, source_lines, target_lines, image_lines, first_framebuffer_lines, second_framebuffer_lines, first_lines};

use std::alloc::AllocError;

/// Makes the thread's context, buffers, images and framebuffers.
#[tactic(auto, unfolding(crate::specs::Lines::first_lines))]
pub fn put_first_lines(out: &mut String, thread: u8) -> Result<(), AllocError>
    requires { thread < 4 }
    ensures { OnOk result (string_bytes out.new ≡ string_bytes out.old ++ lines_text (first_lines thread)) }
{
    put_context(out, thread)?;
    put_source(out, thread)?;
    put_target(out, thread)?;
    put_images(out, thread)?;
    put_first_framebuffer(out, thread)?;
    put_second_framebuffer(out, thread)
}

#[tactic(auto, unfolding(crate::specs::Lines::context_lines))]
fn put_context(out: &mut String, thread: u8) -> Result<(), AllocError>
    requires { thread < 4 }
    ensures { OnOk result (string_bytes out.new ≡ string_bytes out.old ++ lines_text (context_lines thread)) }
{
    let context = thread + 1;
    write!(
        out,
        "{thread} ecreate {context}\n{thread} ecurrent {context}\n"
    )?;
    Ok(())
}

#[tactic(auto, unfolding(crate::specs::Lines::source_lines))]
fn put_source(out: &mut String, thread: u8) -> Result<(), AllocError>
    requires { thread < 4 }
    ensures { OnOk result (string_bytes out.new ≡ string_bytes out.old ++ lines_text (source_lines thread)) }
{
    let buffer = 2 * thread + 1;
    write!(out, "{thread} bind copy_read {buffer}\n")?;
    write!(
        out,
        "{thread} bdata copy_read 256 dynamic_draw %256,{thread},1\n"
    )?;
    Ok(())
}

#[tactic(auto, unfolding(crate::specs::Lines::target_lines))]
fn put_target(out: &mut String, thread: u8) -> Result<(), AllocError>
    requires { thread < 4 }
    ensures { OnOk result (string_bytes out.new ≡ string_bytes out.old ++ lines_text (target_lines thread)) }
{
    let buffer = 2 * thread + 2;
    write!(out, "{thread} bind copy_write {buffer}\n")?;
    write!(out, "{thread} bdata copy_write 256 dynamic_draw %256,0,0\n")?;
    Ok(())
}

#[tactic(auto, unfolding(crate::specs::Lines::image_lines))]
fn put_images(out: &mut String, thread: u8) -> Result<(), AllocError>
    requires { thread < 4 }
    ensures { OnOk result (string_bytes out.new ≡ string_bytes out.old ++ lines_text (image_lines thread)) }
{
    let image = thread + 1;
    write!(out, "{thread} bind texture {image}\n")?;
    write!(out, "{thread} tstorage 1 rgba8ui 32 32\n")?;
    write!(out, "{thread} bind renderbuffer {image}\n")?;
    write!(out, "{thread} rstorage rgba8ui 32 32\n")?;
    Ok(())
}

#[tactic(auto, unfolding(crate::specs::Lines::first_framebuffer_lines))]
fn put_first_framebuffer(out: &mut String, thread: u8) -> Result<(), AllocError>
    requires { thread < 4 }
    ensures { OnOk result (string_bytes out.new ≡ string_bytes out.old ++ lines_text (first_framebuffer_lines thread)) }
{
    let image = thread + 1;
    write!(out, "{thread} bind framebuffer 1\n")?;
    write!(out, "{thread} attach framebuffer c0 renderbuffer {image}\n")?;
    write!(out, "{thread} clearu 0 1 2 3 4\n")?;
    Ok(())
}

#[tactic(auto, unfolding(crate::specs::Lines::second_framebuffer_lines))]
fn put_second_framebuffer(out: &mut String, thread: u8) -> Result<(), AllocError>
    requires { thread < 4 }
    ensures { OnOk result (string_bytes out.new ≡ string_bytes out.old ++ lines_text (second_framebuffer_lines thread)) }
{
    let image = thread + 1;
    write!(out, "{thread} bind draw_fb 2\n")?;
    write!(out, "{thread} attach draw_fb c0 texture {image}\n")?;
    write!(out, "{thread} clearu 0 0 0 0 0\n")?;
    Ok(())
}
