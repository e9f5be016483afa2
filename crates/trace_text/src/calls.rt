//! The call of a line.

mod buffers;
mod contexts;
mod drawing;
mod framebuffers;
mod images;
mod names;
mod syncs;

ghost use Rattle.trace_text.specs.Grammar.{call_of};
ghost use Rattle.trace_words.specs.Faults.{Gives};

use crate::call_word::CallWord;
use gl_calls::Call;
use std::alloc::Global;
use trace_words::{Stop, Words};

/// The call that the call word and the words after it spell.
pub fn call(alloc: Global, word: CallWord, words: &mut Words) -> Result<Call, Stop>
    ensures { Gives result (call_of word words.old) }
{
    match word {
        CallWord::CreateContext => Ok(contexts::create_context(words)?),
        CallWord::DestroyContext => Ok(contexts::destroy_context(words)?),
        CallWord::MakeCurrent => Ok(contexts::make_current(words)?),
        CallWord::EglGetError => Ok(contexts::egl_get_error(words)?),
        CallWord::CreateSync => Ok(syncs::create_sync(words)?),
        CallWord::EglClientWaitSync => Ok(syncs::egl_client_wait_sync(words)?),
        CallWord::DestroySync => Ok(syncs::destroy_sync(words)?),
        CallWord::GetError => Ok(names::get_error(words)?),
        CallWord::GetInteger => Ok(names::get_integer(words)?),
        CallWord::Gen => Ok(names::generate(words)?),
        CallWord::Delete => Ok(names::delete(words)?),
        CallWord::Bind => Ok(names::bind(words)?),
        CallWord::BufferData => buffers::buffer_data(alloc, words),
        CallWord::BufferSubData => buffers::buffer_sub_data(alloc, words),
        CallWord::CopyBufferSubData => Ok(buffers::copy_buffer_sub_data(words)?),
        CallWord::MapBufferRange => Ok(buffers::map_buffer_range(words)?),
        CallWord::FlushMappedBufferRange => Ok(buffers::flush_mapped_buffer_range(words)?),
        CallWord::UnmapBuffer => Ok(buffers::unmap_buffer(words)?),
        CallWord::MapRead => Ok(buffers::map_read(words)?),
        CallWord::MapWrite => buffers::map_write(alloc, words),
        CallWord::TexStorage => Ok(images::tex_storage(words)?),
        CallWord::TexSubImage => images::tex_sub_image(alloc, words),
        CallWord::CopyTexSubImage => Ok(images::copy_tex_sub_image(words)?),
        CallWord::RenderbufferStorage => Ok(images::renderbuffer_storage(words)?),
        CallWord::Attach => Ok(framebuffers::attach(words)?),
        CallWord::CheckFramebufferStatus => Ok(framebuffers::check_framebuffer_status(words)?),
        CallWord::DrawBuffers => framebuffers::draw_buffers(alloc, words),
        CallWord::ReadBuffer => Ok(framebuffers::read_buffer(words)?),
        CallWord::ClearUnsigned => Ok(drawing::clear_unsigned(words)?),
        CallWord::ClearSigned => Ok(drawing::clear_signed(words)?),
        CallWord::ScissorTest => Ok(drawing::scissor_test(words)?),
        CallWord::ScissorBox => Ok(drawing::scissor_box(words)?),
        CallWord::Blit => Ok(drawing::blit(words)?),
        CallWord::Invalidate => Ok(drawing::invalidate(words)?),
        CallWord::ReadPixels => Ok(drawing::read_pixels(words)?),
        CallWord::PixelStore => Ok(drawing::pixel_store(words)?),
        CallWord::FenceSync => Ok(syncs::fence_sync(words)?),
        CallWord::ClientWaitSync => Ok(syncs::client_wait_sync(words)?),
        CallWord::WaitSync => Ok(syncs::wait_sync(words)?),
        CallWord::DeleteSync => Ok(syncs::delete_sync(words)?),
        CallWord::Flush => Ok(syncs::flush(words)?),
        CallWord::Finish => Ok(syncs::finish(words)?),
    }
}
