ghost use Rattle.std.specs.Prelude.{◌≡◌};
ghost use Rattle.std.specs.Option.{option_copied, option_map};
ghost use Rattle.gl_model.specs.Bindings.{current_context, buffer_binding, bound_buffer, same_option};

use crate::objects::BufferFacts;
use crate::state::{Context, GroupState};
use gl_calls::BufferTarget;

/// Whether a context is current on a thread.
fn is_current_on(context: &Context, thread: u32) -> bool
    ensures { result ≡ same_option context.now.thread (Some thread) }
{
    match context.thread {
        Some(t) => t == thread,
        None => false,
    }
}

impl Context {
    ghost use Rattle.gl_model.specs.Bindings.{buffer_binding};

    /// The buffer that is bound to a target, by its number.
    pub fn buffer_binding(&self, target: BufferTarget) -> Option<u32>
        ensures { result ≡ buffer_binding self.now target }
    {
        match target {
            BufferTarget::Array => self.array,
            BufferTarget::CopyRead => self.copy_read,
            BufferTarget::CopyWrite => self.copy_write,
            BufferTarget::PixelPack => self.pixel_pack,
            BufferTarget::PixelUnpack => self.pixel_unpack,
            BufferTarget::Other => None,
        }
    }
}

impl GroupState {
    ghost use Rattle.gl_model.specs.Bindings.{current_entry, current_context, bound_buffer};
    ghost use Rattle.std.specs.Map.Iter.{deref_pair};

    /// The context that is current on a thread, with its number.
    fn current_entry(&self, thread: u32) -> Option<(&u32, &Context)>
        ensures { option_map deref_pair result ≡ current_entry self.now thread }
    {
        self.contexts.iter().find(|e| is_current_on(e.1, thread))
    }

    /// The context that is current on a thread.
    pub fn current(&self, thread: u32) -> Option<&Context>
        ensures { option_copied result ≡ current_context self.now thread }
    {
        match self.current_entry(thread) {
            Some((_, context)) => Some(context),
            None => None,
        }
    }

    /// The buffer that is bound to a target.
    pub fn bound_buffer(&self, context: &Context, target: BufferTarget) -> Option<BufferFacts>
        ensures { result ≡ bound_buffer self.now context.now target }
    {
        match context.buffer_binding(target) {
            Some(buffer) => self.buffers.get(buffer).copied(),
            None => None,
        }
    }
}
