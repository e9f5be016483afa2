//! The words of a call as values.

ghost use Rattle.std.specs.Prelude.{◌≡◌, length};
ghost use Rattle.trace_words.specs.Faults.{Takes, TakesUnlessMemory, between};
ghost use Rattle.trace_words.specs.Positions as position;
ghost use Rattle.trace_words.specs.Positions.{take_first};

use crate::data::{access, payload};
use crate::fault::{Fault, Stop};
use crate::lexing::Words;
use crate::number::{number, signed_number};
use crate::tables::{
    ATTACHED, BIND_TARGETS, BUFFERS, CONDITIONS, DRAW_BUFFERS, FILTERS, FORMATS, FRAMEBUFFERS,
    LIMITS, MASKS, OBJECT_KINDS, PARAMETERS, PIXEL_FORMATS, PIXEL_TYPES, POINTS, SWITCHES, USAGES,
    word_in,
};
use formats::{PixelFormat, PixelType};
use gl_calls::{
    AccessWord, AttachPoint, AttachWhat, BindTarget, BlitFilter, BlitMask, BufferTarget,
    DrawBuffer, FenceCondition, FormatWord, FramebufferTarget, LimitName, ObjectKind, Payload,
    PixelDestination, PixelSource, StoreParameter, Usage, WaitEnd,
};
use std::alloc::Global;

/// Words that are read as a call's arguments from the left.
impl<'a> Words<'a> {
    /// Whether the number of words left is one of these.
    pub fn expect(&self, least: usize, most: usize) -> Result<(), Fault>
        ensures { result ≡ between least most self.now }
    {
        let count = self.count();
        if least <= count && count <= most {
            Ok(())
        } else {
            Err(Fault::Count)
        }
    }

    #[tactic(auto, unfolding(crate::specs::Positions::take_first, crate::specs::Positions::read))]
    pub fn buffer(&mut self) -> Result<BufferTarget, Fault>
        ensures { Takes result self.new (take_first position.buffer self.old) }
    {
        let word = self.next().ok_or(Fault::Count)?;
        word_in(&BUFFERS, word).ok_or(Fault::Word)
    }

    #[tactic(auto, unfolding(crate::specs::Positions::take_first, crate::specs::Positions::read))]
    pub fn framebuffer(&mut self) -> Result<FramebufferTarget, Fault>
        ensures { Takes result self.new (take_first position.framebuffer self.old) }
    {
        let word = self.next().ok_or(Fault::Count)?;
        word_in(&FRAMEBUFFERS, word).ok_or(Fault::Word)
    }

    #[tactic(auto, unfolding(crate::specs::Positions::take_first, crate::specs::Positions::read))]
    pub fn bind_target(&mut self) -> Result<BindTarget, Fault>
        ensures { Takes result self.new (take_first position.bind_target self.old) }
    {
        let word = self.next().ok_or(Fault::Count)?;
        word_in(&BIND_TARGETS, word).ok_or(Fault::Word)
    }

    #[tactic(auto, unfolding(crate::specs::Positions::take_first, crate::specs::Positions::read))]
    pub fn object_kind(&mut self) -> Result<ObjectKind, Fault>
        ensures { Takes result self.new (take_first position.object_kind self.old) }
    {
        let word = self.next().ok_or(Fault::Count)?;
        word_in(&OBJECT_KINDS, word).ok_or(Fault::Word)
    }

    #[tactic(auto, unfolding(crate::specs::Positions::take_first, crate::specs::Positions::read))]
    pub fn usage(&mut self) -> Result<Usage, Fault>
        ensures { Takes result self.new (take_first position.usage self.old) }
    {
        let word = self.next().ok_or(Fault::Count)?;
        word_in(&USAGES, word).ok_or(Fault::Word)
    }

    #[tactic(auto, unfolding(crate::specs::Positions::take_first, crate::specs::Positions::read))]
    pub fn format(&mut self) -> Result<FormatWord, Fault>
        ensures { Takes result self.new (take_first position.format self.old) }
    {
        let word = self.next().ok_or(Fault::Count)?;
        word_in(&FORMATS, word).ok_or(Fault::Word)
    }

    #[tactic(auto, unfolding(crate::specs::Positions::take_first, crate::specs::Positions::read))]
    pub fn pixel_format(&mut self) -> Result<PixelFormat, Fault>
        ensures { Takes result self.new (take_first position.pixel_format self.old) }
    {
        let word = self.next().ok_or(Fault::Count)?;
        word_in(&PIXEL_FORMATS, word).ok_or(Fault::Word)
    }

    #[tactic(auto, unfolding(crate::specs::Positions::take_first, crate::specs::Positions::read))]
    pub fn pixel_type(&mut self) -> Result<PixelType, Fault>
        ensures { Takes result self.new (take_first position.pixel_type self.old) }
    {
        let word = self.next().ok_or(Fault::Count)?;
        word_in(&PIXEL_TYPES, word).ok_or(Fault::Word)
    }

    #[tactic(auto, unfolding(crate::specs::Positions::take_first, crate::specs::Positions::read))]
    pub fn point(&mut self) -> Result<AttachPoint, Fault>
        ensures { Takes result self.new (take_first position.point self.old) }
    {
        let word = self.next().ok_or(Fault::Count)?;
        word_in(&POINTS, word).ok_or(Fault::Word)
    }

    #[tactic(auto, unfolding(crate::specs::Positions::take_first, crate::specs::Positions::read))]
    pub fn attached(&mut self) -> Result<AttachWhat, Fault>
        ensures { Takes result self.new (take_first position.attached self.old) }
    {
        let word = self.next().ok_or(Fault::Count)?;
        word_in(&ATTACHED, word).ok_or(Fault::Word)
    }

    #[tactic(auto, unfolding(crate::specs::Positions::take_first, crate::specs::Positions::read))]
    pub fn draw_buffer(&mut self) -> Result<DrawBuffer, Fault>
        ensures { Takes result self.new (take_first position.draw_buffer self.old) }
    {
        let word = self.next().ok_or(Fault::Count)?;
        word_in(&DRAW_BUFFERS, word).ok_or(Fault::Word)
    }

    #[tactic(auto, unfolding(crate::specs::Positions::take_first, crate::specs::Positions::read))]
    pub fn draw_buffer_if_any(&mut self) -> Result<Option<DrawBuffer>, Fault>
        ensures { Takes result self.new (take_first position.draw_buffer_if_any self.old) }
    {
        match self.next() {
            Some(word) => Ok(Some(word_in(&DRAW_BUFFERS, word).ok_or(Fault::Word)?)),
            None => Ok(None),
        }
    }

    #[tactic(auto, unfolding(crate::specs::Positions::take_first, crate::specs::Positions::read))]
    pub fn access(&mut self) -> Result<AccessWord, Fault>
        ensures { Takes result self.new (take_first position.access self.old) }
    {
        let word = self.next().ok_or(Fault::Count)?;
        access(word).ok_or(Fault::Word)
    }

    #[tactic(auto, unfolding(crate::specs::Positions::take_first, crate::specs::Positions::read))]
    pub fn parameter(&mut self) -> Result<StoreParameter, Fault>
        ensures { Takes result self.new (take_first position.parameter self.old) }
    {
        let word = self.next().ok_or(Fault::Count)?;
        word_in(&PARAMETERS, word).ok_or(Fault::Word)
    }

    #[tactic(auto, unfolding(crate::specs::Positions::take_first, crate::specs::Positions::read))]
    pub fn limit(&mut self) -> Result<LimitName, Fault>
        ensures { Takes result self.new (take_first position.limit self.old) }
    {
        let word = self.next().ok_or(Fault::Count)?;
        word_in(&LIMITS, word).ok_or(Fault::Word)
    }

    #[tactic(auto, unfolding(crate::specs::Positions::take_first, crate::specs::Positions::read))]
    pub fn u32(&mut self) -> Result<u32, Fault>
        ensures { Takes result self.new (take_first position.u32 self.old) }
    {
        let word = self.next().ok_or(Fault::Count)?;
        Ok(number(word, 0, 4_294_967_295).ok_or(Fault::Number)? as u32)
    }

    #[tactic(auto, unfolding(crate::specs::Positions::take_first, crate::specs::Positions::read))]
    pub fn u64(&mut self) -> Result<u64, Fault>
        ensures { Takes result self.new (take_first position.u64 self.old) }
    {
        let word = self.next().ok_or(Fault::Count)?;
        number(word, 0, u64::MAX).ok_or(Fault::Number)
    }

    #[tactic(auto, unfolding(crate::specs::Positions::take_first, crate::specs::Positions::read))]
    pub fn i32(&mut self) -> Result<i32, Fault>
        ensures { Takes result self.new (take_first position.i32 self.old) }
    {
        let word = self.next().ok_or(Fault::Count)?;
        Ok(signed_number(word, 1 << 31).ok_or(Fault::Number)? as i32)
    }

    #[tactic(auto, unfolding(crate::specs::Positions::take_first, crate::specs::Positions::read))]
    pub fn i64(&mut self) -> Result<i64, Fault>
        ensures { Takes result self.new (take_first position.i64 self.old) }
    {
        let word = self.next().ok_or(Fault::Count)?;
        signed_number(word, 1 << 63).ok_or(Fault::Number)
    }

    #[tactic(auto, unfolding(crate::specs::Positions::take_first, crate::specs::Positions::read))]
    pub fn flag(&mut self) -> Result<bool, Fault>
        ensures { Takes result self.new (take_first position.flag self.old) }
    {
        let word = self.next().ok_or(Fault::Count)?;
        Ok(number(word, 0, 1).ok_or(Fault::Number)? == 1)
    }

    #[tactic(auto, unfolding(crate::specs::Positions::take_first, crate::specs::Positions::read))]
    pub fn switch(&mut self) -> Result<bool, Fault>
        ensures { Takes result self.new (take_first position.switch self.old) }
    {
        let word = self.next().ok_or(Fault::Count)?;
        word_in(&SWITCHES, word).ok_or(Fault::Word)
    }

    #[tactic(auto, unfolding(crate::specs::Positions::take_first, crate::specs::Positions::read))]
    pub fn handle(&mut self) -> Result<u16, Fault>
        ensures { Takes result self.new (take_first position.handle self.old) }
    {
        let word = self.next().ok_or(Fault::Count)?;
        Ok(number(word, 1, 65_535).ok_or(Fault::Number)? as u16)
    }

    #[tactic(auto, unfolding(crate::specs::Positions::take_first, crate::specs::Positions::read))]
    pub fn handle_or_zero(&mut self) -> Result<u16, Fault>
        ensures { Takes result self.new (take_first position.handle_or_zero self.old) }
    {
        let word = self.next().ok_or(Fault::Count)?;
        Ok(number(word, 0, 65_535).ok_or(Fault::Number)? as u16)
    }

    #[tactic(auto, unfolding(crate::specs::Positions::take_first, crate::specs::Positions::read))]
    pub fn payload(&mut self, alloc: Global) -> Result<Payload, Stop>
        ensures { TakesUnlessMemory result self.new (take_first position.payload self.old) }
    {
        let word = self.next().ok_or(Fault::Count)?;
        payload(alloc, word)
    }

    #[tactic(auto, unfolding(crate::specs::Positions::take_first, crate::specs::Positions::read))]
    pub fn payload_or_null(&mut self, alloc: Global) -> Result<Option<Payload>, Stop>
        ensures { TakesUnlessMemory result self.new (take_first position.payload_or_null self.old) }
    {
        let word = self.next().ok_or(Fault::Count)?;
        if word == b"null".as_slice() {
            return Ok(None);
        }
        Ok(Some(payload(alloc, word)?))
    }

    #[tactic(auto, unfolding(crate::specs::Positions::take_first, crate::specs::Positions::read))]
    pub fn pixel_source(&mut self, alloc: Global) -> Result<PixelSource, Stop>
        ensures { TakesUnlessMemory result self.new (take_first position.pixel_source self.old) }
    {
        let word = self.next().ok_or(Fault::Count)?;
        match word {
            [b'+', offset @ ..] => {
                let offset = number(offset, 0, u64::MAX).ok_or(Fault::Number)?;
                Ok(PixelSource::Offset(offset))
            }
            _ => Ok(PixelSource::Client {
                payload: payload(alloc, word)?,
            }),
        }
    }

    #[tactic(auto, unfolding(crate::specs::Positions::take_first, crate::specs::Positions::read))]
    pub fn pixel_destination(&mut self) -> Result<PixelDestination, Fault>
        ensures { Takes result self.new (take_first position.pixel_destination self.old) }
    {
        let word = self.next().ok_or(Fault::Count)?;
        match word {
            [b'+', offset @ ..] => {
                let offset = number(offset, 0, u64::MAX).ok_or(Fault::Number)?;
                Ok(PixelDestination::Offset(offset))
            }
            b"client" => Ok(PixelDestination::Client),
            _ => Err(Fault::Word),
        }
    }

    #[tactic(auto, unfolding(crate::specs::Positions::take_first, crate::specs::Positions::read))]
    pub fn wait_end(&mut self) -> Result<WaitEnd, Fault>
        ensures { Takes result self.new (take_first position.wait_end self.old) }
    {
        let word = self.next().ok_or(Fault::Count)?;
        if word == b"ignored".as_slice() {
            return Ok(WaitEnd::Ignored);
        }
        Ok(WaitEnd::After(number(word, 0, u64::MAX).ok_or(Fault::Number)?))
    }

    #[tactic(auto, unfolding(crate::specs::Positions::take_first, crate::specs::Positions::read))]
    pub fn mask(&mut self) -> Result<BlitMask, Fault>
        ensures { Takes result self.new (take_first position.mask self.old) }
    {
        let word = self.next().ok_or(Fault::Count)?;
        word_in(&MASKS, word).ok_or(Fault::Word)
    }

    #[tactic(auto, unfolding(crate::specs::Positions::take_first, crate::specs::Positions::read))]
    pub fn filter(&mut self) -> Result<BlitFilter, Fault>
        ensures { Takes result self.new (take_first position.filter self.old) }
    {
        let word = self.next().ok_or(Fault::Count)?;
        word_in(&FILTERS, word).ok_or(Fault::Word)
    }

    #[tactic(auto, unfolding(crate::specs::Positions::take_first, crate::specs::Positions::read))]
    pub fn condition(&mut self) -> Result<FenceCondition, Fault>
        ensures { Takes result self.new (take_first position.condition self.old) }
    {
        let word = self.next().ok_or(Fault::Count)?;
        word_in(&CONDITIONS, word).ok_or(Fault::Word)
    }
}
