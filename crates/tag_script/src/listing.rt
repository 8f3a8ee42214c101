//! The held tags, as a list and as bytes.
ghost use Rattle.std.specs.Prelude.{ℕ, false, ◌≡◌, ◌^◌, ◌<◌, IfOk};
ghost use Rattle.tag_script.specs.Commands.{busy_tags, dump_bytes};
ghost use Rattle.tag_script.specs.Dump.{held_byte};
ghost use Rattle.tag_script.specs.PlainCallers.{plain_world_of};

use crate::answer::{BusyTags, DumpBytes};
use crate::plain_caller::PlainCaller;
use std::alloc::AllocError;

impl PlainCaller {
    /// Lists the tags that the caller holds, ascending.
    pub(crate) fn busy(&mut self) -> Result<BusyTags, AllocError>
        ensures same { plain_world_of self.new ≡ plain_world_of self.old }
        ensures tags { IfOk result (λ tags. tags ≡ busy_tags (plain_world_of self.old)) }
    {
        let layout = self.layout();
        let mut tags = Vec::new(self.alloc());
        for word in 0..layout.words() {
            if !self.holds_any(word) {
                continue;
            }
            for place in 0..layout.word_depth(word) {
                let tag = layout.tag_at(word, place);
                if self.holds(tag) {
                    tags.push(tag)?;
                }
            }
        }
        Ok(BusyTags::new(tags))
    }

    /// Returns a bit for each tag, 1 if it is held, eight to a byte, the lowest tag in bit 0 of the first byte.
    pub(crate) fn dump(&self) -> Result<DumpBytes, AllocError>
        ensures { IfOk result (λ bytes. bytes ≡ dump_bytes (plain_world_of self.now)) }
    {
        let mut bytes = Vec::new(self.alloc());
        for offset in 0..self.layout().depth().div_ceil(8) {
            bytes.push(self.held_byte(offset))?;
        }
        Ok(DumpBytes::new(bytes))
    }

    /// The bits of eight tags, the first in bit 0.
    fn held_byte(&self, offset: u32) -> u8
        requires { offset < 2 ^ 29 }
        ensures { result ≡ held_byte (plain_world_of self.now) offset }
    {
        let mut byte = 0u8;
        for bit in 0..8 {
            if self.holds(8 * offset + bit) {
                byte += 1 << bit;
            }
        }
        byte
    }
}
