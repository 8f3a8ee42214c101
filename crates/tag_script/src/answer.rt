//! The answers of commands.

use std::alloc::{AllocError, Global};
use std::marker::Model;
use tag_queue::{Left, ResizeCause, Shown, TagFault, WaitFault, Wakes};

/// The answer of a command.
#[derive(Debug, Drop)]
pub enum Answer {
    /// Of a get: the tag, or none.
    Tag(Option<u32>),
    /// Of a batch get: the tag of the mask's lowest bit, and the mask of the tags won; or none.
    Batch(Option<(u32, u64)>),
    /// The command was carried out, and woke this many waiters.
    Done(u32),
    /// Of a wait: the number of the group that the caller entered, below 8.
    Group(u32),
    /// Of the end of a wait: whether the caller used a wakeup.
    Left(Left),
    /// Of `wakes`: the counts that the caller found.
    Wakes(Wakes),
    /// Of `busy`: the busy tags, ascending.
    Busy(BusyTags),
    /// Of a show: the sizes and the counts of a set.
    Shown(Shown),
    /// Of a dump: a bit for each tag, 1 for a busy one, eight per byte.
    Dump(DumpBytes),
    /// The command was refused.
    Refused(TagFault),
    /// A wait was refused, or the end of one.
    NotWaited(WaitFault),
    /// A resize was refused.
    NotResized(ResizeCause),
}

/// A list of busy tags, ascending. A contract sees the list.
#[derive(Debug, Drop)]
pub struct BusyTags(Vec<u32>);

impl Model for BusyTags {
    ghost use Rattle.std.specs.Prelude.{ℕ, List};

    ghost Value = { List ℕ };

    ghost view = { λ tags. tags.0.items };
}

impl BusyTags {
    ghost use Rattle.std.specs.Prelude.{◌≡◌, ◌^◌, ◌≤◌, length, IfOk};
    ghost use Rattle.tag_script.specs.SharedCommands.{tags_in};

    /// Lists the numbers of the bits that are 1: bit `p` of word `w` is the tag `64 * w + p`.
    pub fn of_bits(alloc: Global, bits: &[u64]) -> Result<BusyTags, AllocError>
        requires { length bits.now ≤ 2 ^ 26 }
        ensures { IfOk result (λ tags. tags ≡ tags_in bits.now) }
    {
        let mut tags = Vec::new(alloc);
        for index in 0..bits.len() {
            let word = bits[index];
            // Most words of a large map have no busy tag.
            if word == 0 {
                continue;
            }
            for place in 0..64 {
                if word & (1 << place) != 0 {
                    tags.push((64 * index + place) as u32)?;
                }
            }
        }
        Ok(BusyTags::new(tags))
    }

    /// Wraps a list of tags.
    pub fn new(tags: Vec<u32>) -> BusyTags
        ensures { result ≡ tags.items }
    {
        BusyTags(tags)
    }

    /// Returns the tags in order.
    pub fn as_slice(&self) -> &[u32]
        ensures { result.now ≡ self.now }
    {
        self.0.as_slice()
    }
}

/// The bytes of a dump. A contract sees the list.
#[derive(Debug, Drop)]
pub struct DumpBytes(Vec<u8>);

impl Model for DumpBytes {
    ghost use Rattle.std.specs.Prelude.{ℕ, List};

    ghost Value = { List ℕ };

    ghost view = { λ bytes. bytes.0.items };
}

impl DumpBytes {
    ghost use Rattle.std.specs.Prelude.{◌≡◌};

    /// Wraps a list of bytes.
    pub fn new(bytes: Vec<u8>) -> DumpBytes
        ensures { result ≡ bytes.items }
    {
        DumpBytes(bytes)
    }

    /// Returns the bytes in order.
    pub fn as_slice(&self) -> &[u8]
        ensures { result.now ≡ self.now }
    {
        self.0.as_slice()
    }
}
