//! Commands that list and count busy tags.
ghost use Rattle.std.specs.Prelude.{◌≡◌, IfOk};
ghost use Rattle.tag_board.specs.Boards.{state_of, IsCallerOf};
ghost use Rattle.tag_board.specs.Looks.{ListsBusy, Shows, Dumps, depth_of};

use crate::board::Board;
use std::alloc::{AllocError, Global};
use tag_queue::{Kind, Shown};

impl Board {
    /// Returns a bit for each tag, 1 for a busy one: tag `t` is the bit `t % 64` of the word `t / 64`.
    pub fn busy(&mut self, alloc: Global, caller: u32) -> Result<Vec<u64>, AllocError>
        requires { IsCallerOf self.old caller }
        ensures { IfOk result (λ bits. ListsBusy caller (state_of self.old) bits.items (state_of self.new)) }
    {
        let mut bits = vec![in alloc; 0u64; self.total.div_ceil(64) as usize]?;
        self.queue.busy(&mut self.hands[caller as usize], &mut bits);
        Ok(bits)
    }

    /// Returns the sizes of a set, and how many of its tags are busy and how many set aside.
    pub fn show(&mut self, caller: u32, kind: Kind) -> Shown
        requires { IsCallerOf self.old caller }
        ensures { Shows kind caller (state_of self.old) result (state_of self.new) }
    {
        self.queue.show(&mut self.hands[caller as usize], kind)
    }

    /// Returns a bit for each tag of a set, 1 for a busy one, eight per byte, low bit first.
    pub fn dump(&mut self, alloc: Global, caller: u32, kind: Kind) -> Result<Vec<u8>, AllocError>
        requires { IsCallerOf self.old caller }
        ensures { IfOk result (λ bytes. Dumps kind caller (state_of self.old) bytes.items (state_of self.new)) }
    {
        let depth = self.depth(kind);
        let mut bytes = vec![in alloc; 0u8; depth.div_ceil(8) as usize]?;
        self.queue
            .dump(&mut self.hands[caller as usize], kind, &mut bytes);
        Ok(bytes)
    }

    /// Returns the number of tags of a set.
    fn depth(&self, kind: Kind) -> u32
        ensures { result ≡ depth_of (state_of self.now) kind }
    {
        match kind {
            Kind::Ordinary => self.total - self.reserved,
            Kind::Reserved => self.reserved,
        }
    }
}
