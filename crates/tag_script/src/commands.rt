//! The commands of a plain script.
ghost use Rattle.std.specs.Prelude.{◌≡◌, ◌≤◌, IfOk, OnOk};
ghost use Rattle.tag_lines.specs.ScriptLines.{IsPlain};
ghost use Rattle.tag_script.specs.Commands.{Obeys, ObeysOrder, AreTotals};
ghost use Rattle.tag_script.specs.PlainCallers.{plain_world_of, IsReadyFor, Counted};

use crate::answer::Answer;
use crate::plain_caller::PlainCaller;
use crate::world::World;
use std::alloc::AllocError;
use tag_lines::{Command, Order};
use tag_model::Totals;

impl World for PlainCaller {
    ghost use Rattle.tag_script.specs.PlainCallerLaws.{ready_for_fewer};

    ghost ready = { λ p n. IsReadyFor n (plain_world_of p) };

    ghost knows = { λ p order. IsPlain order.command };

    ghost answers = { λ p order answer q. ObeysOrder (plain_world_of p) order answer (plain_world_of q) };

    ghost counts = { λ p totals. AreTotals (plain_world_of p) totals };

    ghost ready_fewer = { λ p. ready_for_fewer (plain_world_of p) };

    fn obey(self, order: &Order) -> Result<(Answer, PlainCaller), AllocError> {
        let mut world = self;
        let answer = world.answer(&order.command)?;
        Ok((answer, world))
    }

    fn totals(self) -> Totals {
        let mut world = self;
        let (held, _) = world.counts();
        Totals {
            got: world.won(),
            back: world.back(),
            held: u64::from(held),
            posted: 0,
        }
    }
}

impl PlainCaller {
    /// Carries out a command of a plain script.
    fn answer(&mut self, command: &Command) -> Result<Answer, AllocError>
        requires ready { IsReadyFor 1 (plain_world_of self.old) }
        requires known { IsPlain command.now }
        ensures obeys { IfOk result (λ answer. Obeys command.now (plain_world_of self.old) answer (plain_world_of self.new)) }
        ensures counted { OnOk result (Counted (plain_world_of self.old) (plain_world_of self.new)) }
    {
        match command {
            Command::Get => Ok(Answer::Tag(self.get())),
            Command::Shallow(depth) => Ok(Answer::to_get(self.get_shallow(*depth))),
            Command::Batch(n) => Ok(Answer::to_batch(self.get_batch(*n))),
            Command::Clear(tag) => Ok(Answer::to_done(self.clear(*tag))),
            Command::ClearBatch(tags) => Ok(Answer::to_done(self.clear_batch(tags.as_slice()))),
            Command::Show => Ok(Answer::Shown(self.shown())),
            Command::Busy => Ok(Answer::Busy(self.busy()?)),
            Command::Dump => Ok(Answer::Dump(self.dump()?)),
            _ => unreachable!(),
        }
    }
}
