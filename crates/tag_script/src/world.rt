//! The worlds on which scripts run.
ghost use Rattle.std.specs.Prelude.{ℕ, ◌+◌, ◌≤◌, IfOk};
ghost use Rattle.tag_lines.specs.declared.order.Order.{Order as Line};
ghost use Rattle.tag_model.specs.declared.totals.Totals.{Totals as Sums};
ghost use Rattle.tag_script.specs.declared.answer.Answer.{Answer as Said};

use crate::answer::Answer;
use std::alloc::AllocError;
use tag_lines::Order;
use tag_model::Totals;

/// A world on which a script runs. Its answers are a relation, so texts and loops are proved once for all worlds.
pub trait World {
    /// The counts have room for those of this many more orders.
    ghost ready: { Self → ℕ → Type 0 };

    /// The world has the order's caller and its command.
    ghost knows: { Self → Line → Type 0 };

    /// The first world may give this answer to the order, and is then the second one.
    ghost answers: { Self → Line → Said → Self → Type 0 };

    /// The totals in the last line of a script.
    ghost counts: { Self → Sums → Type 0 };

    /// Carries out an order. It fails only if memory runs out: a refusal is an answer.
    fn obey(self, order: &Order) -> Result<(Answer, Self), AllocError>
        requires ready { ready self 1 }
        requires known { knows self order.now }
        ensures answers { IfOk result (λ (answer, new). answers self order.now answer new) }
        ensures ready { IfOk result (λ (answer, new). (n : ℕ) → ready self (n + 1) → ready new n) }
        ensures known { IfOk result (λ (answer, new). (o : Line) → knows self o → knows new o) };

    /// Closes the world at the end of a script, and returns the totals.
    fn totals(self) -> Totals
        requires ready { ready self 0 }
        ensures counts { counts self result };

    /// Room for a number of orders is room for fewer.
    ghost ready_fewer: { (w : Self) (m n : ℕ) → m ≤ n → ready w n → ready w m };
}
