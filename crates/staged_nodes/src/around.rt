//! What is so around a call within a transaction, for contracts alone.
use std::marker::Brand;

/// What a keeper tells before a call, and is to tell behind it, and which changes a transaction has. A call passes `Brand`, and picks the members from what it has.
pub trait AroundStaged {
    ghost use Rattle.std.specs.Prelude.{ℕ, List};
    ghost use Rattle.node_port.specs.Nodes.{Nodes};
    ghost use Rattle.staged_nodes.specs.declared.staging.Staging.{Staging};

    /// The nodes that it holds.
    ghost held: { Nodes → Type 0 };

    /// What a pin of this number tells.
    ghost told: { ℕ → Nodes → Type 0 };

    /// The counters of indices.
    ghost last: { List ℕ };

    /// The changes are these.
    ghost staged: { Staging → Type 0 };
}

impl AroundStaged for Brand {
    ghost use Rattle.std.specs.Prelude.{[]};

    ghost held = { λ N. Unit {0} };

    ghost told = { λ p N. Unit {0} };

    ghost last = { [] };

    ghost staged = { λ s. Unit {0} };
}
