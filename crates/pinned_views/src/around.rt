//! What a keeper tells around a call, for contracts alone.
use std::marker::Brand;

/// What a keeper tells before a call, and is to tell behind it. A call passes `Brand`, and picks the members from the keeper that it has.
pub trait Around {
    ghost use Rattle.std.specs.Prelude.{ℕ, List};
    ghost use Rattle.node_port.specs.Nodes.{Nodes};

    /// The nodes that it holds.
    ghost held: { Nodes → Type 0 };

    /// What a pin of this number tells.
    ghost told: { ℕ → Nodes → Type 0 };

    /// The counters of indices.
    ghost last: { List ℕ };
}

impl Around for Brand {
    ghost use Rattle.std.specs.Prelude.{[]};

    ghost held = { λ N. Unit {0} };

    ghost told = { λ p N. Unit {0} };

    ghost last = { [] };
}
