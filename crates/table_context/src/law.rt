//! What the definition of a table context is worth.
ghost use Rattle.std.specs.Prelude.{◌≡◌, ℕ, List};
ghost use Rattle.pst_base.specs.Flat.{Flat};
ghost use Rattle.mapi_values.specs.Tables.{Tab};
ghost use Rattle.table_context.specs.declared.fault.TcFault.{TcFault};
ghost use Rattle.table_context.specs.Context.{IsTableContext, Lacks};

/// Blocks and subnodes are at most one table, and none where something is wrong with them.
pub fn one_table()
    ensures one { (blocks : List (List ℕ)) (subs : List Flat) (t u : Tab) → IsTableContext blocks subs t → IsTableContext blocks subs u → t ≡ u }
    ensures none { (blocks : List (List ℕ)) (subs : List Flat) (t : Tab) (fault : TcFault) → Lacks blocks subs fault → IsTableContext blocks subs t → ⊥ }
{}
