//! What follows for every property context.
ghost use Rattle.std.specs.Prelude.{◌≡◌, ℕ, List};
ghost use Rattle.pst_base.specs.Flat.{Flat};
ghost use Rattle.mapi_values.specs.Values.{Val};
ghost use Rattle.property_context.specs.declared.read.PcFault.{PcFault};
ghost use Rattle.property_context.specs.Context.{IsPropertyContext, Lacks};

/// A law: the same bytes are at most one property context, and none where they have a fault. So reading what was written gives the same properties.
pub fn one_context()
    ensures one { (blocks : List (List ℕ)) (subs : List Flat) (values others : List Val) (rest left : List Flat) → IsPropertyContext blocks subs values rest → IsPropertyContext blocks subs others left → (values ≡ others) × (rest ≡ left) }
    ensures none { (blocks : List (List ℕ)) (subs : List Flat) (values : List Val) (rest : List Flat) (fault : PcFault) → Lacks blocks subs fault → IsPropertyContext blocks subs values rest → ⊥ }
{}
