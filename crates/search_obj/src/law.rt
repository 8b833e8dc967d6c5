//! What follows of the definitions on searches.
ghost use Rattle.std.specs.Prelude.{◌≡◌, ◌&&◌, ℕ, List, Some, false, true, ◌||◌};
ghost use Rattle.mapi_values.specs.Values.{Val};
ghost use Rattle.search_obj.specs.declared.flags.SearchFlags.{SearchFlags};
ghost use Rattle.search_obj.specs.Flags.{are_allowed, flags_of, number_of_flags};
ghost use Rattle.search_obj.specs.Crits.{Crit, CritSet};
ghost use Rattle.search_obj.specs.Objects.{Says};
ghost use Rattle.search_obj.specs.Scope.{are_in_order, in_scope, is_among, is_listed, is_plain};

/// The values of an object say one thing: no two searches have the same.
pub fn criteria_are_unique()
    ensures { (vs : List Val) (c d : Crit) → Says vs c → Says vs d → c ≡ d }
{}

/// Each number is that of one set of flags at most, and flags that a search may have are found again from their number.
pub fn flags_are_their_number()
    ensures found { (f : SearchFlags) → are_allowed f ≡ true → flags_of (number_of_flags f) ≡ Some f }
    ensures same { (n : ℕ) (f : SearchFlags) → flags_of n ≡ Some f → number_of_flags f ≡ n }
    ensures allowed { (n : ℕ) (f : SearchFlags) → flags_of n ≡ Some f → are_allowed f ≡ true }
{}

/// A scope has plain folders alone, and each of those that were given; where the search isn't recursive it has no others.
pub fn scopes_have_the_given_folders()
    ensures plain { (s : CritSet) (plain : List (ℕ × ℕ)) (f : ℕ) → in_scope s plain f ≡ true → is_plain plain f ≡ true }
    ensures given { (s : CritSet) (plain : List (ℕ × ℕ)) (f : ℕ) → is_among s.scope f ≡ true → is_plain plain f ≡ true → in_scope s plain f ≡ true }
    ensures shallow { (s : CritSet) (plain : List (ℕ × ℕ)) (f : ℕ) → s.flags.recursive ≡ false → in_scope s plain f ≡ (is_plain plain f && is_among s.scope f) }
{}

/// Where plain folders are listed once, each after its parent if it isn't its own, a folder of a recursive search is in the scope exactly where it is given or its parent is in the scope.
pub fn parents_decide()
    ensures { (s : CritSet) (plain : List (ℕ × ℕ)) (f parent : ℕ) → are_in_order plain ≡ true → s.flags.recursive ≡ true → is_listed plain f parent ≡ true
        → in_scope s plain f ≡ (is_among s.scope f || in_scope s plain parent) }
{}
