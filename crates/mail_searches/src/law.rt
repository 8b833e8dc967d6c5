//! What follows of the definitions on searches.
ghost use Rattle.std.specs.Prelude.{◌≡◌, List, Some};
ghost use Rattle.mapi_values.specs.Values.{Val};
ghost use Rattle.search_obj.specs.Crits.{Crit};
ghost use Rattle.search_obj.specs.Objects.{Says};
ghost use Rattle.mail_searches.specs.Searches.{criteria_of};

/// The criteria that the values of an object say are those that are found in them.
pub fn criteria_are_found()
    ensures { (props : List Val) (c : Crit) → Says props c → criteria_of props ≡ Some c }
{}
