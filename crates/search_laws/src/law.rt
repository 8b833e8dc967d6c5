//! What follows of every command where there are searches.
ghost use Rattle.search_laws.specs.Laws.{IsSoundInOrder, MakesInOrder, MovesInOrder, RemovesInOrder, RenamesInOrder, SetsInOrder, StartsInOrder, StaysInOrder};

/// `mksearch` is answered or refused, and leaves all in order.
pub fn makes_in_order()
    ensures { MakesInOrder }
{}

/// `criteria` is answered or refused, and leaves all in order: a running search then lists what filtering lists.
pub fn sets_in_order()
    ensures { SetsInOrder }
{}

/// `rename` of an own search folder is answered or refused, and leaves all in order.
pub fn renames_in_order()
    ensures { RenamesInOrder }
{}

/// `mvdir` of an own search folder is answered or refused, and leaves all in order.
pub fn moves_in_order()
    ensures { MovesInOrder }
{}

/// `rmdir` of an own search folder is answered or refused, and leaves all in order.
pub fn removes_in_order()
    ensures { RemovesInOrder }
{}

/// A tree with its searches that is in order is so after each command, which is answered or refused, and tidy where it was.
pub fn stays_in_order()
    ensures { StaysInOrder }
{}

/// A new store is in order, and tidy.
pub fn starts_in_order()
    ensures { StartsInOrder }
{}

/// A tree with its searches that is in order is sound, tidy or not.
pub fn in_order_is_sound()
    ensures { IsSoundInOrder }
{}
