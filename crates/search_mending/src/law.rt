//! What follows of mending.
ghost use Rattle.search_mending.specs.Laws.{MendsAll, MendsInOrder, TellsStale};

/// A search is stale just where it runs and doesn't list what filtering all messages gives.
pub fn tells_stale()
    ensures { TellsStale }
{}

/// An own search folder is mended, or that is refused, and mending it leaves the tree in order, tidy where it was, with the same searches; it is neither stale nor of the first version then, and each other one and all else is as before.
pub fn mends_in_order()
    ensures { MendsInOrder }
{}

/// After all were mended all is in order, and each running search lists what filtering all messages gives.
pub fn mends_all()
    ensures { MendsAll }
{}
