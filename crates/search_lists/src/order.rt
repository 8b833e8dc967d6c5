//! What stays in order while the lists of searches change.
ghost use Rattle.search_lists.specs.Keeps.{ResultsKeepOrder, SettlingKeepsOrder};

/// A search may get other rows: the tree stays whole and as an opening finds it, its rows mirror what they show, and its counts are right.
pub fn results_keep_order()
    ensures { ResultsKeepOrder }
{}

/// So they do after all searches were settled.
pub fn settling_keeps_order()
    ensures { SettlingKeepsOrder }
{}
