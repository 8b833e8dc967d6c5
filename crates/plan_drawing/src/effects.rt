//! What is known of a file after a commit.
use pst_base::Place;
use ref_counts::RefChange;

/// What a planner knows after a commit.
#[derive(Drop)]
pub struct PlanEffects {
    /// The places of new pages and blocks.
    pub taken: Vec<Place>,
    /// The places that are free then, but for fixed pages.
    pub freed: Vec<Place>,
    /// The numbers of references that change.
    pub refs: Vec<RefChange>,
    /// How many pages both trees have then.
    pub pages: u64,
    /// The number of the next block.
    pub next_block: u64,
    /// The number of the next page.
    pub next_page: u64,
}
