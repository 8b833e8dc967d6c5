//! What a scan found, taken over by a planner.
use crate::held::Held;
use crate::planner::FilePlanner;
use file_laying::FoundStore;
use file_scan::FoundFile;
use node_store::PageCaches;
use page_cache::PageCache;
use pst_outside::Outside;
use std::alloc::{AllocError, Global};

/// How many pages of each tree are kept in memory.
const KEPT: usize = 64;

impl<W: Outside> FoundStore<W> for FilePlanner {
    fn from_found(alloc: Global, found: FoundFile) -> Result<FilePlanner, AllocError> {
        let blocks = PageCache::new(alloc, KEPT)?;
        let nodes = PageCache::new(alloc, KEPT)?;
        let held = Held::new(alloc);
        Ok(FilePlanner {
            caches: PageCaches { blocks, nodes },
            slots: found.slots,
            held,
            refs: found.refs,
            pages: found.pages,
            next_block: found.next_block,
            next_page: found.next_page,
        })
    }
}
