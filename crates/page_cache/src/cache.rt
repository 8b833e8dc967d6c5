//! A cache of pages.
ghost use Rattle.std.specs.Prelude.{◌≡◌, ◌≤◌, ℕ, List, [], Option, Some, IfSome, IfOk, OnErr};
ghost use Rattle.pst_base.specs.declared.ids.Bref.{Bref as Brefs};
ghost use Rattle.page_cache.specs.Cache.{Holds, AgreeBut};

use lru::LruCache;
use pst_base::{Bid, Bref};
use std::alloc::{AllocError, Global};
use std::marker::Model;
use std::num::NonZeroUsize;

/// A page's id and content.
#[derive(Clone, Copy)]
pub struct Cached {
    pub bid: Bid,
    pub body: [u8; 496],
}

/// The pages that were used last. Contracts see them by their places.
#[derive(Drop)]
pub struct PageCache {
    pages: LruCache<u64, Cached>,
}

impl Model for PageCache {
    ghost use Rattle.std.specs.Prelude.{ℕ, List};
    ghost use Rattle.page_cache.specs.declared.cache.Cached.{Cached};

    ghost Value = { List (ℕ × Cached) };

    ghost view = { λ c. c.pages.entries };
}

impl PageCache {
    /// A cache of at most so many pages, without any.
    pub fn new(alloc: Global, pages: usize) -> Result<PageCache, AllocError>
        requires { 1 ≤ pages }
        ensures { IfOk result (λ cache. cache ≡ []) }
    {
        let Some(pages) = NonZeroUsize::new(pages) else {
            return Err(AllocError);
        };
        Ok(PageCache {
            pages: LruCache::new(alloc, pages)?,
        })
    }

    /// The content of the page with this id at this place, if it is in the cache.
    pub fn get(&mut self, at: Bref) -> Option<[u8; 496]>
        ensures page { (find : Brefs → Option (List ℕ)) → Holds find self.old → IfSome result (λ body. find at ≡ Some body) }
        ensures same { (find : Brefs → Option (List ℕ)) → Holds find self.old → Holds find self.new }
    {
        self.pages.promote(&at.ib);
        let Some(page) = self.pages.peek(&at.ib) else {
            return None;
        };
        if page.bid.bits != at.bid.bits {
            return None;
        }
        Some(page.body)
    }

    /// Puts a page into the cache, in place of another of its place. Where memory is wanted the cache is as before.
    pub fn put(&mut self, at: Bref, body: &[u8; 496]) -> Result<(), AllocError>
        ensures kept { (find : Brefs → Option (List ℕ)) → Holds find self.old → find at ≡ Some body.now → Holds find self.new }
        ensures err { OnErr result (self.new ≡ self.old) }
    {
        let page = Cached {
            bid: at.bid,
            body: *body,
        };
        match self.pages.put(at.ib, page) {
            Ok(_) => Ok(()),
            Err(_) => Err(AllocError),
        }
    }

    /// Drops the page at a place, where other bytes may then stand.
    pub fn forget(&mut self, ib: u64)
        ensures { (one other : Brefs → Option (List ℕ)) → Holds one self.old → AgreeBut ib one other → Holds other self.new }
    {
        let _before = self.pages.len();
        self.pages.pop(&ib);
        let _after = self.pages.len();
    }

    /// Drops all pages.
    pub fn clear(&mut self)
        ensures { self.new ≡ [] }
    {
        self.pages.clear();
    }
}
