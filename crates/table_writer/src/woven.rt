//! New subnodes among those that are kept.
ghost use Rattle.std.specs.Prelude.{◌≡◌, ◌<◌, ◌+◌, ◌*◌, ◌^◌, length, IfOk, true};
ghost use Rattle.pst_base.specs.Subs.{flattened};
ghost use Rattle.pst_base.specs.declared.subs.Sub.{Sub};
ghost use Rattle.mapi_values.specs.Keyed.{keys_ascend};
ghost use Rattle.node_values.specs.Subnodes.{sub_id};
ghost use Rattle.table_writer.specs.Woven.{FirstTo, IsWoven, Passes, Weaves, all_woven};

use node_values::copy_sub;
use pst_base::{Blocks, Nid, Sub, Subs};
use std::alloc::{AllocError, Global};

/// Subnodes by ascending ids: those that are done, and the kept ones behind them, which are still to be copied. Each new one gets the id of kind 1Fh with the index `next`, or a later one.
#[derive(Debug, Drop)]
pub struct Woven<'a> {
    pub done: Vec<Sub>,
    pub rest: &'a [Sub],
    pub next: u32,
}

/// The first of some subnodes and the others, if its id is at most this one.
fn first_to<'a>(rest: &'a [Sub], nid: u32) -> Option<(&'a Sub, &'a [Sub])>
    ensures { FirstTo rest.now nid result }
{
    let (first, others) = rest.split_first()?;
    if first.nid.bits <= nid {
        Some((first, others))
    } else {
        None
    }
}

impl<'a> Woven<'a> {
    /// The kept ones alone.
    pub fn new(alloc: Global, kept: &'a [Sub]) -> Woven<'a>
        requires { keys_ascend sub_id 0 kept.now ≡ true }
        ensures woven { IsWoven result }
        ensures all { all_woven result ≡ kept.now }
    {
        Woven {
            done: Vec::new(alloc),
            rest: kept,
            next: 0,
        }
    }

    /// Copies those that come before the id of the next new one, and goes past the ids that are taken.
    fn pass(self, alloc: Global) -> Result<Woven<'a>, AllocError>
        requires woven { IsWoven self }
        requires few { length (all_woven self) < 2 ^ 26 }
        ensures { IfOk result (λ w. Passes self.entry w) }
    {
        let (mut done, mut rest, mut next) = (self.done, self.rest, self.next);
        'passing: while let Some((first, others)) = first_to(rest, next * 32 + 31) {
            if first.nid.bits == next * 32 + 31 {
                next += 1;
            }
            done.push(copy_sub(alloc, first)?)?;
            rest = others;
        }
        Ok(Woven { done, rest, next })
    }

    /// Adds one with these blocks, and gives its id.
    pub fn add(self, alloc: Global, blocks: Blocks) -> Result<(Woven<'a>, u32), AllocError>
        requires woven { IsWoven self }
        requires few { length (all_woven self) < 2 ^ 26 }
        ensures woven { IfOk result (λ r. IsWoven r.0) }
        ensures fits { IfOk result (λ r. r.1 < 2 ^ 32) }
        ensures adds { IfOk result (λ r. Weaves (all_woven self.entry) blocks (all_woven r.0) r.1) }
    {
        let passed = self.pass(alloc)?;
        let bits = passed.next * 32 + 31;
        let mut done = passed.done;
        done.push(Sub {
            nid: Nid { bits },
            blocks,
            subs: Subs::new(alloc),
        })?;
        let woven = Woven {
            done,
            rest: passed.rest,
            next: passed.next + 1,
        };
        Ok((woven, bits))
    }

    /// All of them.
    pub fn finish(self, alloc: Global) -> Result<Subs, AllocError>
        ensures { IfOk result (λ subs. subs ≡ flattened (all_woven self.entry)) }
    {
        let mut done = self.done;
        for sub in self.rest {
            done.push(copy_sub(alloc, sub)?)?;
        }
        Ok(Subs::from_vec(done))
    }
}
