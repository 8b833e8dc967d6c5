//! A file of one node with two blocks of data and the block that names them, laid by [MS-PST] 2.2.2.6, 2.2.2.7 and 2.2.2.8.
ghost use Rattle.std.specs.Prelude.{◌≡◌, true};
ghost use Rattle.node_port.specs.Nodes.{ascend};

use btree_pages::NodeEntry;
use content_plan::{ContentPlan, plan_contents};
use node_port::NodeRec;
use node_store::PageCaches;
use page_cache::PageCache;
use page_frame::seal as seal_page;
use pst_base::{Bid, Blocks, Bref, Bytes, Nid, Subs, put_u8, put_u16, put_u64};
use pst_header::Header;
use pst_outside::{FailPlan, MemWorld};
use std::alloc::{AllocError, Global};
use std::test::Fail;

/// The node.
const NODE: Nid = Nid { bits: 0x21 };

/// The root of the block tree.
const BLOCKS: Bref = Bref {
    bid: Bid { bits: 0x31 },
    ib: 0x4c00,
};

/// The root of the node tree.
const NODES: Bref = Bref {
    bid: Bid { bits: 0x32 },
    ib: 0x5000,
};

/// The blocks' ids and places: two of data, and one that names them.
const PLACES: [Bref; 3] = [
    Bref {
        bid: Bid { bits: 4 },
        ib: 0x4e00,
    },
    Bref {
        bid: Bid { bits: 8 },
        ib: 0x4e40,
    },
    Bref {
        bid: Bid { bits: 14 },
        ib: 0x4e80,
    },
];

/// The block that names two of data with a byte each ([MS-PST] 2.2.2.8.3.2.1).
const fn naming(first: u8, second: u8) -> [u8; 24] {
    [
        1, 1, 2, 0, 2, 0, 0, 0, first, 0, 0, 0, 0, 0, 0, 0, second, 0, 0, 0, 0, 0, 0, 0,
    ]
}

/// A header that names both roots, of a file that ends behind the pages.
fn header() -> Header {
    Header {
        wver: 23,
        crypt: 0,
        unique: 0,
        next_block: 16,
        next_page: 0x33,
        indexes: [0; 32],
        eof: 0x5200,
        amap_last: 0x4400,
        amap_free: 0,
        pmap_free: 0,
        nbt: NODES,
        bbt: BLOCKS,
        maps: 0,
        kept: [0; 564],
    }
}

/// A leaf of the block tree, with an entry for each block.
fn block_leaf() -> [u8; 496] {
    let mut body = [0; 496];
    let [one, two, over] = PLACES;
    put_u64(&mut body, 0, one.bid.bits);
    put_u64(&mut body, 8, one.ib);
    put_u16(&mut body, 16, 1);
    put_u16(&mut body, 18, 2);
    put_u64(&mut body, 24, two.bid.bits);
    put_u64(&mut body, 32, two.ib);
    put_u16(&mut body, 40, 1);
    put_u16(&mut body, 42, 2);
    put_u64(&mut body, 48, over.bid.bits);
    put_u64(&mut body, 56, over.ib);
    put_u16(&mut body, 64, 24);
    put_u16(&mut body, 66, 2);
    put_u8(&mut body, 488, 3);
    put_u8(&mut body, 489, 20);
    put_u8(&mut body, 490, 24);
    body
}

/// A leaf of the node tree, with the node 21h.
fn node_leaf() -> [u8; 496] {
    let mut body = [0; 496];
    put_u64(&mut body, 0, 0x21);
    put_u64(&mut body, 8, 14);
    put_u8(&mut body, 488, 1);
    put_u8(&mut body, 489, 15);
    put_u8(&mut body, 490, 32);
    body
}

/// The file.
fn world(alloc: Global) -> Result<MemWorld, AllocError> {
    let mut main = Vec::new(alloc);
    let [one, two, over] = PLACES;
    main.extend_from_slice(&[0; 0x4c00])?;
    main.extend_from_slice(&seal_page(&block_leaf(), 0x80, BLOCKS))?;
    main.extend_from_slice(block_frame::seal(alloc, b"a", one)?.as_slice())?;
    main.extend_from_slice(block_frame::seal(alloc, b"b", two)?.as_slice())?;
    main.extend_from_slice(block_frame::seal(alloc, &naming(4, 8), over)?.as_slice())?;
    main.extend_from_slice(&[0; 0x140])?;
    main.extend_from_slice(&seal_page(&node_leaf(), 0x81, NODES))?;
    let (input, side, copy) = (Bytes::new(alloc), Bytes::new(alloc), Bytes::new(alloc));
    let fails = FailPlan::none(alloc);
    MemWorld::new(alloc, input, Bytes::from_vec(main), side, copy, fails)
}

/// A node with two blocks of a byte each.
fn node(alloc: Global, first: u8, second: u8) -> Result<NodeRec, AllocError> {
    let mut blocks = Blocks::new(alloc);
    blocks.push(Bytes::from_slice(alloc, &[first])?)?;
    blocks.push(Bytes::from_slice(alloc, &[second])?)?;
    Ok(NodeRec {
        parent: Nid { bits: 0 },
        blocks,
        subs: Subs::new(alloc),
    })
}

/// Whether the blocks have these ids and bytes.
fn are(blocks: &[(Bid, Bytes)], ids: [u64; 2], first: &[u8], second: &[u8]) -> bool {
    if blocks.len() != 2 {
        return false;
    }
    let (one, two) = (&blocks[0], &blocks[1]);
    one.0.bits == ids[0]
        && two.0.bits == ids[1]
        && one.1.as_slice() == first
        && two.1.as_slice() == second
}

/// The plan of these changes over the file.
fn plan_of(alloc: Global, changes: &[(Nid, Option<NodeRec>)]) -> Result<ContentPlan, Fail>
    requires { ascend 0 changes.now ≡ true }
{
    let mut w = world(alloc)?;
    let mut caches = PageCaches {
        blocks: PageCache::new(alloc, 1)?,
        nodes: PageCache::new(alloc, 1)?,
    };
    match plan_contents(alloc, &mut w, &header(), &mut caches, changes, 16) {
        Ok(plan) => Ok(plan),
        Err(_) => Err(Fail::from("no plan")),
    }
}

/// The plan of the node 21h with two blocks of a byte each.
fn planned(alloc: Global, first: u8, second: u8) -> Result<ContentPlan, Fail> {
    let node = node(alloc, first, second)?;
    let mut changes = Vec::new(alloc);
    changes.push((NODE, Some(node)))?;
    plan_of(alloc, changes.as_slice())
}

/// Whether the plan leads the node to the block that names its data, and has one new block of data, of this byte.
fn changes_one(plan: &ContentPlan, new: u8, names: [u8; 2]) -> bool {
    let entry = NodeEntry {
        nid: NODE,
        content: Bid { bits: 22 },
        subnodes: Bid { bits: 0 },
        parent: Nid { bits: 0 },
    };
    let [one, two] = names;
    plan.edits.as_slice() == [(0x21, Some(entry))].as_slice()
        && are(plan.blocks.as_slice(), [16, 22], &[new], &naming(one, two))
}

#[test]
fn a_changed_block_is_written_and_the_other_stays(rt: HostRuntime) -> Result<(), Fail> {
    for (first, second, new, names, put) in [
        (b'a', b'c', b'c', [4, 16], [4, 16, 22]),
        (b'c', b'b', b'c', [16, 8], [8, 16, 22]),
    ] {
        let plan = planned(rt.alloc(), first, second)?;
        let is_changed = changes_one(&plan, new, names);
        let are_counted = plan.taken.as_slice() == [14, 4, 8].as_slice()
            && plan.put.as_slice() == put.as_slice();
        assert!(rt; is_changed && are_counted, "{first} and {second}");
    }
    Ok(())
}
