//! Reading a page's frame.
ghost use Rattle.std.specs.Prelude.{◌≡◌, length};
ghost use Rattle.page_frame.specs.Page.{reading, signature_of, stored_kind};

use pst_base::{Bid, Bref, PageFault, u8_at, u16_at, u32_at, u64_at};
use pst_checksum::{crc, sig};
use std::marker::Model;

/// How many bytes a page's content has.
pub(crate) const BODY: usize = 496;

/// A page whose frame is right. Contracts see its content.
#[derive(Debug, Drop)]
pub struct PageView<'a> {
    body: &'a [u8],
}

impl<'a> Model for PageView<'a> {
    ghost use Rattle.std.specs.Prelude.{◌≡◌, ℕ, List, length};

    ghost Value = { List ℕ };

    ghost view = { λ p. p.body.now };

    ghost invariant = { λ p. length p.body.now ≡ 496 };
}

impl<'a> PageView<'a> {
    /// Reads the page of a kind that stands at a place under an id. The maps' pages (82h to 85h) have their own place as their id.
    ///
    /// The faults in the order in which they are looked for: `Kind`, where one of the two bytes isn't the kind; `Crc`, of the first 496 bytes; `Sig`, of the place and the trailer's own id, and 0 for the maps' pages; `Bid`.
    #[tactic(auto, unfolding(crate::specs::Page::reading))]
    pub fn read(b: &'a [u8; 512], kind: u8, at: Bref) -> Result<PageView<'a>, PageFault>
        ensures { result ≡ reading kind at b.now }
    {
        let stored = stored_kind(b, kind);
        if stored != kind {
            return Err(PageFault::Kind {
                stored: u64::from(stored),
                computed: u64::from(kind),
            });
        }
        let (stored, computed) = (u32_at(b, 500), crc(&b[..BODY]));
        if stored != computed {
            return Err(PageFault::Crc {
                stored: u64::from(stored),
                computed: u64::from(computed),
            });
        }
        let bid = u64_at(b, 504);
        let (stored, computed) = (u16_at(b, 498), signature(kind, at.ib, bid));
        if stored != computed {
            return Err(PageFault::Sig {
                stored: u64::from(stored),
                computed: u64::from(computed),
            });
        }
        if bid != at.bid.bits {
            return Err(PageFault::Bid {
                stored: bid,
                computed: at.bid.bits,
            });
        }
        Ok(PageView { body: &b[..BODY] })
    }

    /// The content, 496 bytes.
    pub fn body(&self) -> &'a [u8]
        ensures content { result.now ≡ self.now }
        ensures size { length result.now ≡ 496 }
    {
        self.body
    }
}

/// The first of the two bytes of a page's kind that isn't this kind, or the kind.
#[tactic(auto, unfolding(crate::specs::Page::stored_kind))]
fn stored_kind(b: &[u8; 512], kind: u8) -> u8
    ensures { result ≡ stored_kind kind b.now }
{
    let first = u8_at(b, 496);
    if first == kind { u8_at(b, 497) } else { first }
}

/// The signature that a page of a kind has.
#[tactic(auto, unfolding(crate::specs::Page::signature_of))]
pub(crate) fn signature(kind: u8, ib: u64, bid: u64) -> u16
    ensures { result ≡ signature_of kind ib bid }
{
    if kind == 0x80 || kind == 0x81 || kind == 0x86 {
        sig(ib, Bid { bits: bid })
    } else {
        0
    }
}
