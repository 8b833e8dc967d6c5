//! A file as a source of pages.
ghost use Rattle.std.specs.Prelude.{◌≡◌, ◌≤◌, ◌+◌, Option, take, drop, length, IfOk, OnErr};
ghost use Rattle.page_frame.specs.Page.{reading};
ghost use Rattle.pst_outside.specs.Calls.{Rose, Untouched};
ghost use Rattle.file_blocks.specs.Blocks.{file_of};
ghost use Rattle.file_blocks.specs.Stops.{Tells};
ghost use Rattle.file_pages.specs.InFile.{bodies, ok_of};

use file_blocks::has_room;
use page_cache::PageCache;
use page_frame::PageView;
use pst_base::{Bref, MemOr, SourceStop};
use pst_outside::{Failed, Outside, Part, read_part};
use tree_edit::PageSource;

/// The length of a page, in bytes.
const PAGE: usize = 512;

/// A content that is no page of a tree.
const NO_PAGE: [u8; 496] = [0xFF; 496];

/// The pages of a kind in a file of `eof` bytes over a world, of which some are in a cache. A page that isn't there has a content that is none of a tree. It writes nothing.
#[derive(Drop)]
pub(crate) struct FilePages<'a, W: Outside> {
    pub(crate) world: &'a mut W,
    pub(crate) cache: &'a mut PageCache,
    pub(crate) eof: u64,
    pub(crate) kind: u8,
}

impl<'a, W: Outside> PageSource for FilePages<'a, W> {
    ghost use Rattle.std.specs.Prelude.{◌≡◌};
    ghost use Rattle.pst_outside.specs.Calls.{Untouched};
    ghost use Rattle.file_pages.specs.Told.{Gives};

    ghost view = { λ s. record { holds = Gives (W.view s.world.now) s.eof s.kind s.cache.now; fails = (W.view s.world.now).disk_faults; changes = 0; since = λ first. (s.world.ghost_name ≡ first.world.ghost_name) × (s.cache.ghost_name ≡ first.cache.ghost_name) × (s.eof ≡ first.eof) × (s.kind ≡ first.kind) × Untouched (W.view first.world.now) (W.view s.world.now) } };

    fn page(&mut self, at: Bref) -> Result<[u8; 496], MemOr<SourceStop>> {
        if let Some(body) = self.cache.get(at) {
            return Ok(body);
        }
        match read_body(self.world, self.eof, self.kind, at) {
            Ok(Some(body)) => {
                self.cache.put(at, &body)?;
                Ok(body)
            }
            Ok(None) => Ok(NO_PAGE),
            Err(Failed) => Err(MemOr::Refused(SourceStop::Failed)),
        }
    }
}

/// The bytes of the page at a place. Behind an open gate only the header lies elsewhere than in Main.
fn read_page<W: Outside>(w: &mut W, ib: u64) -> Result<[u8; 512], Failed>
    requires low { 0x4400 ≤ ib }
    ensures bytes { IfOk result (λ b. (W.view w.new).tells → ib + 512 ≤ length (W.view w.old).here.main → b ≡ take 512 (drop ib (file_of (W.view w.old).here))) }
    ensures cause { OnErr result (Rose (W.view w.old).disk_faults (W.view w.new).disk_faults) }
    ensures same { Untouched (W.view w.old) (W.view w.new) }
{
    let mut bytes = [0; 512];
    read_part(w, Part::Main, ib, &mut bytes)?;
    Ok(bytes)
}

/// The content of the page that bytes are, if its frame is right.
fn content(bytes: &[u8; 512], kind: u8, at: Bref) -> Option<[u8; 496]>
    ensures { result ≡ ok_of (reading kind at bytes.now) }
{
    match PageView::read(bytes, kind, at) {
        Ok(view) => {
            let mut body = [0; 496];
            body.copy_from_slice(view.body());
            Some(body)
        }
        Err(_) => None,
    }
}

/// The content of the page of a kind with an id at its place; `None` where there is none.
fn read_body<W: Outside>(
    w: &mut W,
    eof: u64,
    kind: u8,
    at: Bref,
) -> Result<Option<[u8; 496]>, Failed>
    ensures body { IfOk result (λ body. Tells (W.view w.old) eof → body ≡ bodies (file_of (W.view w.old).here) eof kind at) }
    ensures cause { OnErr result (Rose (W.view w.old).disk_faults (W.view w.new).disk_faults) }
    ensures same { Untouched (W.view w.old) (W.view w.new) }
{
    if !has_room(eof, PAGE, at.ib) {
        return Ok(None);
    }
    let bytes = read_page(w, at.ib)?;
    Ok(content(&bytes, kind, at))
}
