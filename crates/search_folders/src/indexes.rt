//! The index of a new search folder.
ghost use Rattle.std.specs.Prelude.{◌≡◌};
ghost use Rattle.mail_draft.specs.Sight.{Answers, Reads};
ghost use Rattle.search_folders.specs.Pieces.{greatest_among, greatest_at, greatest_row, row_index, search_index};

use mail_draft::{CountingDesk, Desk, Stop, hierarchy};
use mail_tree::{FolderPlace, Sort};
use mapi_values::Props;

/// The kinds of a search folder's nodes.
const SEARCH_KINDS: [u8; 4] = [0x03, 0x06, 0x07, 0x10];

/// The index of the search folder whose id this is, or 0.
fn row_index(id: u32) -> u32
    ensures { result ≡ row_index id }
{
    if id % 32 == 3 { id / 32 } else { 0 }
}

/// The greatest index of a search folder that these rows name, or 0.
fn greatest_row(rows: &[(u32, Props)]) -> u32
    ensures { result ≡ greatest_row rows.now }
{
    let mut greatest = 0;
    for row in rows {
        greatest = row_index(row.0).max(greatest);
    }
    greatest
}

/// The greatest index of a search folder that a folder's table of folders names, or 0. A folder that isn't plain has none.
#[tactic(auto, unfolding(crate::specs::Pieces::greatest_at))]
fn greatest_at<D: Desk>(desk: &mut D, place: FolderPlace) -> Result<u32, Stop>
    ensures reads { Reads (D.view desk.old) (D.view desk.new) result }
    ensures answer { Answers (D.view desk.old) (λ n. n) (λ T c. greatest_at T place) result }
{
    match place.sort {
        Sort::Plain => {
            let node = desk.table_before(hierarchy(place.nid))?;
            Ok(greatest_row(node.table().rows()))
        }
        Sort::Foreign => Ok(0),
    }
}

/// The greatest index of a search folder that the tables of these folders name, or 0.
fn greatest_among<D: Desk>(desk: &mut D, places: &[FolderPlace]) -> Result<u32, Stop>
    ensures reads { Reads (D.view desk.old) (D.view desk.new) result }
    ensures answer { Answers (D.view desk.old) (λ n. n) (λ T c. greatest_among T places.now) result }
{
    let mut greatest = 0;
    for place in places {
        let index = greatest_at(desk, *place)?;
        greatest = index.max(greatest);
    }
    Ok(greatest)
}

/// The index that follows the counter of search folders and all that are in use, by a node or in a row of a table of folders. It may be past the last one.
pub(crate) fn next_search_index<D: CountingDesk>(desk: &mut D) -> Result<u64, Stop>
    ensures reads { Reads (D.view desk.old) (D.view desk.new) result }
    ensures answer { Answers (D.view desk.old) (λ n. n) (λ T c. search_index T) result }
{
    let after_nodes = desk.next_index(3, &SEARCH_KINDS)?;
    let places = desk.places().copy(desk.alloc())?;
    let listed = greatest_among(desk, places.as_slice())?;
    Ok(after_nodes.max(u64::from(listed) + 1))
}
