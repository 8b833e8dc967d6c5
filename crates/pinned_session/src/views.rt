//! The open views of a session.
ghost use Rattle.std.specs.Prelude.{◌≡◌, ◌==◌, [], not, filter, find, IfOk};
ghost use Rattle.pinned_session.specs.Viewing.{stand, standing, view_at, viewing_of};

use mail_tree::Places;
use mapi_values::Tag;
use pst_base::Nid;
use sorted_views::Direction;
use std::alloc::{AllocError, Global};

/// An open view: its number, its folder, the column that its rows are sorted by, and which way.
#[derive(Clone, Copy, Debug, PartialEq, Eq)]
pub struct OpenView {
    pub number: u32,
    pub folder: Nid,
    pub tag: Tag,
    pub direction: Direction,
}

/// How many numbers of views were given, and the views that are open.
#[derive(Drop)]
pub struct OpenViews {
    pub given: u32,
    pub opened: Vec<OpenView>,
}

impl OpenViews {
    /// No views yet.
    pub fn new(alloc: Global) -> OpenViews
        ensures { viewing_of result ≡ record { given = 0; opened = [] } }
    {
        OpenViews {
            given: 0,
            opened: Vec::new(alloc),
        }
    }

    /// The same again.
    pub fn copy(&self, alloc: Global) -> Result<OpenViews, AllocError>
        ensures { IfOk result (λ views. viewing_of views ≡ viewing_of self.now) }
    {
        let mut opened = Vec::with_capacity(alloc, self.opened.len())?;
        opened.extend_from_slice(self.opened.as_slice())?;
        Ok(OpenViews {
            given: self.given,
            opened,
        })
    }
}

/// The open view of a number.
fn view_named(views: &[OpenView], number: u32) -> Option<OpenView>
    ensures { result ≡ find (λ view. view.number == number) views.now }
{
    views.iter().find(|view| view.number == number).copied()
}

/// The open view that a line names.
pub fn view_at(views: &OpenViews, view: Option<u32>) -> Option<OpenView>
    ensures { result ≡ view_at view (viewing_of views.now) }
{
    match view {
        Some(number) => view_named(views.opened.as_slice(), number),
        None => None,
    }
}

/// Closes the view of a number.
pub(crate) fn close_named(views: &mut Vec<OpenView>, number: u32)
    ensures { views.new.items ≡ filter (λ view. not (view.number == number)) views.old.items }
{
    views.retain(|view| view.number != number);
}

/// The views whose folder is there stay.
fn close_gone(views: &mut Vec<OpenView>, places: &Places)
    ensures { views.new.items ≡ stand places.now views.old.items }
{
    views.retain(|view| places.find(view.folder).is_some());
}

/// Closes the views whose folder is there no more.
pub fn close_views(views: &mut OpenViews, places: &Places)
    ensures { viewing_of views.new ≡ standing places.now (viewing_of views.old) }
{
    close_gone(&mut views.opened, places);
}
