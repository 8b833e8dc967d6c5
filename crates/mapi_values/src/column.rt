//! The columns of a table, and how their cells lie in a row.
ghost use Rattle.std.specs.Prelude.{◌≡◌, ◌+◌, ◌*◌};
ghost use Rattle.std.specs.List.{list_all};
ghost use Rattle.mapi_values.specs.Keyed.{keys_ascend};
ghost use Rattle.mapi_values.specs.Columns.{all_apart, cell_width, ends_rise, has_column, in_cell, is_apart, is_column, is_layout, is_placed, lies, suits_cell, tag_number};

use crate::keyed::Keyed;
use crate::tags::{
    PID_TAG_LTP_ROW_ID, PID_TAG_LTP_ROW_VER, PTYP_CURRENCY, PTYP_FLOATING_64, PTYP_FLOATING_TIME,
    PTYP_INTEGER_64, PTYP_TIME,
};
use crate::value::{Tag, field_width};

/// A column of a table ([MS-PST] 2.3.4.2): its cell has `width` bytes from `at` on in a row, and bit `bit` of the existence bits says whether a row has a value there.
#[derive(Clone, Copy, Debug, PartialEq, Eq)]
pub struct Column {
    pub tag: Tag,
    pub at: u16,
    pub width: u8,
    pub bit: u8,
}

impl Keyed for Column {
    ghost use Rattle.mapi_values.specs.Columns.{tag_number};

    ghost key_of = { tag_number };

    fn key(&self) -> u32 {
        let id = self.tag.id;
        let kind = self.tag.kind;
        u32::from(id) * 65536 + u32::from(kind)
    }
}

/// The width of the values of a kind that stand in a cell themselves ([MS-PST] 2.3.4.4.2), if they do.
#[tactic(auto, unfolding(crate::specs::Columns::in_cell))]
pub fn fixed_width(kind: u16) -> Option<usize>
    ensures { result ≡ in_cell kind }
{
    match kind {
        PTYP_FLOATING_64 | PTYP_CURRENCY | PTYP_FLOATING_TIME | PTYP_INTEGER_64 | PTYP_TIME => Some(
            8,
        ),
        _ => field_width(kind),
    }
}

/// The width of the cell of a kind. A value that doesn't stand there itself has a reference of 4 bytes.
#[tactic(auto, unfolding(crate::specs::Columns::cell_width))]
pub fn cell_width(kind: u16) -> usize
    ensures { result ≡ cell_width kind }
{
    fixed_width(kind).unwrap_or(4)
}

/// Whether a value of this kind and of so many bytes has the length of its cell, where it stands there itself.
#[tactic(auto, unfolding(crate::specs::Columns::suits_cell))]
pub fn suits_cell(kind: u16, len: usize) -> bool
    ensures { result ≡ suits_cell kind len }
{
    match fixed_width(kind) {
        Some(width) => width == len,
        None => true,
    }
}

impl Column {
    /// Whether the column is that of this id and kind.
    pub fn is_of(&self, id: u16, kind: u16) -> bool
        ensures { result ≡ is_column id kind self.now }
    {
        self.tag.id == id && self.tag.kind == kind
    }

    /// Whether the column is neither the row id nor the row version, or else at the place that is kept for it.
    #[tactic(auto, unfolding(crate::specs::Columns::is_placed))]
    fn is_placed(&self) -> bool
        ensures { result ≡ is_placed self.now }
    {
        if self.is_of(PID_TAG_LTP_ROW_ID.id, PID_TAG_LTP_ROW_ID.kind) {
            return self.at == 0 && self.bit == 0;
        }
        if self.is_of(PID_TAG_LTP_ROW_VER.id, PID_TAG_LTP_ROW_VER.kind) {
            return self.at == 4 && self.bit == 1;
        }
        true
    }

    /// Whether the cell and the existence bit lie where these two end offsets allow, and the cell has its width.
    #[tactic(auto, unfolding(crate::specs::Columns::lies))]
    fn lies(&self, third: u16, fourth: u16) -> bool
        ensures { result ≡ lies third fourth self.now }
    {
        let end = u32::from(self.at) + u32::from(self.width);
        let byte = u32::from(third) + u32::from(self.bit) / 8;
        usize::from(self.width) == cell_width(self.tag.kind)
            && end <= u32::from(third)
            && byte < u32::from(fourth)
            && self.is_placed()
    }

    /// Whether the cells of two columns don't meet, and their existence bits differ.
    #[tactic(auto, unfolding(crate::specs::Columns::is_apart))]
    fn is_apart(&self, other: &Column) -> bool
        ensures { result ≡ is_apart self.now other.now }
    {
        let end = u32::from(self.at) + u32::from(self.width);
        let other_end = u32::from(other.at) + u32::from(other.width);
        self.bit != other.bit && (end <= u32::from(other.at) || other_end <= u32::from(self.at))
    }
}

/// Whether some column is that of this id and kind.
pub fn has_column(columns: &[Column], id: u16, kind: u16) -> bool
    ensures { result ≡ has_column columns.now id kind }
{
    columns.iter().any(|column| column.is_of(id, kind))
}

/// Whether each column lies where these two end offsets allow.
fn all_lie(columns: &[Column], third: u16, fourth: u16) -> bool
    ensures { result ≡ list_all (lies third fourth) columns.now }
{
    columns.iter().all(|column| column.lies(third, fourth))
}

/// Whether a column is apart from each of the others.
fn is_apart_from(column: &Column, others: &[Column]) -> bool
    ensures { result ≡ list_all (is_apart column.now) others.now }
{
    others.iter().all(|other| column.is_apart(other))
}

/// Whether each two columns are apart.
fn all_apart(columns: &[Column]) -> bool
    ensures { result ≡ all_apart columns.now }
{
    let mut rest = columns;
    while let Some((first, others)) = rest.split_first() {
        if !is_apart_from(first, others) {
            return false;
        }
        rest = others;
    }
    true
}

/// Whether the columns ascend strictly by tag.
fn tags_ascend(columns: &[Column]) -> bool
    ensures { result ≡ keys_ascend tag_number 0 columns.now }
{
    let mut low = 0;
    for column in columns {
        let tag = u64::from(column.key());
        if tag < low {
            return false;
        }
        low = tag + 1;
    }
    true
}

/// Whether the end offsets don't fall.
#[tactic(auto, unfolding(crate::specs::Columns::ends_rise))]
fn ends_rise(ends: &[u16; 4]) -> bool
    ensures { result ≡ ends_rise ends.now }
{
    ends[0] <= ends[1] && ends[1] <= ends[2] && ends[2] <= ends[3]
}

/// Whether the columns ascend strictly by tag, and with these end offsets of a row ([MS-PST] 2.3.4.1) each cell has the width of its kind, and each cell and each existence bit has a place of its own.
#[tactic(auto, unfolding(crate::specs::Columns::is_layout))]
pub fn is_layout(columns: &[Column], ends: &[u16; 4]) -> bool
    ensures { result ≡ is_layout columns.now ends.now }
{
    ends_rise(ends)
        && tags_ascend(columns)
        && all_lie(columns, ends[2], ends[3])
        && all_apart(columns)
}
