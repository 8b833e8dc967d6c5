//! The values of a criteria object.
ghost use Rattle.std.specs.Prelude.{◌≡◌, ◌<◌, IfSome, IsTrue, length, option_copied};
ghost use Rattle.mapi_values.specs.Values.{fits};
ghost use Rattle.search_obj.specs.Objects.{bytes_at, lacks, lacks_criteria, mark, number_with};

use crate::criteria::Version;
use mapi_values::tags::{PTYP_BINARY, PTYP_INTEGER_32, PTYP_STRING};
use mapi_values::{Props, Tag};
use pst_base::u32_at;

/// What marks the criteria object of a search of this program, and tells its version.
pub const SEARCH_MARK: Tag = Tag {
    id: 0x6801,
    kind: PTYP_STRING,
};
/// The flags.
pub const SEARCH_FLAGS: Tag = Tag {
    id: 0x6802,
    kind: PTYP_INTEGER_32,
};
/// The folders that were given, 4 bytes for each id.
pub const SEARCH_SCOPE: Tag = Tag {
    id: 0x6803,
    kind: PTYP_BINARY,
};
/// The bytes of the restriction.
pub const SEARCH_RESTRICTION: Tag = Tag {
    id: 0x6804,
    kind: PTYP_BINARY,
};
/// How often the list was built.
pub const SEARCH_BUILDS: Tag = Tag {
    id: 0x6805,
    kind: PTYP_INTEGER_32,
};

/// `PSTORE-SEARCH-01`.
pub(crate) const FIRST_MARK: [u8; 32] = [
    b'P', 0, b'S', 0, b'T', 0, b'O', 0, b'R', 0, b'E', 0, b'-', 0, b'S', 0, b'E', 0, b'A', 0, b'R',
    0, b'C', 0, b'H', 0, b'-', 0, b'0', 0, b'1', 0,
];
/// `PSTORE-SEARCH-02`.
pub(crate) const SECOND_MARK: [u8; 32] = [
    b'P', 0, b'S', 0, b'T', 0, b'O', 0, b'R', 0, b'E', 0, b'-', 0, b'S', 0, b'E', 0, b'A', 0, b'R',
    0, b'C', 0, b'H', 0, b'-', 0, b'0', 0, b'2', 0,
];

/// The text that marks an object of a version.
pub(crate) fn mark(version: Version) -> &'static [u8; 32]
    ensures { result.now ≡ mark version }
{
    match version {
        Version::First => &FIRST_MARK,
        Version::Second => &SECOND_MARK,
    }
}

/// The bytes of the value with this tag.
pub(crate) fn bytes_at(props: &Props, tag: Tag) -> Option<&[u8]>
    ensures bytes { option_copied result ≡ bytes_at tag props.now }
    ensures fit { IfSome result (λ bytes. IsTrue (fits tag.kind (length bytes.now))) }
{
    let value = props.get(tag.id)?;
    if value.kind() == tag.kind {
        Some(value.bytes())
    } else {
        None
    }
}

/// The number of 4 bytes with this tag, whose kind is that of such numbers.
pub(crate) fn number_with(props: &Props, tag: Tag) -> Option<u32>
    requires { tag.kind ≡ 3 }
    ensures { result ≡ number_with tag props.now }
{
    let bytes = bytes_at(props, tag)?;
    Some(u32_at(bytes, 0))
}

/// Whether no value has this id, of whatever kind.
pub(crate) fn lacks(props: &Props, id: u16) -> bool
    ensures { result ≡ lacks id props.now }
{
    props.get(id).is_none()
}

/// Whether there is none of the values in which criteria stand.
pub(crate) fn lacks_criteria(props: &Props) -> bool
    ensures { result ≡ lacks_criteria props.now }
{
    lacks(props, SEARCH_FLAGS.id)
        && lacks(props, SEARCH_SCOPE.id)
        && lacks(props, SEARCH_RESTRICTION.id)
        && lacks(props, SEARCH_BUILDS.id)
}
