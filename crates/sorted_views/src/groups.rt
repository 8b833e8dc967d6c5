//! Rows in groups.
ghost use Rattle.std.specs.Prelude.{◌≡◌, ◌+◌, ◌≤◌, ◌<◌, [], ◌∷◌, length, MatchOption, IfSome};
ghost use Rattle.sorted_views.specs.Groups.{groups, same_front, same_key};

use crate::rows::ViewRow;

/// Whether two rows have equal keys.
fn same_key(first: &ViewRow, second: &ViewRow) -> bool
    ensures { result ≡ same_key first.now second.now }
{
    first.key.cmp(&second.key).is_eq()
}

/// How many of the first rows have the key of another row.
fn same_front(first: &ViewRow, rows: &[ViewRow]) -> usize
    ensures value { result ≡ same_front first.now rows.now }
    ensures range { result ≤ length rows.now }
{
    let mut count = 0;
    for row in rows {
        if !same_key(first, row) {
            break;
        }
        count += 1;
    }
    count
}

/// The first row of the first group, how many rows that group has, and the rows behind it; `None` where there are no rows.
pub fn split_group(rows: &[ViewRow]) -> Option<(&ViewRow, usize, &[ViewRow])>
    ensures split { MatchOption result (rows.now ≡ []) (λ g. groups rows.now ≡ (g.0.now, g.1) ∷ groups g.2.now) }
    ensures shorter { IfSome result (λ g. (0 < g.1) × (g.1 + length g.2.now ≡ length rows.now)) }
{
    match rows {
        [] => None,
        [first, rest @ ..] => {
            let alike = same_front(first, rest);
            Some((first, 1 + alike, &rest[alike..]))
        }
    }
}
