//! Which columns a member reaches, by their names in byte order.
ghost use Rattle.std.specs.Prelude.{◌≡◌, ◌≤◌, ◌<◌, ◌++◌, ◌+◌, [], false, None, length};
ghost use Rattle.ndjson_load.specs.Spreading.{AreRange, GoesOn, IsEnding, IsPlace, IsUnder, goes_under, rest_at, stands_before};

use crate::MappedColumn;

/// A range of columns, and how many bytes of their names are used up.
#[derive(Clone, Copy)]
pub(crate) struct Reach {
    pub(crate) depth: usize,
    pub(crate) low: usize,
    pub(crate) high: usize,
}

/// Whether no name of a range ends.
pub(crate) fn goes_on(columns: &[MappedColumn], reach: Reach) -> bool
    requires { AreRange columns.now reach.depth reach.low reach.high }
    ensures { GoesOn columns.now reach.depth reach.low reach.high result }
{
    reach.low == reach.high || !rest_at(&columns[reach.low], reach.depth).is_empty()
}

/// The place of a key in a range: up to there less is left of the names.
pub(crate) fn key_place(columns: &[MappedColumn], reach: Reach, key: &[u8]) -> usize
    requires { AreRange columns.now reach.depth reach.low reach.high }
    ensures { IsPlace columns.now reach.depth reach.low reach.high key.now result }
{
    place_of(columns, reach, key, &[])
}

/// The column of which a key is left, by the place of the key.
pub(crate) fn ending(
    columns: &[MappedColumn],
    reach: Reach,
    key: &[u8],
    place: usize,
) -> Option<usize>
    requires range { AreRange columns.now reach.depth reach.low reach.high }
    requires place { IsPlace columns.now reach.depth reach.low reach.high key.now place }
    ensures { IsEnding columns.now reach.depth reach.low reach.high key.now result }
{
    if place < reach.high && rest_at(&columns[place], reach.depth) == key {
        Some(place)
    } else {
        None
    }
}

/// Whether names may go on under a key, by the place of the key.
pub(crate) fn may_go_under(columns: &[MappedColumn], reach: Reach, key: &[u8], place: usize) -> bool
    requires range { AreRange columns.now reach.depth reach.low reach.high }
    requires place { IsPlace columns.now reach.depth reach.low reach.high key.now place }
    ensures { result ≡ false → IsUnder columns.now reach.depth reach.low reach.high key.now None }
{
    if place >= reach.high {
        return false;
    }
    if goes_past(rest_at(&columns[place], reach.depth), key) {
        return true;
    }
    place + 1 < reach.high && rest_at(&columns[place + 1], reach.depth).starts_with(key)
}

/// Whether bytes begin with a key and go on after it.
fn goes_past(rest: &[u8], key: &[u8]) -> bool
    ensures { result ≡ false → goes_under key.now rest.now ≡ false }
{
    rest.len() > key.len() && rest.starts_with(key)
}

/// The columns of whose names what is left goes on under a key.
pub(crate) fn under(columns: &[MappedColumn], reach: Reach, key: &[u8]) -> Option<Reach>
    requires { AreRange columns.now reach.depth reach.low reach.high }
    ensures { IsUnder columns.now reach.depth reach.low reach.high key.now result }
{
    let low = place_of(columns, reach, key, b".");
    // The byte after the dot.
    let high = place_of(columns, Reach { low, ..reach }, key, b"/");
    if low == high {
        return None;
    }
    let depth = depth_under(&columns[low], reach.depth, key);
    Some(Reach { depth, low, high })
}

/// How many bytes of the name of a column are used up where it goes on under a key.
fn depth_under(column: &MappedColumn, depth: usize, key: &[u8]) -> usize
    requires { depth + (length key.now + 1) ≤ length column.now.column.name }
    ensures { result ≡ depth + (length key.now + 1) }
{
    let name = column.column.name.as_str();
    name.len() - (name.len() - depth - key.len() - 1)
}

/// The first column of a range of which no less is left than a key with an end after it.
fn place_of(columns: &[MappedColumn], reach: Reach, key: &[u8], end: &[u8]) -> usize
    requires { AreRange columns.now reach.depth reach.low reach.high }
    ensures { IsPlace columns.now reach.depth reach.low reach.high (key.now ++ end.now) result }
{
    let range = &columns[reach.low..reach.high];
    reach.low
        + range.partition_point(|column| stands_before(rest_at(column, reach.depth), key, end))
}

/// Whether bytes stand before a key with an end after it.
fn stands_before(rest: &[u8], key: &[u8], end: &[u8]) -> bool
    ensures { result ≡ stands_before rest.now (key.now ++ end.now) }
{
    let (front, back) = rest.split_at(key.len().min(rest.len()));
    front.cmp(key).then(back.cmp(end)).is_lt()
}

/// What is left of the name of a column.
fn rest_at(column: &MappedColumn, depth: usize) -> &[u8]
    ensures { result.now ≡ rest_at depth column.now }
{
    let name = column.column.name.as_str().as_bytes();
    let (_, rest) = name.split_at(depth.min(name.len()));
    rest
}
