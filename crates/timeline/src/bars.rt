// Where the cells of an array are current on a side.

use crate::spans::Inside;

/// How a side stands to some cells.
#[derive(Clone, Copy, Debug, PartialEq, Eq, PartialOrd, Ord)]
pub enum Shade {
    /// They are current here.
    Current,
    /// They have storage here, and are current elsewhere.
    Stale,
    /// On the host: they are current nowhere.
    Lost,
    /// They have no storage here.
    Absent,
}

/// The cells of an array from where the segment before ends up to this one's end.
#[derive(Clone, Copy, Debug, PartialEq, Eq, PartialOrd, Ord)]
pub struct Segment {
    pub end: u64,
    pub shade: Shade,
}

/// How a side stands to cells: the sets are those that are current here, those that have storage here, and those that
/// are current anywhere.
pub fn shade_of(inside: Inside, is_host: bool) -> Shade {
    if inside.first {
        Shade::Current
    } else if !inside.second {
        Shade::Absent
    } else if is_host && !inside.third {
        Shade::Lost
    } else {
        Shade::Stale
    }
}
