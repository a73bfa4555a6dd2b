// Sets of cells of one array, as runs in order.

use std::alloc::{AllocError, Global};

/// The cells `first` to `end - 1` of an array.
#[derive(Clone, Copy, Debug, PartialEq, Eq)]
pub struct Span {
    pub first: u64,
    pub end: u64,
}

/// Which of three sets.
#[derive(Clone, Copy)]
pub enum Which {
    First,
    Second,
    Third,
}

/// In which of three sets some cells are.
#[derive(Clone, Copy, PartialEq, Eq)]
pub struct Inside {
    pub first: bool,
    pub second: bool,
    pub third: bool,
}

/// The cells `first` to `end - 1`, which are in the same sets.
#[derive(Clone, Copy)]
pub struct Piece {
    pub first: u64,
    pub end: u64,
    pub inside: Inside,
}

// Where a run of a set begins or ends.
#[derive(Clone, Copy)]
struct Edge {
    at: u64,
    which: Which,
    opens: bool,
}

// How many runs of each set are open.
#[derive(Clone, Copy)]
struct Depths {
    first: u64,
    second: u64,
    third: u64,
}

fn passed(depth: u64, opens: bool) -> u64 {
    if opens {
        depth.saturating_add(1)
    } else {
        depth.saturating_sub(1)
    }
}

impl Depths {
    fn pass(&mut self, edge: &Edge) {
        match edge.which {
            Which::First => self.first = passed(self.first, edge.opens),
            Which::Second => self.second = passed(self.second, edge.opens),
            Which::Third => self.third = passed(self.third, edge.opens),
        }
    }

    fn inside(&self) -> Inside {
        Inside {
            first: self.first > 0,
            second: self.second > 0,
            third: self.third > 0,
        }
    }
}

// Adds some cells behind the others.
fn add_piece(
    pieces: &mut Vec<Piece>,
    first: u64,
    end: u64,
    inside: Inside,
) -> Result<(), AllocError> {
    if end <= first {
        return Ok(());
    }
    if let Some(last) = pieces.last_mut() {
        if last.end == first && last.inside == inside {
            last.end = end;
            return Ok(());
        }
    }
    pieces.push(Piece { first, end, inside })?;
    Ok(())
}

/// Three sets of cells of an array, laid over each other.
#[derive(Drop)]
pub struct Layers {
    alloc: Global,
    edges: Vec<Edge>,
}

impl Layers {
    /// Empty sets.
    pub fn new(alloc: Global) -> Layers {
        Layers {
            alloc,
            edges: Vec::new(alloc),
        }
    }

    /// Adds runs to one of the sets.
    pub fn add(&mut self, which: Which, spans: &[Span]) -> Result<(), AllocError> {
        'spans: for span in spans {
            if span.first < span.end {
                self.edges.push(Edge {
                    at: span.first,
                    which,
                    opens: true,
                })?;
                self.edges.push(Edge {
                    at: span.end,
                    which,
                    opens: false,
                })?;
            }
        }
        Ok(())
    }

    /// The cells from 0 up to the length, cut where one of the sets begins or ends.
    pub fn pieces(mut self, length: u64) -> Result<Vec<Piece>, AllocError> {
        let mut pieces = Vec::new(self.alloc);
        let mut depths = Depths {
            first: 0,
            second: 0,
            third: 0,
        };
        self.edges.sort_by_key(|edge| edge.at)?;
        let mut from = 0;
        'edges: for edge in &self.edges {
            let at = edge.at.min(length);
            add_piece(&mut pieces, from, at, depths.inside())?;
            depths.pass(edge);
            from = at;
        }
        add_piece(&mut pieces, from, length, depths.inside())?;
        Ok(pieces)
    }
}

/// Which cells of two sets are kept.
#[derive(Clone, Copy)]
pub enum Keep {
    InEither,
    InBoth,
    InFirstAlone,
}

fn keeps(keep: Keep, inside: Inside) -> bool {
    match keep {
        Keep::InEither => inside.first || inside.second,
        Keep::InBoth => inside.first && inside.second,
        Keep::InFirstAlone => inside.first && !inside.second,
    }
}

// Adds a run behind the others.
fn add_span(spans: &mut Vec<Span>, first: u64, end: u64) -> Result<(), AllocError> {
    if let Some(last) = spans.last_mut() {
        if last.end == first {
            last.end = end;
            return Ok(());
        }
    }
    spans.push(Span { first, end })?;
    Ok(())
}

/// Those cells of two sets, as runs of which no two touch.
pub fn combined(
    alloc: Global,
    first: &[Span],
    second: &[Span],
    keep: Keep,
) -> Result<Vec<Span>, AllocError> {
    let mut layers = Layers::new(alloc);
    layers.add(Which::First, first)?;
    layers.add(Which::Second, second)?;
    let pieces = layers.pieces(u64::MAX)?;
    let mut spans = Vec::new(alloc);
    'pieces: for piece in &pieces {
        if keeps(keep, piece.inside) {
            add_span(&mut spans, piece.first, piece.end)?;
        }
    }
    Ok(spans)
}

#[cfg(test)]
mod tests {
    use super::*;
    use std::test::Fail;

    // the cells 0 to 3 and 6 to 8, without 2 to 6
    #[test]
    fn cuts_runs(rt: HostRuntime) -> Result<(), Fail> {
        let first = [Span { first: 0, end: 4 }, Span { first: 6, end: 9 }];
        let second = [Span { first: 2, end: 7 }];
        let left = combined(rt.alloc(), &first, &second, Keep::InFirstAlone)?;
        assert_eq!(rt; left.len(), 2);
        assert_eq!(rt; left.first().copied(), Some(Span { first: 0, end: 2 }));
        assert_eq!(rt; left.last().copied(), Some(Span { first: 7, end: 9 }));
        let all = combined(rt.alloc(), &first, &second, Keep::InEither)?;
        assert_eq!(rt; all.len(), 1);
        Ok(())
    }
}
