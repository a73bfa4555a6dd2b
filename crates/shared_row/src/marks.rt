// Marks of numbers.

/// Which numbers of a row are marked: those from a place up to another, or each one that says so.
#[derive(Drop)]
pub enum Marks {
    Run(usize, usize),
    Each(Vec<bool>),
}
