// What is done one after another.

use crate::scalars::Scalars;
use crate::stack::Frames;

/// What is left of a strand, a part of an item that is done one after another, and where it stands: the values of the
/// loops around, the number at hand, the scalars, the input that is left, and the numbers that it has printed.
#[derive(Drop)]
pub struct Strand<'p> {
    pub on_host: bool,
    pub frames: Frames<'p>,
    pub loops: Vec<u64>,
    pub number: u64,
    pub scalars: Scalars,
    pub input: &'p [u64],
    pub printed: Vec<u64>,
}
