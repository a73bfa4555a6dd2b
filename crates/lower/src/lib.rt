//! An accepted program as it runs: the code of each region, and for each item the cells that its region may touch.
#![tactic(auto)]

ghost use Rattle.std.specs.Prelude.{◌≡◌, IfOk};

pub use crate::image::Image;
use crate::image::build;
use mapcheck::{Accepted, current_at_end};
use std::alloc::{AllocError, Global};

mod image;

/// The image of an accepted program: each region is compiled once. The cells that the items' regions may touch are those
/// that the check found. The error comes for want of memory.
pub fn lower<'a>(alloc: Global, accepted: &'a Accepted<'a>) -> Result<Image<'a>, AllocError>
    ensures { IfOk result (λ image. image ≡ accepted.now) }
{
    accepted.is_accepted();
    let marked = current_at_end(alloc, accepted)?;
    build(alloc, accepted.outlined(), marked, accepted.reaches())
}
