// What is issued for an item.

ghost use Rattle.std.specs.Prelude.{◌≡◌, true, IsSome};
ghost use Rattle.base.specs.Turns.{Independent, turns_at};
ghost use Rattle.device.specs.Standing.{done_on};

use crate::shared_frame::SharedFrame;
use kernel::Code;

/// The code of a region and a frame on which the region has a meaning, so that `kernel::run` may run it there.
#[derive(Drop)]
pub struct Job<'a> {
    pub code: &'a Code<'a>,
    pub frame: SharedFrame<'a>,
    /// Whether the region is a kernel. Its turns that may run in any order then meet nowhere.
    pub is_kernel: bool,
    pub ghost runs: { IsSome (done_on code.now frame) },
    pub ghost apart: { is_kernel ≡ true → Independent (turns_at code.now.depth code.now.body.items frame.loops.now.values.items) },
}
