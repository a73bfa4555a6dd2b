//! What the region of an item runs on, and what its run leaves in the two memories.
#![tactic(auto)]

ghost use Rattle.frames.specs.Laws.{AcceptedItemsAreFine, EntriesGiveStorage, HostFrameMeans, KeptLeaves, KernelFrameMeans, LeastRunsReach, StoresAreCells, TouchedCellsDecide};

pub use crate::device::{kernel_frame, load_rows, store_kernel};
pub use crate::host::{host_frame, store_host};

mod device;
mod host;

/// A region depends on the cells alone that it may touch. Only one of the two views needs to have numbers below 2^64.
pub fn touched_cells_decide()
    ensures { TouchedCellsDecide }
{}

/// The least runs of cells that a footprint tells have each cell that the region may touch, and lie in its arrays.
pub fn least_runs_reach()
    ensures { LeastRunsReach }
{}

/// On its frame a region does what it does on the host memory.
pub fn host_frame_means()
    ensures { HostFrameMeans }
{}

/// On its frame a region does what it does on the device, where each cell that it may touch has storage.
pub fn kernel_frame_means()
    ensures { KernelFrameMeans }
{}

/// After entries that succeed each cell of each map item's section has storage.
pub fn entries_give_storage()
    ensures { EntriesGiveStorage }
{}

/// What a region without a fault of range stores lies in the arrays.
pub fn stores_are_cells()
    ensures { StoresAreCells }
{}

/// What is known of each item of an accepted program: it has no fault of range, and each cell that the kernel of a target
/// may touch lies in the section of one of its map items.
pub fn accepted_items_are_fine()
    ensures { AcceptedItemsAreFine }
{}

/// What is kept of a run tells what its stores do in the two memories.
pub fn kept_leaves()
    ensures { KeptLeaves }
{}
