//! Sources whose directives are changed so that their programs are accepted.
#![tactic(auto)]

mod atomic;
mod bare;
mod blocks;
mod candidates;
mod clauses;
mod combined;
mod currency;
mod devices;
mod edits;
mod exits;
mod inner;
mod judge;
mod kinds;
mod lines;
mod ordering;
mod places;
mod pointers;
mod presence;
mod search;
mod sections;
mod sent;
mod split;
mod stores;
mod tidy;
mod view;
mod words;

pub use bare::without_directives;
pub use edits::{Edit, edits_of};
pub use judge::Located;
pub use search::{MOST_CHECKS, MOST_STEPS, Mended, Sought, mend, mend_within, seek_within};
pub use split::split_as;
