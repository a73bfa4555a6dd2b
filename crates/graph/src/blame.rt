// Which items a fault is of.

use base::fault::CheckFault;
use base::item::Cell;

/// The items that a fault names.
#[derive(Clone, Copy)]
pub struct Blame {
    pub code: &'static str,
    /// The item that is refused.
    pub item: u32,
    pub cell: Option<Cell>,
    /// The earlier item of two with no order between them, or with depend items that overlap in part.
    pub other: Option<u32>,
}

impl Blame {
    /// Whether it names an item.
    pub fn is_of(&self, item: usize) -> bool {
        if self.item as usize == item {
            return true;
        }
        match self.other {
            None => false,
            Some(other) => other as usize == item,
        }
    }
}

/// The items that a fault of the check names. Want of memory names none.
pub fn blame_of(fault: &CheckFault) -> Option<Blame> {
    match fault {
        CheckFault::Range { item, fault } => Some(Blame {
            code: fault.code.as_str(),
            item: *item,
            cell: None,
            other: None,
        }),
        CheckFault::Order(fault) => Some(Blame {
            code: "E505",
            item: fault.item,
            cell: Some(fault.cell),
            other: Some(fault.other),
        }),
        CheckFault::Refused(refusal) => Some(Blame {
            code: refusal.code.as_str(),
            item: refusal.item,
            cell: Some(refusal.cell),
            other: refusal.other,
        }),
        CheckFault::OutOfMemory => None,
    }
}
