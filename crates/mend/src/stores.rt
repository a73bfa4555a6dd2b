// To which arrays the kernels of a program store.

use base::tree::{ArrayId, Stmt};
use outline::Outlined;
use std::alloc::{AllocError, Global};

#[cycle(statements)]
fn in_stmt(s: &Stmt, array: ArrayId) -> bool {
    match s {
        Stmt::Declare(_, _) | Stmt::Assign(_, _) | Stmt::Print(_) => false,
        Stmt::Store(stored, _, _, _) | Stmt::Combine(_, stored, _, _, _) => *stored == array,
        Stmt::Block(all) | Stmt::Loop(_, all) => stores_to(all, array),
        Stmt::If(_, first, second) => stores_to(first, array) || stores_to(second, array),
    }
}

/// Whether one of these statements stores to an array.
#[cycle(statements)]
pub fn stores_to(all: &[Stmt], array: ArrayId) -> bool {
    for s in all {
        if in_stmt(s, array) {
            return true;
        }
    }
    false
}

/// The arrays to which some kernel stores.
pub fn stored_by_kernels(
    alloc: Global,
    outlined: &Outlined<'_>,
) -> Result<Vec<ArrayId>, AllocError> {
    let mut arrays = Vec::new(alloc);
    for entry in outlined.regions() {
        if entry.is_kernel {
            for array in entry.arrays.as_slice() {
                if !arrays.contains(array) && stores_to(&entry.region.body, *array) {
                    arrays.push(*array)?;
                }
            }
        }
    }
    Ok(arrays)
}
