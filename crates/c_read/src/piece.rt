//! What the statements of `main` are.

use base::tree::{Part, Stmt};

/// A statement without a directive of a part, or a part.
#[derive(Drop)]
pub enum Piece {
    Statement(Stmt),
    Part(Part),
}
