//! Blocks and loops of what was gathered.

ghost use Rattle.std.specs.Prelude.{◌≡◌, IfOk, drop, false};
ghost use Rattle.c_grammar.specs.Grammar.{Head, Stmts, Block, Repeat};
ghost use Rattle.c_expressions.specs.Means.{Items};
ghost use Rattle.c_statements.specs.Statements.{Env, IsHead, head_size, in_loop};
ghost use Rattle.c_read.specs.Gathering.{so_far, IsGathered, IsNoHost};
ghost use Rattle.c_read.specs.Parts.{AreLongest, ArePieces, IsPiece};
ghost use Rattle.c_read.specs.Read.{AreAlone};

use crate::gathered::Gathered;
use crate::piece::Piece;
use base::tree::{Bounds, Part, Place, Region, Stmt};
use std::alloc::{AllocError, Global};

/// The block of what was gathered: a statement, where nothing has a directive of a part.
#[tactic(auto, using(crate::proofs::Wraps::block_statement, crate::proofs::Wraps::block_part))]
pub fn block_of(gathered: Gathered) -> Result<Piece, AllocError>
    requires { IsGathered gathered }
    ensures means { IfOk result (λ p. (env : Env) (is : Items) (b : Stmts) →
        ArePieces env (drop 1 is) b (so_far gathered) → IsPiece env is (Block b) p) }
    ensures mixed { IfOk result IsNoHost }
{
    if gathered.parts.is_empty() {
        return Ok(Piece::Statement(Stmt::Block(gathered.run)));
    }
    let parts = gathered.parts()?;
    Ok(Piece::Part(Part::Block(parts)))
}

/// The loop of what was gathered: a statement, where nothing has a directive of a part.
#[tactic(auto, using(crate::proofs::Wraps::loop_statement, crate::proofs::Wraps::loop_part))]
pub fn loop_of(bounds: Bounds, gathered: Gathered) -> Result<Piece, AllocError>
    requires { IsGathered gathered }
    ensures means { IfOk result (λ p. (env : Env) (is : Items) (h : Head) (b : Stmts) → IsHead h bounds →
        ArePieces (in_loop h.name env) (drop (head_size h) is) b (so_far gathered) →
        IsPiece env is (Repeat h b) p) }
    ensures mixed { IfOk result IsNoHost }
{
    if gathered.parts.is_empty() {
        return Ok(Piece::Statement(Stmt::Loop(bounds, gathered.run)));
    }
    let parts = gathered.parts()?;
    Ok(Piece::Part(Part::Loop(bounds, parts)))
}

/// One statement or part alone, which stands at the place.
#[tactic(auto, using(crate::proofs::Wraps::alone_host, crate::proofs::Wraps::alone_part, crate::proofs::Wraps::longest_host, crate::proofs::Wraps::longest_part))]
pub fn alone(alloc: Global, place: Place, piece: Piece) -> Result<Vec<Part>, AllocError>
    requires { IsNoHost piece }
    ensures parts { IfOk result (λ v. AreAlone place piece v.items) }
    ensures longest { IfOk result (λ v. AreLongest false v.items) }
{
    let mut parts = Vec::new(alloc);
    match piece {
        Piece::Statement(stmt) => {
            let mut body = Vec::new(alloc);
            body.push(stmt)?;
            parts.push(Part::Host(Region {
                place,
                body,
                depth: 0,
            }))?;
            Ok(parts)
        }
        Piece::Part(part) => {
            parts.push(part)?;
            Ok(parts)
        }
    }
}
