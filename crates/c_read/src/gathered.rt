//! The longest runs of statements without a directive become regions of the host.

use crate::piece::Piece;
use base::tree::{Part, Place, Region, Stmt};
use std::alloc::{AllocError, Global};
use std::mem::replace;

/// The parts of a block so far, and the statements of the region of the host that is open.
#[derive(Drop)]
pub struct Gathered {
    pub alloc: Global,
    pub parts: Vec<Part>,
    /// Where the open region begins, if it has a statement.
    pub place: Place,
    pub run: Vec<Stmt>,
}

impl Gathered {
    ghost use Rattle.std.specs.Prelude.{◌≡◌, [], ◌∷◌, ◌++◌, OnOk, IfOk, Some, None, true, false};
    ghost use Rattle.c_read.specs.Gathering.{so_far, IsGathered, IsNoHost, Adds, Closes};
    ghost use Rattle.c_read.specs.Parts.{is_host, are_mixed, pieces_of, AreLongest};
    ghost use Rattle.c_read.specs.declared.piece.Piece.TheVariants as piece;
    ghost use Rattle.base.specs.declared.tree.Place.{Place};

    /// Nothing yet.
    #[tactic(auto, using(crate::proofs::Gathering::gathered_none, crate::proofs::Gathering::pieces_none))]
    pub fn new(alloc: Global) -> Gathered
        ensures sound { IsGathered result }
        ensures pieces { so_far result ≡ [] }
    {
        Gathered {
            alloc,
            parts: Vec::new(alloc),
            place: Place { line: 0, column: 0 },
            run: Vec::new(alloc),
        }
    }

    /// The open region becomes a part, if it has a statement.
    #[tactic(auto, using(crate::proofs::Gathering::closes_none, crate::proofs::Gathering::closes_run))]
    fn close(&mut self) -> Result<(), AllocError>
        ensures { OnOk result (Closes self.old self.new) }
    {
        if self.run.is_empty() {
            return Ok(());
        }
        let body = replace(&mut self.run, Vec::new(self.alloc));
        self.parts.push(Part::Host(Region {
            place: self.place,
            body,
            depth: 0,
        }))?;
        Ok(())
    }

    /// One more statement of the open region, which stands at the place.
    fn add_statement(&mut self, place: Place, stmt: Stmt) -> Result<(), AllocError>
        requires { IsGathered self.old }
        ensures { OnOk result (Adds place (piece.Statement stmt) self.old self.new) }
    {
        if self.run.is_empty() {
            self.place = place;
        }
        self.run.push(stmt)?;
        Ok(())
    }

    /// One more part, which has a directive.
    #[tactic(auto, using(crate::proofs::Gathering::adds_part))]
    fn add_part(&mut self, part: Part) -> Result<(), AllocError>
        requires sound { IsGathered self.old }
        requires mixed { is_host part ≡ false }
        ensures { (place : Place) → OnOk result (Adds place (piece.Part part) self.old self.new) }
    {
        if let Err(error) = self.close() {
            // A call, since a part dropped here without one is proved for each kind of part.
            drop(part);
            return Err(error);
        }
        self.parts.push(part)?;
        Ok(())
    }

    /// One more statement or part, which stands at the place.
    pub fn add(&mut self, place: Place, piece: Piece) -> Result<(), AllocError>
        requires sound { IsGathered self.old }
        requires mixed { IsNoHost piece }
        ensures { OnOk result (Adds place piece self.old self.new) }
    {
        match piece {
            Piece::Statement(stmt) => self.add_statement(place, stmt),
            Piece::Part(part) => self.add_part(part),
        }
    }

    /// All parts.
    pub fn parts(self) -> Result<Vec<Part>, AllocError>
        requires { IsGathered self }
        ensures pieces { IfOk result (λ v. pieces_of v.items ≡ so_far self) }
        ensures longest { IfOk result (λ v. AreLongest false v.items) }
        ensures mixed { IfOk result (λ v. are_mixed self.parts.items ≡ true → are_mixed v.items ≡ true) }
    {
        let mut gathered = self;
        gathered.close()?;
        Ok(gathered.parts)
    }
}
