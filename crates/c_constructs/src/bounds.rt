//! The bounds of a section.

ghost use Rattle.std.specs.Prelude.{◌≡◌, ◌∷◌, [], ◌++◌, IfOk, OnOk};
ghost use Rattle.c_grammar.specs.LineGrammar as line;
ghost use Rattle.c_expressions.specs.Means.{Names};
ghost use Rattle.c_expressions.specs.Scopes.{names_of};
ghost use Rattle.directives.specs.Kinds.{seen_sign};
ghost use Rattle.directives.specs.Names.{Uses, bound_names, term_names};
ghost use Rattle.directives.specs.Reading.{Outcome};
ghost use Rattle.directives.specs.Trees.{bound_of, term_of};
ghost use Rattle.c_constructs.specs.Uses.{fault_in};
ghost use Rattle.c_constructs.specs.Written.{IsBound, IsTerm};

use crate::names::loop_level;
use base::tree;
use c_expressions::Scope;
use directives::{Bound, DirectiveFault, Term, TermSign};
use smallvec::SmallVec;
use std::alloc::AllocError;

/// What a term of a bound means.
#[tactic(auto, using(directives::proofs::Outcomes::on_from))]
pub fn term(scope: &Scope<'_>, term: &Term<'_>) -> Result<tree::Term, DirectiveFault>
    ensures told { (us : Uses) → Outcome result (fault_in scope.now (term_names term.now ++ us))
        (fault_in scope.now us) }
    ensures means { IfOk result (λ p. IsTerm (names_of scope.now) (term_of term.now) p) }
{
    match term {
        Term::Literal(number) => Ok(tree::Term::Literal(*number)),
        Term::Variable(name) => { loop_level(scope, name).map(|level| tree::Term::Times(1, level)) }
        Term::Product(number, name) => {
            loop_level(scope, name).map(|level| tree::Term::Times(*number, level))
        }
    }
}

/// Puts one more term to those of a bound.
fn put_term(read: &mut tree::Bound, sign: TermSign, term: tree::Term) -> Result<(), AllocError>
    ensures { OnOk result ((names : Names) (b : line.Bound) (t : line.Term) → IsBound names b read.old → IsTerm names t term →
        IsBound names (b.0, b.1 ++ (seen_sign sign, t) ∷ []) read.new) }
{
    match sign {
        TermSign::Added => read.terms.push(term)?,
        TermSign::Taken => read.less.push(term)?,
    }
    Ok(())
}

/// What a bound means.
#[tactic(auto, using(directives::proofs::Outcomes::on_from, crate::proofs::NameSteps::all_read))]
pub fn bound(scope: &Scope<'_>, bound: &Bound<'_>) -> Result<tree::Bound, DirectiveFault>
    ensures told { (us : Uses) → Outcome result (fault_in scope.now (bound_names bound.now ++ us))
        (fault_in scope.now us) }
    ensures means { IfOk result (λ b. IsBound (names_of scope.now) (bound_of bound.now) b) }
{
    let first = term(scope, &bound.first)?;
    let mut read = tree::Bound {
        terms: SmallVec::new(scope.alloc),
        less: SmallVec::new(scope.alloc),
    };
    read.terms.push(first)?;
    'terms: for more in &bound.more {
        let next = term(scope, &more.term)?;
        put_term(&mut read, more.sign, next)?;
    }
    Ok(read)
}
