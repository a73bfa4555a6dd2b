//! Deleting the lines of directives.

ghost use Rattle.std.specs.Prelude.{◌≡◌, IfOk};
ghost use Rattle.c_grammar.specs.Blocks.{bare};
ghost use Rattle.c_grammar.specs.Grammar.{Text};
ghost use Rattle.c_grammar.specs.Source.{text_of};
ghost use Rattle.c_source.specs.Source.{Spells};
ghost use Rattle.erasure.specs.Plain.{plain_tree};
ghost use Rattle.erasure.specs.Erased.{erased_text, is_taken, items_in};

use c_tokens::{Kind, Token, tokens};
use directives::is_directive_at;
use std::alloc::{AllocError, Global};

fn text_of<'a>(bytes: &'a [u8], token: &Token) -> &'a [u8]
    ensures { result.now ≡ text_of bytes.now token.now }
{
    let start = token.first.min(bytes.len());
    let rest = &bytes[start..];
    let len = token.last.saturating_sub(token.first);
    if rest.len() <= len {
        return rest;
    }
    &rest[..len + 1]
}

/// Whether a token of the text is a line whose words are `pragma omp`.
#[tactic(auto, using(crate::proofs::Cuts::line_taken, crate::proofs::Cuts::other_taken))]
pub fn is_directive(bytes: &[u8], token: &Token) -> bool
    ensures { result ≡ is_taken bytes.now token.now }
{
    match token.kind {
        // At whatever column it stands.
        Kind::Line => is_directive_at(text_of(bytes, token), 1),
        _ => false,
    }
}

/// The text without its directive lines: those whose words are `pragma omp`. The characters of each
/// are deleted, from its `#` on, and its line feed stays, so that all other tokens keep their lines and columns. What
/// stands in a comment, or behind a byte that begins no token, is no such line. Fails where memory ran out.
pub fn erase(alloc: Global, bytes: &[u8]) -> Result<Vec<u8>, AllocError>
    ensures erased { IfOk result (λ v. v.items ≡ erased_text bytes.now) }
    ensures tokens { IfOk result (λ v. items_in v.items ≡ bare (items_in bytes.now)) }
    ensures tree { IfOk result (λ v. (t : Text) → Spells bytes.now t → Spells v.items (plain_tree t)) }
{
    let mut kept = Vec::new(alloc);
    let mut next = 0;
    for token in tokens(bytes) {
        if is_directive(bytes, &token) {
            kept.extend_from_slice(&bytes[next..token.first])?;
            next = token.last + 1;
        }
    }
    kept.extend_from_slice(&bytes[next..])?;
    Ok(kept)
}
