//! What stands for a loop.

ghost use Rattle.std.specs.Prelude.{◌≡◌, ◌++◌, OnOk};
ghost use Rattle.c_grammar.specs.Triangles.{asks, between, guard, guard_for, head, lower, number_for, upper};
ghost use Rattle.c_triangles.specs.Guards.{ending, opening};
ghost use Rattle.c_triangles.specs.Loops.{seen_loop};
ghost use Rattle.c_terminals.specs.Seen.{seen, seen_all};

use crate::loops::Loop;
use c_terminals::{Terminal, Token};
use c_tokens::Sign;
use directives::Word;
use std::alloc::AllocError;

// The number for these tokens.
fn put_number<'a, 'l>(
    done: &mut Vec<Token<'a, 'l>>,
    number: u64,
    tokens: &[Token<'a, 'l>],
) -> Result<(), AllocError>
    ensures { OnOk result (seen_all done.new.items ≡ seen_all done.old.items ++ number_for number (seen_all tokens.now)) }
{
    if let [first, ..] = tokens {
        done.push(first.at(Terminal::Number(number)))?;
    }
    Ok(())
}

// The head with numbers for bounds.
fn put_head<'a, 'l>(done: &mut Vec<Token<'a, 'l>>, own: Loop<'a, 'l, '_>) -> Result<(), AllocError>
    ensures { OnOk result (seen_all done.new.items ≡ seen_all done.old.items ++ head (seen_loop own.entry)) }
{
    done.extend_from_slice(own.parts.front)?;
    put_number(done, own.start.range.first(), own.parts.start)?;
    done.extend_from_slice(own.parts.middle)?;
    done.push(own.parts.compares.at(Terminal::Sign(Sign::Less)))?;
    put_number(done, own.hull_end(), own.parts.limit)?;
    done.extend_from_slice(own.step.tokens)?;
    Ok(())
}

// The name, the sign and the bound.
fn put_asks<'a, 'l>(
    done: &mut Vec<Token<'a, 'l>>,
    own: Loop<'a, 'l, '_>,
    sign: Sign,
    bound: &[Token<'a, 'l>],
) -> Result<(), AllocError>
    ensures { OnOk result (seen_all done.new.items ≡ seen_all done.old.items ++
        asks (seen own.entry.parts.compares) own.entry.name.now sign (seen_all bound.now)) }
{
    done.push(own.parts.compares.at(Terminal::Name(own.name)))?;
    done.push(own.parts.compares.at(Terminal::Sign(sign)))?;
    done.extend_from_slice(bound)?;
    Ok(())
}

fn put_lower<'a, 'l>(done: &mut Vec<Token<'a, 'l>>, own: Loop<'a, 'l, '_>) -> Result<(), AllocError>
    ensures { OnOk result (seen_all done.new.items ≡ seen_all done.old.items ++ lower (seen_loop own.entry)) }
{
    if own.start.varies {
        put_asks(done, own, Sign::GreaterEqual, own.parts.start)?;
    }
    Ok(())
}

fn put_between<'a, 'l>(
    done: &mut Vec<Token<'a, 'l>>,
    own: Loop<'a, 'l, '_>,
) -> Result<(), AllocError>
    ensures { OnOk result (seen_all done.new.items ≡ seen_all done.old.items ++ between (seen_loop own.entry)) }
{
    if own.start.varies && own.limit.varies {
        done.push(own.parts.compares.at(Terminal::Sign(Sign::AndAnd)))?;
    }
    Ok(())
}

fn put_upper<'a, 'l>(done: &mut Vec<Token<'a, 'l>>, own: Loop<'a, 'l, '_>) -> Result<(), AllocError>
    ensures { OnOk result (seen_all done.new.items ≡ seen_all done.old.items ++ upper (seen_loop own.entry)) }
{
    if !own.limit.varies {
        return Ok(());
    }
    if own.parts.compares.terminal.is_sign(Sign::LessEqual) {
        put_asks(done, own, Sign::LessEqual, own.parts.limit)
    } else {
        put_asks(done, own, Sign::Less, own.parts.limit)
    }
}

// `if (`
fn put_opening<'a, 'l>(
    done: &mut Vec<Token<'a, 'l>>,
    own: Loop<'a, 'l, '_>,
) -> Result<(), AllocError>
    ensures { OnOk result (seen_all done.new.items ≡ seen_all done.old.items ++ opening (seen own.entry.parts.compares)) }
{
    done.push(own.parts.compares.at(Terminal::Word(Word::If)))?;
    done.push(own.parts.compares.at(Terminal::Sign(Sign::OpenParen)))?;
    Ok(())
}

// `) {`
fn put_ending<'a, 'l>(
    done: &mut Vec<Token<'a, 'l>>,
    own: Loop<'a, 'l, '_>,
) -> Result<(), AllocError>
    ensures { OnOk result (seen_all done.new.items ≡ seen_all done.old.items ++ ending (seen own.entry.parts.compares)) }
{
    done.push(own.parts.compares.at(Terminal::Sign(Sign::CloseParen)))?;
    done.push(own.parts.compares.at(Terminal::Sign(Sign::OpenBrace)))?;
    Ok(())
}

// The `if` in the block.
fn put_if<'a, 'l>(done: &mut Vec<Token<'a, 'l>>, own: Loop<'a, 'l, '_>) -> Result<(), AllocError>
    ensures { OnOk result (seen_all done.new.items ≡ seen_all done.old.items ++ guard (seen_loop own.entry)) }
{
    put_opening(done, own)?;
    put_lower(done, own)?;
    put_between(done, own)?;
    put_upper(done, own)?;
    put_ending(done, own)?;
    Ok(())
}

// The same, where a name stands in one of the bounds.
fn put_guard<'a, 'l>(done: &mut Vec<Token<'a, 'l>>, own: Loop<'a, 'l, '_>) -> Result<(), AllocError>
    ensures { OnOk result (seen_all done.new.items ≡ seen_all done.old.items ++ guard_for (seen_loop own.entry)) }
{
    if own.is_guarded() {
        put_if(done, own)?;
    }
    Ok(())
}

/// The head with numbers for bounds, and the `if` behind its brace.
pub fn put_loop<'a, 'l>(
    done: &mut Vec<Token<'a, 'l>>,
    own: Loop<'a, 'l, '_>,
) -> Result<(), AllocError>
    ensures { OnOk result (seen_all done.new.items ≡ seen_all done.old.items ++
        (head (seen_loop own.entry) ++ guard_for (seen_loop own.entry))) }
{
    put_head(done, own)?;
    put_guard(done, own)
}
