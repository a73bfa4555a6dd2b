//! A statement with conditional operators, put twice.

ghost use Rattle.std.specs.Prelude.{◌≡◌, ◌++◌, ◌∷◌, [], IfOk, OnOk};
ghost use Rattle.c_grammar.specs.Choices.{all_alone, lifted};
ghost use Rattle.c_choices.specs.Parts.{else_at, if_at};
ghost use Rattle.c_terminals.specs.Seen.{seen, seen_all};

use crate::kinds::alone;
use crate::parts::parts;
use c_terminals::{Terminal, Token};
use c_tokens::Sign;
use directives::Word;
use std::alloc::{AllocError, Global};

// The tokens by themselves.
fn put_alone<'a, 'l>(
    done: &mut Vec<Token<'a, 'l>>,
    tokens: &[Token<'a, 'l>],
) -> Result<(), AllocError>
    ensures { OnOk result (seen_all done.new.items ≡ seen_all done.old.items ++ all_alone (seen_all tokens.now)) }
{
    let mut rest = tokens;
    'tokens: while let [token, behind @ ..] = rest {
        done.push(alone(*token))?;
        rest = behind;
    }
    Ok(())
}

// `if (condition) {`
fn put_if<'a, 'l>(
    done: &mut Vec<Token<'a, 'l>>,
    mark: Token<'a, 'l>,
    condition: &[Token<'a, 'l>],
) -> Result<(), AllocError>
    ensures { OnOk result (seen_all done.new.items ≡
        seen_all done.old.items ++ if_at (seen mark.entry) (seen_all condition.now)) }
{
    done.push(mark.at(Terminal::Word(Word::If)))?;
    done.push(mark.at(Terminal::Sign(Sign::OpenParen)))?;
    put_alone(done, condition)?;
    done.push(mark.at(Terminal::Sign(Sign::CloseParen)))?;
    done.push(mark.at(Terminal::Sign(Sign::OpenBrace)))?;
    Ok(())
}

// `} else {`
fn put_else<'a, 'l>(done: &mut Vec<Token<'a, 'l>>, mark: Token<'a, 'l>) -> Result<(), AllocError>
    ensures { OnOk result (seen_all done.new.items ≡ seen_all done.old.items ++ else_at (seen mark.entry)) }
{
    done.push(mark.at(Terminal::Sign(Sign::CloseBrace)))?;
    done.push(mark.at(Terminal::Word(Word::Else)))?;
    done.push(mark.at(Terminal::Sign(Sign::OpenBrace)))?;
    Ok(())
}

// The statement with one of its choices.
fn joined<'a, 'l>(
    alloc: Global,
    before: &[Token<'a, 'l>],
    choice: &[Token<'a, 'l>],
    behind: &[Token<'a, 'l>],
) -> Result<Vec<Token<'a, 'l>>, AllocError>
    ensures { IfOk result (λ v. seen_all v.items ≡
        seen_all before.now ++ (seen_all choice.now ++ seen_all behind.now)) }
{
    let mut statement = Vec::from_slice(alloc, before)?;
    statement.extend_from_slice(choice)?;
    statement.extend_from_slice(behind)?;
    Ok(statement)
}

/// The statement, so many question marks deep.
pub fn put_lifted<'a, 'l>(
    alloc: Global,
    done: &mut Vec<Token<'a, 'l>>,
    depth: usize,
    statement: &[Token<'a, 'l>],
) -> Result<(), AllocError>
    ensures { OnOk result (seen_all done.new.items ≡ seen_all done.old.items ++ lifted depth (seen_all statement.now)) }
{
    if depth == 0 {
        return put_alone(done, statement);
    }
    let Some(parts) = parts(statement) else {
        return put_alone(done, statement);
    };
    put_if(done, parts.mark, parts.condition)?;
    let first = joined(alloc, parts.before, parts.first, parts.behind)?;
    put_lifted(alloc, done, depth - 1, &first)?;
    put_else(done, parts.mark)?;
    let second = joined(alloc, parts.before, parts.second, parts.behind)?;
    put_lifted(alloc, done, depth - 1, &second)?;
    done.push(parts.mark.at(Terminal::Sign(Sign::CloseBrace)))?;
    Ok(())
}
