// How dear the check of a program is, about.

use base::item::Item;
use base::tree::{Part, Program, Stmt};
use mapwalk::repeats;
use mend::MOST_CHECKS;
use outline::Outlined;
use reasons::turns_in_all;
use std::alloc::{AllocError, Global};

// The most statements and directives of a source for which a change is looked for.
const MOST_STATEMENTS: u64 = 2_000;

// What a statement, or an item, weighs beside a turn of a loop.
const STATEMENT: u64 = 32;

// The most turns that the checks of a search walk together, where each turn is walked: about a second.
const MOST_TURNS: u64 = 4_194_304;

#[cycle(statements)]
fn in_stmt(s: &Stmt) -> u64 {
    match s {
        Stmt::Declare(_, _)
        | Stmt::Assign(_, _)
        | Stmt::Store(_, _, _, _)
        | Stmt::Combine(_, _, _, _, _)
        | Stmt::Print(_) => 1,
        Stmt::Block(all) | Stmt::Loop(_, all) => in_all(all).saturating_add(1),
        Stmt::If(_, first, second) => in_all(first)
            .saturating_add(in_all(second))
            .saturating_add(1),
    }
}

#[cycle(statements)]
fn in_all(all: &[Stmt]) -> u64 {
    let mut total = 0u64;
    for s in all {
        total = total.saturating_add(in_stmt(s));
    }
    total
}

#[cycle(parts)]
fn in_part(part: &Part) -> u64 {
    match part {
        Part::Host(region) => in_all(&region.body),
        Part::Target(_, region) => in_all(&region.body).saturating_add(1),
        Part::Alone(_, _) => 1,
        Part::Block(all) | Part::Loop(_, all) | Part::Data(_, all) => {
            in_parts(all).saturating_add(1)
        }
    }
}

#[cycle(parts)]
fn in_parts(parts: &[Part]) -> u64 {
    let mut total = 0u64;
    for part in parts {
        total = total.saturating_add(in_part(part));
    }
    total
}

// How many statements and directives a program has.
fn statements(program: &Program) -> u64 {
    in_parts(&program.body)
}

// The turns of the region of an item.
fn turns_of(outlined: &Outlined<'_>, item: &Item) -> u64 {
    let Some(number) = item.region else {
        return 0;
    };
    match outlined.regions().get(number as usize) {
        None => 0,
        Some(entry) => turns_in_all(&entry.region.body),
    }
}

// The turns of the regions of the items, where one that touches what an earlier one does counts once.
fn turns(alloc: Global, outlined: &Outlined<'_>) -> Result<u64, AllocError> {
    let repeats = repeats(alloc, outlined)?;
    let mut total = 0u64;
    'items: for (number, item) in outlined.items().iter().enumerate() {
        if let Some(None) = repeats.get(number) {
            total = total.saturating_add(turns_of(outlined, item));
        }
    }
    Ok(total)
}

/// How many texts may be checked while a change is looked for; none where the source is large, or its check dear.
pub fn checks_for(alloc: Global, outlined: &Outlined<'_>) -> Result<usize, AllocError> {
    let statements = statements(outlined.program());
    if statements > MOST_STATEMENTS {
        return Ok(0);
    }
    let items = outlined.items().len() as u64;
    let weight = statements
        .saturating_add(items)
        .saturating_mul(STATEMENT)
        .saturating_add(turns(alloc, outlined)?);
    if weight == 0 {
        return Ok(MOST_CHECKS);
    }
    Ok((MOST_TURNS / weight).min(MOST_CHECKS as u64) as usize)
}
