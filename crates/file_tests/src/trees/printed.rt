//! The text of a program's tree: a line for each array, one for the number of scalars, and one for each part, clause and
//! statement, indented below what it stands in. `s1` is scalar 1, `l0` the name of the outermost loop, and `a0@3:5` array
//! 0 by a name on line 3 at column 5. A section without bounds is the whole array. A part of `main` has the name of its
//! kind, a directive the place of its `#`, and a region the place where it begins, and of how many loops the turns may run
//! in any order, if of any; operators have the names of the tree.

use crate::text::Text;
use base::tree::{
    ArrayId, Bound, Bounds, DependText, DeviceId, DeviceText, Directive, Expr, MapText, Part,
    Place, Program, Region, SectionText, Source, Stmt, Tasking, Term, UpdateText,
};
use std::fmt::Debug;

fn add_indent(out: &mut Text, depth: usize) {
    for _ in 0..depth {
        out.add("  ");
    }
}

fn add_place(out: &mut Text, place: Place) {
    out.add_shown(place.line);
    out.add_with(":", place.column);
}

fn add_name(out: &mut Text, array: ArrayId, place: Place) {
    out.add_with("a", array.0);
    out.add("@");
    add_place(out, place);
}

fn add_bounds(out: &mut Text, bounds: Bounds) {
    out.add_with("loop ", bounds.first);
    out.add_with(" ", bounds.end);
    out.add_with(" ", bounds.step);
    out.add("\n");
}

/// What stands in front of an expression's operands.
fn add_head(out: &mut Text, e: &Expr) {
    match e {
        Expr::Number(n) => out.add_shown(*n),
        Expr::Scalar(id) => out.add_with("s", id.0),
        Expr::LoopName(level) => out.add_with("l", *level),
        Expr::Cell(array, place, _) => add_name(out, *array, *place),
        Expr::Unary(op, _) => out.add_debug(*op),
        Expr::Binary(op, _, _) => out.add_debug(*op),
        Expr::And(_, _) => out.add("And"),
        Expr::Or(_, _) => out.add("Or"),
        Expr::Shift(op, _, _) => out.add_debug(*op),
        Expr::Divide(op, _, _) => out.add_debug(*op),
    }
}

fn add_expr(out: &mut Text, e: &Expr) {
    add_head(out, e);
    match e {
        Expr::Number(_) | Expr::Scalar(_) | Expr::LoopName(_) => {}
        Expr::Cell(_, _, index) => {
            out.add("[");
            add_expr(out, index);
            out.add("]");
        }
        Expr::Unary(_, inner) => {
            out.add("(");
            add_expr(out, inner);
            out.add(")");
        }
        Expr::Binary(_, left, right) | Expr::And(left, right) | Expr::Or(left, right) => {
            out.add("(");
            add_expr(out, left);
            out.add(", ");
            add_expr(out, right);
            out.add(")");
        }
        Expr::Shift(_, left, by) => {
            out.add("(");
            add_expr(out, left);
            out.add_with(", ", by.count);
            out.add(")");
        }
        Expr::Divide(_, left, by) => {
            out.add("(");
            add_expr(out, left);
            out.add_with(", ", by.value);
            out.add(")");
        }
    }
}

/// An equals sign, what is assigned and the end of the line.
fn add_source(out: &mut Text, source: &Source) {
    out.add(" = ");
    match source {
        Source::Read => out.add("read"),
        Source::Value(e) => add_expr(out, e),
    }
    out.add("\n");
}

#[cycle(show)]
fn add_stmt(out: &mut Text, depth: usize, stmt: &Stmt) {
    let below = depth.saturating_add(1);
    add_indent(out, depth);
    match stmt {
        Stmt::Declare(id, source) => {
            out.add_with("declare s", id.0);
            add_source(out, source);
        }
        Stmt::Assign(id, source) => {
            out.add_with("s", id.0);
            add_source(out, source);
        }
        Stmt::Store(array, place, index, source) => {
            add_name(out, *array, *place);
            out.add("[");
            add_expr(out, index);
            out.add("]");
            add_source(out, source);
        }
        Stmt::Combine(op, array, place, index, value) => {
            out.add("combine ");
            out.add_debug(*op);
            out.add(" ");
            add_name(out, *array, *place);
            out.add("[");
            add_expr(out, index);
            out.add("] ");
            add_expr(out, value);
            out.add("\n");
        }
        Stmt::Print(e) => {
            out.add("print ");
            add_expr(out, e);
            out.add("\n");
        }
        Stmt::Block(inner) => {
            out.add("block\n");
            add_block(out, below, inner);
        }
        Stmt::Loop(bounds, inner) => {
            add_bounds(out, *bounds);
            add_block(out, below, inner);
        }
        Stmt::If(test, first, second) => {
            out.add("if ");
            add_expr(out, test);
            out.add("\n");
            add_block(out, below, first);
            add_indent(out, depth);
            out.add("else\n");
            add_block(out, below, second);
        }
    }
}

#[cycle(show)]
fn add_block(out: &mut Text, depth: usize, block: &Vec<Stmt>) {
    for stmt in block {
        add_stmt(out, depth, stmt);
    }
}

fn add_term(out: &mut Text, term: &Term) {
    match term {
        Term::Literal(value) => out.add_shown(*value),
        Term::Times(factor, level) => {
            out.add_shown(*factor);
            out.add_with("*l", *level);
        }
    }
}

fn add_bound(out: &mut Text, bound: &Bound) {
    for (n, term) in bound.terms.iter().enumerate() {
        if n > 0 {
            out.add(" + ");
        }
        add_term(out, term);
    }
    for term in bound.less.as_slice() {
        out.add(" - ");
        add_term(out, term);
    }
}

fn add_section(out: &mut Text, section: &SectionText) {
    add_name(out, section.array, section.place);
    if let Some((first, length)) = &section.bounds {
        out.add("[");
        add_bound(out, first);
        out.add(" : ");
        add_bound(out, length);
        out.add("]");
    }
}

/// The line of an item of a clause: the clause, its kind, and the section.
fn add_item<K: Debug + Copy>(
    out: &mut Text,
    depth: usize,
    clause: &str,
    kind: K,
    section: &SectionText,
) {
    add_indent(out, depth);
    out.add(clause);
    out.add_debug(kind);
    out.add(" ");
    add_section(out, section);
    out.add("\n");
}

/// A map clause with its modifiers.
fn map_words(always: bool, present: bool) -> &'static str {
    match (always, present) {
        (true, true) => "map always present ",
        (true, false) => "map always ",
        (false, true) => "map present ",
        (false, false) => "map ",
    }
}

fn add_maps<K: Debug + Copy>(out: &mut Text, depth: usize, maps: &[MapText<K>]) {
    for map in maps {
        let clause = map_words(map.always, map.present);
        add_item(out, depth, clause, map.kind, &map.section);
    }
}

fn add_depends(out: &mut Text, depth: usize, depends: &[DependText]) {
    for depend in depends {
        add_item(out, depth, "depend ", depend.kind, &depend.section);
    }
}

fn add_updates(out: &mut Text, depth: usize, updates: &[UpdateText]) {
    for update in updates {
        let clause = if update.present {
            "motion present "
        } else {
            "motion "
        };
        add_item(out, depth, clause, update.kind, &update.section);
    }
}

/// The line of a device that is not the first.
fn add_device(out: &mut Text, depth: usize, device: DeviceText) {
    match device {
        DeviceText::Fixed(DeviceId { number: 0 }) => (),
        DeviceText::Fixed(device) => {
            add_indent(out, depth);
            out.add_with("device ", device.number);
            out.add("\n");
        }
        DeviceText::LoopName(level) => {
            add_indent(out, depth);
            out.add_with("device l", level);
            out.add("\n");
        }
    }
}

fn add_tasking(out: &mut Text, depth: usize, tasking: &Tasking) {
    add_depends(out, depth, &tasking.depends);
    if tasking.nowait {
        add_indent(out, depth);
        out.add("nowait\n");
    }
    add_device(out, depth, tasking.device);
}

/// The line of a directive that stands there.
fn add_directive(out: &mut Text, word: &str, place: Place) {
    out.add(word);
    add_place(out, place);
    out.add("\n");
}

fn add_alone(out: &mut Text, depth: usize, place: Place, directive: &Directive) {
    match directive {
        Directive::Enter(maps, tasking) => {
            add_directive(out, "enter ", place);
            add_maps(out, depth, maps);
            add_tasking(out, depth, tasking);
        }
        Directive::Exit(maps, tasking) => {
            add_directive(out, "exit ", place);
            add_maps(out, depth, maps);
            add_tasking(out, depth, tasking);
        }
        Directive::Update(updates, tasking) => {
            add_directive(out, "update ", place);
            add_updates(out, depth, updates);
            add_tasking(out, depth, tasking);
        }
        Directive::Wait(depends) => {
            add_directive(out, "wait ", place);
            add_depends(out, depth, depends);
        }
    }
}

/// The line of a region of that kind.
fn add_region(out: &mut Text, kind: &str, region: &Region) {
    out.add(kind);
    add_place(out, region.place);
    if region.depth > 0 {
        out.add_with(" depth ", region.depth);
    }
    out.add("\n");
}

#[cycle(parts)]
fn add_part(out: &mut Text, depth: usize, part: &Part) {
    let below = depth.saturating_add(1);
    add_indent(out, depth);
    match part {
        Part::Host(region) => {
            add_region(out, "host ", region);
            add_block(out, below, &region.body);
        }
        Part::Block(inner) => {
            out.add("block\n");
            add_parts(out, below, inner);
        }
        Part::Loop(bounds, inner) => {
            add_bounds(out, *bounds);
            add_parts(out, below, inner);
        }
        Part::Target(target, region) => {
            out.add("target ");
            add_place(out, target.place);
            add_region(out, " region ", region);
            add_maps(out, below, &target.maps);
            add_tasking(out, below, &target.tasking);
            add_block(out, below, &region.body);
        }
        Part::Data(data, inner) => {
            add_directive(out, "data ", data.place);
            add_maps(out, below, &data.maps);
            add_device(out, below, data.device);
            add_parts(out, below, inner);
        }
        Part::Alone(place, directive) => add_alone(out, below, *place, directive),
    }
}

#[cycle(parts)]
fn add_parts(out: &mut Text, depth: usize, parts: &Vec<Part>) {
    for part in parts {
        add_part(out, depth, part);
    }
}

fn add_array(out: &mut Text, name: &str, length: u32) {
    out.add("array ");
    out.add(name);
    out.add_with(" ", length);
    out.add("\n");
}

pub(crate) fn add_program(out: &mut Text, program: &Program) {
    for (name, info) in program.arrays.iter() {
        add_array(out, name, info.length);
    }
    out.add_with("scalars ", program.scalars);
    out.add("\n");
    add_parts(out, 0, &program.body);
}
