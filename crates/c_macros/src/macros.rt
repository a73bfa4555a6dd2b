//! Macros, and what stands for their parameters.

ghost use Rattle.std.specs.Prelude.{◌≡◌, map};
ghost use Rattle.std.specs.Option.{option_map};
ghost use Rattle.c_grammar.specs.Macros.{are_given, argument_at, argument_for, fit, has_name, is_in, is_macro, is_sure, is_used, macro_at, macro_of};
ghost use Rattle.c_macros.specs.Macros.{all_macros, lists_of, names_of, seen_macro};
ghost use Rattle.c_terminals.specs.Seen.{seen_all, seen_terminal};

use c_terminals::{Terminal, Token, is_among};

#[derive(Drop)]
pub struct Macro<'a, 'l> {
    pub name: &'a [u8],
    pub parameters: Vec<&'a [u8]>,
    pub body: Vec<Terminal<'a, 'l>>,
}

/// The macro of that name.
pub fn macro_of<'m, 'a, 'l>(macros: &'m [Macro<'a, 'l>], name: &[u8]) -> Option<&'m Macro<'a, 'l>>
    ensures { option_map (λ m. seen_macro m.now) result ≡ macro_of (all_macros macros.now) name.now }
{
    let mut rest = macros;
    'macros: while let [own, behind @ ..] = rest {
        if own.name == name {
            return Some(own);
        }
        rest = behind;
    }
    None
}

/// The macro whose name the token is.
pub fn macro_at<'m, 'a, 'l>(
    macros: &'m [Macro<'a, 'l>],
    terminal: Terminal<'_, '_>,
) -> Option<&'m Macro<'a, 'l>>
    ensures { option_map (λ m. seen_macro m.now) result ≡ macro_at (all_macros macros.now) (seen_terminal terminal.entry) }
{
    match terminal {
        Terminal::Name(name) => macro_of(macros, name),
        _ => None,
    }
}

/// Whether the token is one of the language, and the same one in C.
pub fn is_sure(terminal: Terminal<'_, '_>) -> bool
    ensures { result ≡ is_sure (seen_terminal terminal.entry) }
{
    match terminal {
        Terminal::Word(_) | Terminal::Sign(_) | Terminal::Name(_) | Terminal::Number(_) => true,
        _ => false,
    }
}

/// The argument for the parameter of that name.
fn argument_for<'s, 'a, 'l>(
    parameters: &[&[u8]],
    arguments: &'s [Vec<Token<'a, 'l>>],
    name: &[u8],
) -> Option<&'s [Token<'a, 'l>]>
    ensures { option_map (λ s. seen_all s.now) result ≡ argument_for (names_of parameters.now) (lists_of arguments.now) name.now }
{
    let mut names = parameters;
    let mut lists = arguments;
    'names: while let [own, names_behind @ ..] = names {
        let [list, lists_behind @ ..] = lists else {
            return None;
        };
        if *own == name {
            return Some(list.as_slice());
        }
        names = names_behind;
        lists = lists_behind;
    }
    None
}

/// The argument for the parameter that the token is.
pub fn argument_at<'s, 'a, 'l>(
    parameters: &[&[u8]],
    arguments: &'s [Vec<Token<'a, 'l>>],
    terminal: Terminal<'_, '_>,
) -> Option<&'s [Token<'a, 'l>]>
    ensures { option_map (λ s. seen_all s.now) result ≡ argument_at (names_of parameters.now) (lists_of arguments.now) (seen_terminal terminal.entry) }
{
    match terminal {
        Terminal::Name(name) => argument_for(parameters, arguments, name),
        _ => None,
    }
}

/// Whether there is an argument for each parameter.
fn are_given(parameters: &[&[u8]], arguments: &[Vec<Token<'_, '_>>]) -> bool
    ensures { result ≡ are_given (names_of parameters.now) (lists_of arguments.now) }
{
    let mut names = parameters;
    let mut lists = arguments;
    'names: while let [_, names_behind @ ..] = names {
        let [list, lists_behind @ ..] = lists else {
            return false;
        };
        if list.is_empty() {
            return false;
        }
        names = names_behind;
        lists = lists_behind;
    }
    lists.is_empty()
}

/// The same, where nothing between the brackets is no argument.
pub fn fit(parameters: &[&[u8]], arguments: &[Vec<Token<'_, '_>>]) -> bool
    ensures { result ≡ fit (names_of parameters.now) (lists_of arguments.now) }
{
    if parameters.is_empty() {
        if let [only] = arguments {
            return only.is_empty();
        }
    }
    are_given(parameters, arguments)
}

/// Whether one of the tokens is that name.
pub fn has_name(name: &[u8], terminals: &[Terminal<'_, '_>]) -> bool
    ensures { result ≡ has_name name.now (map seen_terminal terminals.now) }
{
    let mut rest = terminals;
    'terminals: while let [own, behind @ ..] = rest {
        if own.is_named(name) {
            return true;
        }
        rest = behind;
    }
    false
}

fn is_in(name: &[u8], one: &Macro<'_, '_>) -> bool
    ensures { result ≡ is_in name.now (seen_macro one.now) }
{
    one.name == name || is_among(&one.parameters, name) || has_name(name, &one.body)
}

/// Whether the name stands in the line of a macro.
pub fn is_used(name: &[u8], macros: &[Macro<'_, '_>]) -> bool
    ensures { result ≡ is_used name.now (all_macros macros.now) }
{
    let mut rest = macros;
    'macros: while let [own, behind @ ..] = rest {
        if is_in(name, own) {
            return true;
        }
        rest = behind;
    }
    false
}

/// Whether one of the names is a macro's.
pub fn is_macro(macros: &[Macro<'_, '_>], names: &[&[u8]]) -> bool
    ensures { result ≡ is_macro (all_macros macros.now) (names_of names.now) }
{
    let mut rest = names;
    'names: while let [own, behind @ ..] = rest {
        if macro_of(macros, own).is_some() {
            return true;
        }
        rest = behind;
    }
    false
}
