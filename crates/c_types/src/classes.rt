//! Which names are numbers of the type `int`, and which of them are small.

use crate::found::Found;
use crate::functions::Taken;
use crate::numbers::is_short;
use c_terminals::Terminal;

impl Found<'_> {
    ghost use Rattle.std.specs.Prelude.{◌≡◌, MatchOption, Some, None};
    ghost use Rattle.c_grammar.specs.Types.{converts, function_of, is_own, is_small_name};
    ghost use Rattle.c_grammar.specs.Types.{is_small_terminal, small_constants};
    ghost use Rattle.c_terminals.specs.Seen.{seen_terminal};
    ghost use Rattle.c_types.specs.Found.{all_taken, seen_found};

    // Whether it is declared by `int` alone, and is no name of a loop.
    fn is_own(&self, name: &[u8]) -> bool
        ensures { result ≡ is_own (seen_found self.now) name.now }
    {
        self.ints.contains(name)
            && !self.wides.contains(name)
            && !self.flags.contains(name)
            && !self.heads.contains(name)
            && !(self.pointers.contains(name) && self.scalars.contains(name))
    }

    /// Whether its type is to be `uint64_t`.
    pub fn converts(&self, name: &[u8]) -> bool
        ensures { result ≡ converts (seen_found self.now) name.now }
    {
        self.is_own(name) && (self.varied.contains(name) || self.parameters.contains(name))
    }

    // Whether no constant is 2^31 or more.
    fn small_constants(&self) -> bool
        ensures { result ≡ small_constants (seen_found self.now) }
    {
        !self.defined && !(self.enumerates && self.large)
    }

    /// Whether what has the name is small.
    pub fn is_small_name(&self, name: &[u8]) -> bool
        ensures { result ≡ is_small_name (seen_found self.now) name.now }
    {
        if self.wides.contains(name) {
            return false;
        }
        if self.flags.contains(name) {
            return !self.ints.contains(name);
        }
        if self.ints.contains(name) {
            return self.converts(name) || !self.loose.contains(name);
        }
        self.small_constants()
    }

    /// Whether it is a small number, or the name of one.
    pub fn is_small_terminal(&self, terminal: Terminal<'_, '_>) -> bool
        ensures { result ≡ is_small_terminal (seen_found self.now) (seen_terminal terminal.entry) }
    {
        match terminal {
            Terminal::Name(name) => self.is_small_name(name),
            Terminal::Number(number) => is_short(number),
            _ => false,
        }
    }

    /// Which parameters of the function are numbers of the type `int`, if there is such a function.
    pub fn function_of(&self, name: &[u8]) -> Option<&[Taken]>
        ensures { MatchOption result (function_of (seen_found self.now).functions name.now ≡ None)
            (λ s. function_of (seen_found self.now).functions name.now ≡ Some (all_taken s.now)) }
    {
        let mut found = None;
        'functions: for function in &self.functions {
            if function.name == name {
                found = Some(function.takes.as_slice());
            }
        }
        found
    }
}
