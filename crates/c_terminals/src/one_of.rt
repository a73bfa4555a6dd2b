//! Whether a name is one of others.

ghost use Rattle.std.specs.Prelude.{◌≡◌, map};
ghost use Rattle.c_grammar.specs.Constants.{is_among};

/// Whether it is one of the names.
pub fn is_among(names: &[&[u8]], name: &[u8]) -> bool
    ensures { result ≡ is_among (map (λ x. x.now) names.now) name.now }
{
    'names: for own in names {
        if *own == name {
            return true;
        }
    }
    false
}
