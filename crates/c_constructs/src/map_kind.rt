//! The types of map clauses, by the directives that take them.

ghost use Rattle.std.specs.Prelude.{◌≡◌, List};
ghost use Rattle.c_grammar.specs.LineGrammar.{MapType as Kind, Target, Enter, Exit, map_types};
ghost use Rattle.c_grammar.specs.LineRules.{IsAmong};
ghost use Rattle.directives.specs.Kinds.{seen_map};
ghost use Rattle.c_constructs.specs.Written.{seen_region, seen_enter, seen_exit};

use base::tree::{EnterKind, ExitKind, RegionKind};
use directives::MapType;

/// The types that the map clauses of a directive may have.
pub trait MapKind: Copy + Default + Drop {
    ghost seen: { Self → Kind };

    ghost types: { List Kind };

    fn of(map_type: MapType) -> Self
        requires { IsAmong (seen_map map_type) types }
        ensures { seen result ≡ seen_map map_type };
}

impl MapKind for RegionKind {
    ghost seen = { seen_region };

    ghost types = { map_types Target };

    fn of(map_type: MapType) -> RegionKind {
        match map_type {
            MapType::To => RegionKind::To,
            MapType::From => RegionKind::From,
            MapType::ToFrom => RegionKind::ToFrom,
            MapType::Alloc => RegionKind::Alloc,
            _ => unreachable!(),
        }
    }
}

impl MapKind for EnterKind {
    ghost seen = { seen_enter };

    ghost types = { map_types Enter };

    fn of(map_type: MapType) -> EnterKind {
        match map_type {
            MapType::To => EnterKind::To,
            MapType::Alloc => EnterKind::Alloc,
            _ => unreachable!(),
        }
    }
}

impl MapKind for ExitKind {
    ghost seen = { seen_exit };

    ghost types = { map_types Exit };

    fn of(map_type: MapType) -> ExitKind {
        match map_type {
            MapType::From => ExitKind::From,
            MapType::Release => ExitKind::Release,
            MapType::Delete => ExitKind::Delete,
            _ => unreachable!(),
        }
    }
}
