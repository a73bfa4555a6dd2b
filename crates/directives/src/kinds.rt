//! Which directive takes which clauses.

use crate::tree::{Amount, Construct, DirectiveKind, MapType, ScheduleType};

impl Amount {
    ghost use Rattle.std.specs.Prelude.{◌≡◌};
    ghost use Rattle.c_grammar.specs.LineGrammar as grammar;
    ghost use Rattle.c_grammar.specs.LineRules.{amount_number};
    ghost use Rattle.directives.specs.Kinds.{seen_amount};

    /// The word of its clause.
    pub(crate) fn word(self) -> &'static [u8]
        ensures { result.now ≡ grammar.amount_word (seen_amount self) }
    {
        match self {
            Amount::Collapse => b"collapse".as_slice(),
            Amount::NumTeams => b"num_teams".as_slice(),
            Amount::ThreadLimit => b"thread_limit".as_slice(),
            Amount::NumThreads => b"num_threads".as_slice(),
            Amount::SimdLen => b"simdlen".as_slice(),
            Amount::SafeLen => b"safelen".as_slice(),
        }
    }

    /// A number of its own.
    pub(crate) fn number(self) -> u8
        ensures { result ≡ amount_number (seen_amount self) }
    {
        match self {
            Amount::Collapse => 0,
            Amount::NumTeams => 1,
            Amount::ThreadLimit => 2,
            Amount::NumThreads => 3,
            Amount::SimdLen => 4,
            Amount::SafeLen => 5,
        }
    }
}

impl ScheduleType {
    ghost use Rattle.std.specs.Prelude.{◌≡◌};
    ghost use Rattle.c_grammar.specs.LineGrammar as grammar;
    ghost use Rattle.directives.specs.Kinds.{seen_schedule};

    /// Whether its turns may be taken in chunks.
    pub(crate) fn takes_chunk(self) -> bool
        ensures { result ≡ grammar.takes_chunk (seen_schedule self) }
    {
        match self {
            ScheduleType::Auto | ScheduleType::Runtime => false,
            _ => true,
        }
    }
}

impl Construct {
    ghost use Rattle.std.specs.Prelude.{◌≡◌};
    ghost use Rattle.c_grammar.specs.LineGrammar as grammar;
    ghost use Rattle.directives.specs.Kinds.{seen_amount, seen_construct};

    fn has_teams(self) -> bool
        ensures { result ≡ grammar.has_teams (seen_construct self) }
    {
        match self {
            Construct::Simd
            | Construct::ParallelFor
            | Construct::ParallelForSimd
            | Construct::ParallelLoop => false,
            _ => true,
        }
    }

    fn has_parallel(self) -> bool
        ensures { result ≡ grammar.has_parallel (seen_construct self) }
    {
        match self {
            Construct::Simd
            | Construct::TeamsDistribute
            | Construct::TeamsDistributeSimd
            | Construct::TeamsLoop => false,
            _ => true,
        }
    }

    /// Whether the word `for` is in it.
    fn has_for(self) -> bool
        ensures { result ≡ grammar.has_for (seen_construct self) }
    {
        match self {
            Construct::ParallelFor
            | Construct::ParallelForSimd
            | Construct::TeamsDistributeParallelFor
            | Construct::TeamsDistributeParallelForSimd => true,
            _ => false,
        }
    }

    fn has_simd(self) -> bool
        ensures { result ≡ grammar.has_simd (seen_construct self) }
    {
        match self {
            Construct::Simd
            | Construct::ParallelForSimd
            | Construct::TeamsDistributeSimd
            | Construct::TeamsDistributeParallelForSimd => true,
            _ => false,
        }
    }

    fn has_amount(self, amount: Amount) -> bool
        ensures { result ≡ grammar.has_amount (seen_construct self) (seen_amount amount) }
    {
        match amount {
            Amount::Collapse | Amount::ThreadLimit => true,
            Amount::NumTeams => self.has_teams(),
            Amount::NumThreads => self.has_parallel(),
            Amount::SimdLen | Amount::SafeLen => self.has_simd(),
        }
    }
}

impl DirectiveKind {
    ghost use Rattle.std.specs.Prelude.{◌≡◌};
    ghost use Rattle.c_grammar.specs.LineGrammar as grammar;
    ghost use Rattle.directives.specs.Kinds.{allows, seen_amount, seen_kind, seen_map};

    /// Whether it takes the clause of that amount.
    pub(crate) fn takes_amount(self, amount: Amount) -> bool
        ensures { result ≡ grammar.takes_amount (seen_kind self) (seen_amount amount) }
    {
        match self {
            DirectiveKind::Combined(construct) => construct.has_amount(amount),
            _ => false,
        }
    }

    /// Whether it takes a schedule.
    pub(crate) fn takes_schedule(self) -> bool
        ensures { result ≡ grammar.takes_schedule (seen_kind self) }
    {
        match self {
            DirectiveKind::Combined(construct) => construct.has_for(),
            _ => false,
        }
    }

    /// Whether it takes map clauses.
    pub(crate) fn takes_map(self) -> bool
        ensures { result ≡ grammar.takes_map (seen_kind self) }
    {
        match self {
            DirectiveKind::TargetUpdate | DirectiveKind::TaskWait | DirectiveKind::AtomicUpdate =>
                false,
            _ => true,
        }
    }

    /// Whether it takes `to` and `from` clauses.
    pub(crate) fn takes_motion(self) -> bool
        ensures { result ≡ grammar.takes_motion (seen_kind self) }
    {
        match self {
            DirectiveKind::TargetUpdate => true,
            _ => false,
        }
    }

    /// Whether it takes depend clauses.
    pub(crate) fn takes_depend(self) -> bool
        ensures { result ≡ grammar.takes_depend (seen_kind self) }
    {
        match self {
            DirectiveKind::TargetData | DirectiveKind::AtomicUpdate => false,
            _ => true,
        }
    }

    /// Whether it takes `nowait`.
    pub(crate) fn takes_nowait(self) -> bool
        ensures { result ≡ grammar.takes_nowait (seen_kind self) }
    {
        match self {
            DirectiveKind::TargetData | DirectiveKind::TaskWait | DirectiveKind::AtomicUpdate =>
                false,
            _ => true,
        }
    }

    /// Whether it takes a device clause.
    pub(crate) fn takes_device(self) -> bool
        ensures { result ≡ grammar.takes_device (seen_kind self) }
    {
        match self {
            DirectiveKind::TaskWait | DirectiveKind::AtomicUpdate => false,
            _ => true,
        }
    }

    /// Whether its map clauses may have `present`.
    pub(crate) fn takes_present(self) -> bool
        ensures { result ≡ grammar.takes_present (seen_kind self) }
    {
        match self {
            DirectiveKind::TargetExitData => false,
            _ => true,
        }
    }

    /// Whether its map clauses may have the type.
    pub(crate) fn takes_type(self, map_type: MapType) -> bool
        ensures { result ≡ allows (seen_kind self) (seen_map map_type) }
    {
        match self {
            DirectiveKind::Target | DirectiveKind::TargetData | DirectiveKind::Combined(_) =>
                match map_type {
                    MapType::Release | MapType::Delete => false,
                    _ => true,
                },
            DirectiveKind::TargetEnterData => match map_type {
                MapType::To | MapType::Alloc => true,
                _ => false,
            },
            DirectiveKind::TargetExitData => match map_type {
                MapType::From | MapType::Release | MapType::Delete => true,
                _ => false,
            },
            DirectiveKind::TargetUpdate | DirectiveKind::TaskWait | DirectiveKind::AtomicUpdate =>
                match map_type {
                    MapType::To | MapType::From => true,
                    _ => false,
                },
        }
    }
}
