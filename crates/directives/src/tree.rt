//! A directive as it is written. Its names are not looked up.

use base::tree::DeviceId;

/// A name, and the column of its first byte.
#[derive(Clone, Copy)]
pub struct Name<'a> {
    pub text: &'a [u8],
    pub column: usize,
}

/// A term of a bound: a number, the name of a loop, or their product.
#[derive(Clone, Copy)]
pub enum Term<'a> {
    Literal(u64),
    Variable(Name<'a>),
    Product(u64, Name<'a>),
}

/// What is done with a term that stands behind others.
#[derive(Clone, Copy)]
pub enum TermSign {
    Added,
    Taken,
}

/// A term with the sign before it: `+` or `-`.
#[derive(Clone, Copy)]
pub struct SignedTerm<'a> {
    pub sign: TermSign,
    pub term: Term<'a>,
}

/// A bound of a section: its first term, and those that are added to it or taken away from it.
#[derive(Drop)]
pub struct Bound<'a> {
    pub first: Term<'a>,
    pub more: Vec<SignedTerm<'a>>,
}

/// An array's section: its first cell and its length. With no bounds it is the whole array.
#[derive(Drop)]
pub struct Section<'a> {
    pub array: Name<'a>,
    pub bounds: Option<(Bound<'a>, Bound<'a>)>,
}

/// The sections of a clause, in the order of the source.
#[derive(Drop)]
pub struct Sections<'a> {
    pub first: Section<'a>,
    pub more: Vec<Section<'a>>,
}

/// What may stand before the type of a map clause.
#[derive(Clone, Copy, PartialEq, Eq)]
pub enum Modifier {
    Always,
    Present,
}

#[derive(Clone, Copy)]
pub enum MapType {
    To,
    From,
    ToFrom,
    Alloc,
    Release,
    Delete,
}

#[derive(Clone, Copy)]
pub enum DependType {
    In,
    Out,
    InOut,
}

/// Which way an update copies: `to` or `from` the device.
#[derive(Clone, Copy)]
pub enum MotionType {
    To,
    From,
}

/// What a clause with a number says how many there are of.
#[derive(Clone, Copy)]
pub enum Amount {
    Collapse,
    NumTeams,
    ThreadLimit,
    NumThreads,
    SimdLen,
    SafeLen,
}

#[derive(Clone, Copy)]
pub enum ScheduleType {
    Static,
    Dynamic,
    Guided,
    Auto,
    Runtime,
}

#[derive(Drop)]
pub struct MapClause<'a> {
    /// In the order of the source.
    pub modifiers: Vec<Modifier>,
    pub map_type: MapType,
    pub sections: Sections<'a>,
}

#[derive(Drop)]
pub struct DependClause<'a> {
    pub depend_type: DependType,
    pub sections: Sections<'a>,
}

#[derive(Drop)]
pub struct MotionClause<'a> {
    pub motion_type: MotionType,
    pub present: bool,
    pub sections: Sections<'a>,
}

/// The device of a clause: its number, or the value of the loop of that name.
#[derive(Clone, Copy)]
pub enum DeviceClause<'a> {
    Fixed(DeviceId),
    Looped(Name<'a>),
}

#[derive(Drop)]
pub enum Clause<'a> {
    Map(MapClause<'a>),
    Depend(DependClause<'a>),
    Motion(MotionClause<'a>),
    NoWait,
    Device(DeviceClause<'a>),
    Amount(Amount, u64),
    /// With the turns of a chunk.
    Schedule(ScheduleType, Option<u64>),
}

/// A construct that is combined with `target`.
#[derive(Clone, Copy, PartialEq, Eq)]
pub enum Construct {
    Simd,
    ParallelFor,
    ParallelForSimd,
    ParallelLoop,
    TeamsDistribute,
    TeamsDistributeSimd,
    TeamsDistributeParallelFor,
    TeamsDistributeParallelForSimd,
    TeamsLoop,
}

#[derive(Clone, Copy, PartialEq, Eq)]
pub enum DirectiveKind {
    Target,
    TargetData,
    TargetEnterData,
    TargetExitData,
    TargetUpdate,
    Combined(Construct),
    TaskWait,
    /// `atomic update`, before a store.
    AtomicUpdate,
}

/// A directive and its clauses, in the order of the source. Which clauses and types its kind takes is part of what
/// `read_directive` ensures.
#[derive(Drop)]
pub struct Directive<'a> {
    pub kind: DirectiveKind,
    pub clauses: Vec<Clause<'a>>,
}
