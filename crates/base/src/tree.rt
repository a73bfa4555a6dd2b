// A program as it is read. Names are resolved: an array and a scalar by its number in order of declaration,
// the name of a loop by how many loops stand around that loop.

ghost use Rattle.std.specs.Prelude.{◌≡◌, ◌+◌, ◌<◌, ◌≤◌, ◌^◌};

use indexmap::IndexMap;
use smallvec::SmallVec;

/// A place in the source text. Both count from 1.
#[derive(Clone, Copy, Default)]
pub struct Place {
    pub line: usize,
    pub column: usize,
}

/// An array, by its number in order of declaration.
#[derive(Clone, Copy, PartialEq, Eq, PartialOrd, Ord, Debug, Default)]
pub struct ArrayId(pub u32);

/// A global or local scalar, by its number in order of declaration.
#[derive(Clone, Copy)]
pub struct ScalarId(pub u8);

/// An operator on one operand.
#[derive(Clone, Copy, Debug)]
pub enum UnaryOp {
    Not,
    Complement,
}

/// An operator on two operands that are both evaluated.
#[derive(Clone, Copy, Debug)]
pub enum BinaryOp {
    BitOr,
    BitXor,
    BitAnd,
    Equal,
    NotEqual,
    Less,
    LessOrEqual,
    Greater,
    GreaterOrEqual,
    Add,
    Subtract,
    Multiply,
}

#[derive(Clone, Copy, Debug)]
pub enum ShiftOp {
    Left,
    Right,
}

#[derive(Clone, Copy, Debug)]
pub enum DivideOp {
    Quotient,
    Remainder,
}

/// The operator of a commuting update. Each is associative and commutative on numbers modulo 2^64.
#[derive(Clone, Copy, Debug)]
pub enum CombineOp {
    Add,
    Multiply,
    BitAnd,
    BitOr,
    BitXor,
    Min,
    Max,
}

/// The literal that a number is shifted by.
#[derive(Clone, Copy)]
pub struct ShiftCount {
    pub count: u8,
    ghost in_range: { count < 64 },
}

/// The literal that a number is divided by.
#[derive(Clone, Copy)]
pub struct Divisor {
    pub value: u64,
    ghost not_zero: { 1 ≤ value },
}

/// An expression.
#[derive(Drop)]
pub enum Expr {
    Number(u64),
    Scalar(ScalarId),
    LoopName(u32),
    Cell(ArrayId, Place, Box<Expr>),
    Unary(UnaryOp, Box<Expr>),
    Binary(BinaryOp, Box<Expr>, Box<Expr>),
    And(Box<Expr>, Box<Expr>),
    Or(Box<Expr>, Box<Expr>),
    Shift(ShiftOp, Box<Expr>, ShiftCount),
    Divide(DivideOp, Box<Expr>, Divisor),
}

/// What is assigned.
#[derive(Drop)]
pub enum Source {
    Value(Expr),
    Read,
}

/// The literals of a loop: `for (uint64_t i = first; i < end; i += step)`.
#[derive(Clone, Copy)]
pub struct Bounds {
    pub first: u64,
    pub end: u64,
    pub step: u64,
    ghost step_not_zero: { 1 ≤ step },
    ghost no_wrap: { end + step ≤ 2 ^ 64 },
}

/// A statement that contains no directive.
#[derive(Drop)]
pub enum Stmt {
    Declare(ScalarId, Source),
    Assign(ScalarId, Source),
    Store(ArrayId, Place, Expr, Source),
    /// A commuting update: `A[e] op= v`, by a subscript and a value, of a cell that other turns may update by the same
    /// operator.
    Combine(CombineOp, ArrayId, Place, Expr, Expr),
    Print(Expr),
    Block(Vec<Stmt>),
    Loop(Bounds, Vec<Stmt>),
    If(Expr, Vec<Stmt>, Vec<Stmt>),
}

/// Statements that run as one: a run of them on the host, or the block or loop of a `target`.
#[derive(Drop)]
pub struct Region {
    pub place: Place,
    pub body: Vec<Stmt>,
    /// How many of its outermost loops have turns that may run in any order: none on the host, and none of a `target`
    /// with no words behind it.
    pub depth: u8,
}

/// A term of a bound: a literal, or a loop's name with its factor.
#[derive(Clone, Copy)]
pub enum Term {
    Literal(u64),
    Times(u64, u32),
}

impl Default for Term {
    fn default() -> Term {
        Term::Literal(0)
    }
}

/// A bound of a section: the sum of its terms, less the sum of those that are taken away from it.
#[derive(Drop)]
pub struct Bound {
    pub terms: SmallVec<Term, 2>,
    pub less: SmallVec<Term, 2>,
}

/// A section as it is written. With no bounds it is the whole array.
#[derive(Drop, Default)]
pub struct SectionText {
    pub array: ArrayId,
    pub bounds: Option<(Bound, Bound)>,
    pub place: Place,
}

/// The types of a map clause, by what takes them.
#[derive(Clone, Copy, Debug, Default)]
pub enum RegionKind {
    #[default]
    To,
    From,
    ToFrom,
    Alloc,
}

#[derive(Clone, Copy, Debug, Default)]
pub enum EnterKind {
    #[default]
    To,
    Alloc,
}

#[derive(Clone, Copy, Debug, Default)]
pub enum ExitKind {
    #[default]
    From,
    Release,
    Delete,
}

#[derive(Clone, Copy, Debug, Default)]
pub enum UpdateKind {
    #[default]
    To,
    From,
}

#[derive(Clone, Copy, Debug, Default)]
pub enum DependKind {
    #[default]
    In,
    Out,
    InOut,
}

/// The device on which a directive works.
#[derive(Clone, Copy)]
pub struct DeviceId {
    pub number: u8,
    ghost in_range: { number < 4 },
}

impl Default for DeviceId {
    fn default() -> DeviceId
        ensures { result.number ≡ 0 }
    {
        DeviceId { number: 0 }
    }
}

/// The device of a directive as it is written.
#[derive(Clone, Copy)]
pub enum DeviceText {
    Fixed(DeviceId),
    /// The value of a loop around, by how many loops stand around that one.
    LoopName(u32),
}

/// A map item as it is written.
#[derive(Drop, Default)]
pub struct MapText<K> {
    pub kind: K,
    pub always: bool,
    pub present: bool,
    pub section: SectionText,
}

#[derive(Drop, Default)]
pub struct UpdateText {
    pub kind: UpdateKind,
    pub present: bool,
    pub section: SectionText,
}

#[derive(Drop, Default)]
pub struct DependText {
    pub kind: DependKind,
    pub section: SectionText,
}

/// What the directives that may be deferred have in common.
#[derive(Drop)]
pub struct Tasking {
    pub nowait: bool,
    pub depends: SmallVec<DependText, 2>,
    pub device: DeviceText,
}

/// A `target`: the place of its `#`, and its clauses.
#[derive(Drop)]
pub struct Target {
    pub place: Place,
    pub maps: SmallVec<MapText<RegionKind>, 2>,
    pub tasking: Tasking,
}

/// A `target data`: the place of its `#`, and its clauses.
#[derive(Drop)]
pub struct Data {
    pub place: Place,
    pub maps: SmallVec<MapText<RegionKind>, 2>,
    pub device: DeviceText,
}

/// A directive that stands alone.
#[derive(Drop)]
pub enum Directive {
    Enter(SmallVec<MapText<EnterKind>, 2>, Tasking),
    Exit(SmallVec<MapText<ExitKind>, 2>, Tasking),
    Update(SmallVec<UpdateText, 2>, Tasking),
    Wait(SmallVec<DependText, 2>),
}

/// A part of `main`.
#[derive(Drop)]
pub enum Part {
    Host(Region),
    Block(Vec<Part>),
    Loop(Bounds, Vec<Part>),
    Target(Target, Region),
    Data(Data, Vec<Part>),
    /// With the place of its `#`.
    Alone(Place, Directive),
}

/// An array, by its number of cells.
#[derive(Drop)]
pub struct ArrayInfo {
    pub length: u32,
    ghost few: { length ≤ 65536 },
}

/// A program. Each part's regions are the longest that its block has.
#[derive(Drop)]
pub struct Program {
    pub arrays: IndexMap<String, ArrayInfo>,
    /// How many scalars are declared. Each number below is that of one.
    pub scalars: u32,
    pub body: Vec<Part>,
}
