// Why a program is refused, and why a run stops.

ghost use Rattle.std.specs.Prelude.{◌≡◌};
ghost use Rattle.base.specs.Codes.{range_code, read_code, refusal_code};

use crate::item::Cell;
use std::fmt::{self, Display, Formatter};
use thiserror::Error;

/// The rules of the language that a text can break, in the order in which they are answered at one token.
#[derive(Clone, Copy, Debug)]
pub enum ReadCode {
    /// A byte that begins no token, or a comment without end.
    UnknownByte,
    /// A token that the grammar does not allow there.
    Unexpected,
    /// A name that is not declared, or not of the kind that its place needs.
    Undeclared,
    /// A declared name that is visible already.
    AlreadyDeclared,
    /// A number above 2^64 - 1, or with a superfluous leading zero.
    BadNumber,
    /// An array length outside 1 to 65,536.
    BadLength,
    LoopNameAssigned,
    /// A divisor or shift count that is no literal or out of range; a step of 0; a loop that would wrap.
    BadOperand,
    /// Too many open brackets.
    TooDeep,
    /// Another limit.
    TooMany,
    UnknownDirective,
    /// A clause that the directive does not take, or no clause.
    UnknownClause,
    /// A clause that is missing, or stands twice.
    ClauseCount,
    BadMapType,
    /// A token that does not fit in the bounds of a section.
    BadBound,
    /// An array twice in one directive.
    ArrayTwice,
    DirectiveInTarget,
    /// Inside a target, an assignment to a scalar declared outside it.
    OuterAssigned,
    /// `print` or `read` inside a target.
    HostOnly,
    /// A directive that needs a block or loop, and none follows.
    NoBody,
    DirectiveUnderIf,
    /// A device that is no literal from 0 to 3.
    BadDevice,
}

impl ReadCode {
    /// The code as it is printed.
    pub fn as_str(self) -> &'static str
        ensures { result.now ≡ read_code self }
    {
        match self {
            ReadCode::UnknownByte => "E101",
            ReadCode::Unexpected => "E102",
            ReadCode::Undeclared => "E103",
            ReadCode::AlreadyDeclared => "E104",
            ReadCode::BadNumber => "E105",
            ReadCode::BadLength => "E106",
            ReadCode::LoopNameAssigned => "E107",
            ReadCode::BadOperand => "E108",
            ReadCode::TooDeep => "E109",
            ReadCode::TooMany => "E110",
            ReadCode::UnknownDirective => "E201",
            ReadCode::UnknownClause => "E202",
            ReadCode::ClauseCount => "E203",
            ReadCode::BadMapType => "E204",
            ReadCode::BadBound => "E205",
            ReadCode::ArrayTwice => "E206",
            ReadCode::DirectiveInTarget => "E207",
            ReadCode::OuterAssigned => "E208",
            ReadCode::HostOnly => "E209",
            ReadCode::NoBody => "E210",
            ReadCode::DirectiveUnderIf => "E211",
            ReadCode::BadDevice => "E212",
        }
    }
}

impl Display for ReadCode {
    fn fmt<W: fmt::Write>(&self, f: &mut Formatter<W>) -> fmt::Result {
        f.write_str(self.as_str())
    }
}

/// A rule that a text breaks, and where. Lines and columns (in bytes) count from 1.
#[derive(Clone, Copy, Debug, Error)]
#[error("{code} line {line} column {column}")]
pub struct TextFault {
    pub code: ReadCode,
    pub line: usize,
    pub column: usize,
}

/// Why a text was not read.
#[derive(Clone, Copy, Debug, Error)]
pub enum ReadFault {
    #[error(transparent)]
    Text(TextFault),
    #[error("F1")]
    OutOfMemory,
}

/// Why a program was not turned into items.
#[derive(Clone, Copy, Debug, Error)]
pub enum OutlineFault {
    /// More items than the limit.
    #[error("E401")]
    TooManyItems,
    #[error("F1")]
    OutOfMemory,
}

/// What is known of a number: it is from `lo` to `hi`.
#[derive(Clone, Copy)]
pub struct Interval {
    pub lo: u64,
    pub hi: u64,
}

/// The faults of range, in the order in which they are looked for.
#[derive(Clone, Copy, Debug)]
pub enum RangeCode {
    /// A section is empty or leaves its array.
    SectionOutside,
    /// A region has more turns than the limit.
    TooManyTurns,
    /// A subscript can leave its array.
    SubscriptOutside,
}

impl RangeCode {
    /// The code as it is printed.
    pub fn as_str(self) -> &'static str
        ensures { result.now ≡ range_code self }
    {
        match self {
            RangeCode::SectionOutside => "E302",
            RangeCode::TooManyTurns => "E303",
            RangeCode::SubscriptOutside => "E301",
        }
    }
}

impl Display for RangeCode {
    fn fmt<W: fmt::Write>(&self, f: &mut Formatter<W>) -> fmt::Result {
        f.write_str(self.as_str())
    }
}

#[derive(Clone, Copy, Debug, Error)]
#[error("{code} line {line} column {column}")]
pub struct RangeFault {
    pub code: RangeCode,
    pub line: usize,
    pub column: usize,
}

/// Two depend items of different items overlap without being identical.
#[derive(Clone, Copy, Debug, Error)]
#[error("E505")]
pub struct OrderFault {
    pub item: u32,
    pub cell: Cell,
    pub other: u32,
}

/// Why an item is refused, in the order in which it is looked for.
#[derive(Clone, Copy, Debug)]
pub enum RefusalCode {
    /// A mapped or updated section overlaps a present block without lying inside it.
    OverlapsInPart,
    ExitOfAbsent,
    UpdateOfAbsent,
    /// An entry or update with `present` of a section that has no cell present.
    NotPresent,
    /// A kernel reads or writes a cell in none of its target's map items.
    Unmapped,
    /// A host item has an exposed read of a cell that is not current on the host.
    HostNotCurrent,
    /// A kernel has an exposed read of a cell that is not current on its device.
    DeviceNotCurrent,
    /// Two turns of a kernel that may run in any order meet on a cell: one writes it, and the other reads or writes it.
    TurnsMeet,
    /// Two items conflict, and neither is before the other.
    Conflict,
}

impl RefusalCode {
    /// The code as it is printed.
    pub fn as_str(self) -> &'static str
        ensures { result.now ≡ refusal_code self }
    {
        match self {
            RefusalCode::OverlapsInPart => "E501",
            RefusalCode::ExitOfAbsent => "E502",
            RefusalCode::UpdateOfAbsent => "E503",
            RefusalCode::NotPresent => "E509",
            RefusalCode::Unmapped => "E504",
            RefusalCode::HostNotCurrent => "E506",
            RefusalCode::DeviceNotCurrent => "E507",
            RefusalCode::TurnsMeet => "E510",
            RefusalCode::Conflict => "E508",
        }
    }
}

impl Display for RefusalCode {
    fn fmt<W: fmt::Write>(&self, f: &mut Formatter<W>) -> fmt::Result {
        f.write_str(self.as_str())
    }
}

#[derive(Clone, Copy, Debug, Error)]
#[error("{code}")]
pub struct Refusal {
    pub code: RefusalCode,
    pub item: u32,
    pub cell: Cell,
    pub other: Option<u32>,
}

/// Why a program is not accepted. `Display` names the code, and the place where the program's names are not needed for it.
#[derive(Clone, Copy, Debug, Error)]
pub enum CheckFault {
    #[error("{} item {item} line {} column {}", .fault.code, .fault.line, .fault.column)]
    Range { item: u32, fault: RangeFault },
    #[error(transparent)]
    Order(OrderFault),
    #[error(transparent)]
    Refused(Refusal),
    #[error("F1")]
    OutOfMemory,
}

/// Why a run stops before its end.
#[derive(Clone, Copy, PartialEq, Eq, Debug, Error)]
pub enum RunFault {
    #[error("F1")]
    OutOfMemory,
    /// An entry would create more cells than the device has left.
    #[error("F2")]
    DeviceFull,
    /// What was computed is not what was asked for.
    #[error("F3")]
    Stranger,
    /// A cell without device storage, a section that overlaps a block in part, or one that is to be present and is not.
    #[error("F4")]
    Absent,
    #[error("F5")]
    ThreadNotStarted,
    #[error("F6")]
    OtherState,
    /// The program has a fault of range, and nothing was run.
    #[error("F7")]
    RangeRefused,
}

/// Why a source has no answer: the first of the passes that fails.
#[derive(Clone, Copy, Debug, Error)]
pub enum SourceFault {
    #[error(transparent)]
    Read(ReadFault),
    #[error(transparent)]
    Outline(OutlineFault),
    #[error(transparent)]
    Check(CheckFault),
    #[error(transparent)]
    Run(RunFault),
}
