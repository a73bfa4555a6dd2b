//! What a command line asks for.
ghost use Rattle.std.specs.Prelude.{◌≤◌};

/// What the words ask for.
#[derive(Clone, Copy)]
pub enum Request<'a> {
    Run(Run<'a>),
    Step(Step<'a>),
    /// Whether the program in the file is accepted.
    Check(&'a str),
    /// The items of the program in the file.
    List(&'a str),
    Explain(Explain<'a>),
    /// The source in the file with directives that are accepted.
    Fix(&'a str),
    /// A run of the program in the file that prints something else than without directives.
    Witness(&'a str),
    /// A page of the program in the file.
    View(&'a str),
}

/// In which form a report is printed.
#[derive(Clone, Copy, Debug, PartialEq, Eq)]
pub enum Format {
    Text,
    Json,
    Sarif,
    /// A graph in the language DOT.
    Dot,
}

/// When a report has colours.
#[derive(Clone, Copy, Debug, PartialEq, Eq)]
pub enum Color {
    /// Where it is printed in a terminal.
    Auto,
    Always,
    Never,
}

/// Why a program is refused.
#[derive(Clone, Copy)]
pub struct Explain<'a> {
    pub file: &'a str,
    /// None where the words name a form that there is not.
    pub format: Option<Format>,
    /// None where the words name no such time.
    pub color: Option<Color>,
}

/// How many worker threads there are.
#[derive(Clone, Copy)]
pub struct Workers {
    pub count: usize,
    ghost some: { 1 ≤ count },
    ghost few: { count ≤ 16 },
}

/// A run by worker threads.
#[derive(Clone, Copy)]
pub struct Run<'a> {
    pub file: &'a str,
    pub workers: Workers,
    pub capacity: u64,
    /// Whether the log, what the directives did on the tables of the devices, and the values of arrays are printed.
    pub log: bool,
    pub maps: bool,
    pub finals: bool,
}

/// A run event by event.
#[derive(Clone, Copy)]
pub struct Step<'a> {
    pub file: &'a str,
    pub choices: &'a str,
    /// Choices behind these, in runs of equal ones.
    pub choice_runs: &'a str,
    pub capacity: u64,
    /// Whether each load, store, copied cell and action on a table is an event, and programs that are not accepted run too.
    pub fine: bool,
    /// In which order the turns of a loop go whose turns may run in any order, where each load and store is an event.
    pub turns: &'a str,
    /// Whether what the directives did on the tables of the devices is printed.
    pub maps: bool,
}
