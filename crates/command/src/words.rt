//! The words of a command line.

ghost use Rattle.std.specs.Prelude.{◌≡◌, ◌≤◌, ℕ, [], ◌∷◌, ◌++◌, IfOk, IfSome, codes, map};
ghost use Rattle.clap.specs.Simple.{App, Shape, with_subcommand};
ghost use Rattle.clap.specs.Walk.{Rule};
ghost use Rattle.clap.specs.Words.{FailsBy, fault_of, found_of, one_of, rows_of, subcommand_of, subcommand_rows_of};
ghost use Rattle.command.specs.CommandLine.{AreWorkers, AskedBy, Asks, IsArg, IsCommand, IsExplain, IsNamed, IsNumber, IsProgram, IsReadAs, IsRun, IsStep, capacity, check, color_in, color_named, command, explain, file, fix, flag, format_in, format_named, list, ompc, run, step, text_in, text_option, view, witness, workers};

use crate::request::{Color, Explain, Format, Request, Run, Step, Workers};
use clap::{Arg, ArgAction, ArgMatches, Command, Error, value_parser};
use std::alloc::{AllocError, Global};

/// The version of the program, and behind it the logic of the kit that proves it, by its checksum.
const VERSION: &str = "0.1.0 (logic dac8208d650f15bf)";

/// The device's capacity in cells, where none is given.
const DEFAULT_CAPACITY: u64 = 4_194_304;

/// The largest capacity in cells.
const MAX_CAPACITY: i64 = 4_294_967_296;

/// How many worker threads there are, where none is given.
const DEFAULT_WORKERS: u64 = 4;

/// The most worker threads.
const MAX_WORKERS: u64 = 16;

fn file_arg<'a>(alloc: Global) -> Arg<'a>
    ensures { IsArg file result }
{
    Arg::new(alloc, "FILE").required(true).help("the source")
}

fn capacity_arg<'a>(alloc: Global) -> Arg<'a>
    ensures { IsArg capacity result }
{
    Arg::new(alloc, "capacity")
        .long("capacity")
        .value_name("C")
        .value_parser(value_parser!(u64).range(0..=MAX_CAPACITY))
        .help("the device's capacity in cells, up to 4294967296; 4194304 where it is not given")
}

fn workers_arg<'a>(alloc: Global) -> Arg<'a>
    ensures { IsArg workers result }
{
    Arg::new(alloc, "workers")
        .long("workers")
        .value_name("N")
        .value_parser(value_parser!(u64).range(1..=MAX_WORKERS as i64))
        .help(
            "how many worker threads run targets and deferred items, up to 16; 4 where it is not given",
        )
}

fn log_arg<'a>(alloc: Global) -> Arg<'a>
    ensures { IsArg (flag (codes "log")) result }
{
    Arg::new(alloc, "log")
        .long("log")
        .action(ArgAction::SetTrue)
        .help("prints the events too")
}

fn maps_arg<'a>(alloc: Global) -> Arg<'a>
    ensures { IsArg (flag (codes "maps")) result }
{
    Arg::new(alloc, "maps")
        .long("maps")
        .action(ArgAction::SetTrue)
        .help(
            "prints each creation, copy, removal and count of blocks on the devices too; not with --fine",
        )
}

fn finals_arg<'a>(alloc: Global) -> Arg<'a>
    ensures { IsArg (flag (codes "finals")) result }
{
    Arg::new(alloc, "finals")
        .long("finals")
        .action(ArgAction::SetTrue)
        .help("prints the arrays that are current at the end too")
}

fn choices_arg<'a>(alloc: Global) -> Arg<'a>
    ensures { IsArg (text_option (codes "choices")) result }
{
    Arg::new(alloc, "choices")
        .long("choices")
        .value_name("LIST")
        .help(
            "which of the enabled events is next, at each step: numbers separated by commas, 0 past the last",
        )
}

fn choice_runs_arg<'a>(alloc: Global) -> Arg<'a>
    ensures { IsArg (text_option (codes "choice-runs")) result }
{
    Arg::new(alloc, "choice-runs")
        .long("choice-runs")
        .value_name("LIST")
        .help(
            "choices behind these: numbers separated by commas, with `*` and how often it is meant behind a number",
        )
}

fn turns_arg<'a>(alloc: Global) -> Arg<'a>
    ensures { IsArg (text_option (codes "turns")) result }
{
    Arg::new(alloc, "turns")
        .long("turns")
        .value_name("LIST")
        .help(
            "with --fine: which of an unordered loop's turns acts next, at each action of its kernel, in order past the last",
        )
}

fn fine_arg<'a>(alloc: Global) -> Arg<'a>
    ensures { IsArg (flag (codes "fine")) result }
{
    Arg::new(alloc, "fine")
        .long("fine")
        .action(ArgAction::SetTrue)
        .help(
            "each load, store, copied cell and action on a table is an event; runs what check refuses too",
        )
}

fn format_arg<'a>(alloc: Global) -> Arg<'a>
    ensures { IsArg (text_option (codes "format")) result }
{
    Arg::new(alloc, "format")
        .long("format")
        .value_name("F")
        .help("text, json, sarif or dot; text where it is not given")
}

fn color_arg<'a>(alloc: Global) -> Arg<'a>
    ensures { IsArg (text_option (codes "color")) result }
{
    Arg::new(alloc, "color")
        .long("color")
        .value_name("WHEN")
        .help(
            "whether text has colours: auto, always or never; auto, where it is not given: in a terminal, without NO_COLOR",
        )
}

/// A command that takes the source.
fn file_command<'a>(
    alloc: Global,
    name: &'a str,
    about: &'static str,
) -> Result<Command<'a>, AllocError>
    ensures { IfOk result (IsCommand (command name.entry.now (file ∷ []))) }
{
    Command::new(alloc, name).about(about).arg(file_arg(alloc))
}

/// The command with one more argument. (That none could be made is told here, once for all arguments.)
fn with_arg<'a>(
    command: Result<Command<'a>, AllocError>,
    arg: Arg<'a>,
) -> Result<Command<'a>, AllocError>
    ensures { (shape : Shape) (rule : Rule) → IfOk command.entry (IsCommand shape) → IsArg rule arg.entry
        → IfOk result (IsCommand (record shape { rules = shape.rules ++ rule ∷ [] })) }
{
    command?.arg(arg)
}

fn run_command<'a>(alloc: Global) -> Result<Command<'a>, AllocError>
    ensures { IfOk result (IsCommand run) }
{
    let about =
        "runs a program on what standard input holds, by worker threads, and prints its output";
    let command = file_command(alloc, "run", about);
    let command = with_arg(command, workers_arg(alloc));
    let command = with_arg(command, capacity_arg(alloc));
    let command = with_arg(command, log_arg(alloc));
    let command = with_arg(command, maps_arg(alloc));
    with_arg(command, finals_arg(alloc))
}

fn step_command<'a>(alloc: Global) -> Result<Command<'a>, AllocError>
    ensures { IfOk result (IsCommand step) }
{
    let about = "runs a program likewise, but event by event, and prints its output and its log";
    let command = file_command(alloc, "step", about);
    let command = with_arg(command, choices_arg(alloc));
    let command = with_arg(command, capacity_arg(alloc));
    let command = with_arg(command, fine_arg(alloc));
    let command = with_arg(command, turns_arg(alloc));
    let command = with_arg(command, maps_arg(alloc));
    with_arg(command, choice_runs_arg(alloc))
}

fn check_command<'a>(alloc: Global) -> Result<Command<'a>, AllocError>
    ensures { IfOk result (IsCommand check) }
{
    let about = "says whether a program is accepted, and which arrays are current at its end";
    file_command(alloc, "check", about)
}

fn list_command<'a>(alloc: Global) -> Result<Command<'a>, AllocError>
    ensures { IfOk result (IsCommand list) }
{
    file_command(
        alloc,
        "list",
        "prints the items of an accepted program, a line each",
    )
}

fn explain_command<'a>(alloc: Global) -> Result<Command<'a>, AllocError>
    ensures { IfOk result (IsCommand explain) }
{
    let about = "says why a program is refused: the places in the source, and what happens there";
    let command = with_arg(file_command(alloc, "explain", about), format_arg(alloc));
    with_arg(command, color_arg(alloc))
}

fn fix_command<'a>(alloc: Global) -> Result<Command<'a>, AllocError>
    ensures { IfOk result (IsCommand fix) }
{
    let about =
        "prints the source with its directives changed so that it is accepted, in at most 12 steps and 128 checks";
    file_command(alloc, "fix", about)
}

fn witness_command<'a>(alloc: Global) -> Result<Command<'a>, AllocError>
    ensures { IfOk result (IsCommand witness) }
{
    let about =
        "looks for choices by which a refused program prints something else than without directives, in at most 512 runs";
    file_command(alloc, "witness", about)
}

fn view_command<'a>(alloc: Global) -> Result<Command<'a>, AllocError>
    ensures { IfOk result (IsCommand view) }
{
    let about =
        "prints a page of HTML: the source, and where the arrays are current behind each item";
    file_command(alloc, "view", about)
}

/// What the words are read by, with one more command.
fn with_command<'a>(
    program: Result<Command<'a>, AllocError>,
    command: Result<Command<'a>, AllocError>,
) -> Result<Command<'a>, AllocError>
    ensures { (app : App) (shape : Shape) → IfOk program.entry (IsReadAs app) → IfOk command.entry (IsCommand shape)
        → IfOk result (IsReadAs (with_subcommand app shape)) }
{
    program?.subcommand(command?)
}

fn program<'a>(alloc: Global) -> Result<Command<'a>, AllocError>
    ensures { IfOk result IsProgram }
{
    let program = Command::new(alloc, "ompc")
        .about("checks and runs C programs with OpenMP target directives")
        .version(VERSION)
        .subcommand_required(true)
        .arg_required_else_help(true)
        .no_binary_name(true)
        .bin_name("ompc");
    let program = with_command(program, check_command(alloc));
    let program = with_command(program, explain_command(alloc));
    let program = with_command(program, fix_command(alloc));
    let program = with_command(program, witness_command(alloc));
    let program = with_command(program, view_command(alloc));
    let program = with_command(program, list_command(alloc));
    let program = with_command(program, run_command(alloc));
    with_command(program, step_command(alloc))
}

/// The text of an argument, or none of its bytes where it is not given.
fn text_of<'a>(step: &ArgMatches<'a>, id: &str) -> &'a str
    ensures { result.now ≡ text_in id.now (rows_of (found_of step.now)) }
{
    match step.get_str(id) {
        Some(text) => text,
        None => "",
    }
}

/// The number of an option, or `default` where it is not given.
fn number_of(given: &ArgMatches<'_>, id: &str, default: u64) -> u64
    ensures { (least most : ℕ) → IsNumber least most default (one_of id.now (rows_of (found_of given.now))) result }
{
    given.get_one(id).unwrap_or(default)
}

/// So many workers; the parser of words has refused each count out of range.
fn workers_from(count: u64) -> Workers
    ensures { 1 ≤ count → count ≤ 16 → result.count ≡ count }
{
    if 1 <= count && count <= MAX_WORKERS {
        Workers {
            count: count as usize,
        }
    } else {
        Workers {
            count: DEFAULT_WORKERS as usize,
        }
    }
}

fn workers_of(given: &ArgMatches<'_>) -> Workers
    ensures { AreWorkers (rows_of (found_of given.now)) result.count }
{
    workers_from(number_of(given, "workers", DEFAULT_WORKERS))
}

fn run_of<'a>(given: &ArgMatches<'a>) -> Run<'a>
    ensures { IsRun (rows_of (found_of given.now)) result }
{
    Run {
        file: text_of(given, "FILE"),
        workers: workers_of(given),
        capacity: number_of(given, "capacity", DEFAULT_CAPACITY),
        log: given.get_flag("log"),
        maps: given.get_flag("maps"),
        finals: given.get_flag("finals"),
    }
}

fn step_of<'a>(given: &ArgMatches<'a>) -> Step<'a>
    ensures { IsStep (rows_of (found_of given.now)) result }
{
    Step {
        file: text_of(given, "FILE"),
        choices: text_of(given, "choices"),
        capacity: number_of(given, "capacity", DEFAULT_CAPACITY),
        fine: given.get_flag("fine"),
        turns: text_of(given, "turns"),
        choice_runs: text_of(given, "choice-runs"),
        maps: given.get_flag("maps"),
    }
}

/// The form of that name.
fn format_named(name: &str) -> Option<Format>
    ensures { result ≡ format_named name.now }
{
    match name {
        "text" => Some(Format::Text),
        "json" => Some(Format::Json),
        "sarif" => Some(Format::Sarif),
        "dot" => Some(Format::Dot),
        _ => None,
    }
}

fn format_of(given: &ArgMatches<'_>) -> Option<Format>
    ensures { result ≡ format_in (rows_of (found_of given.now)) }
{
    match given.get_str("format") {
        Some(name) => format_named(name),
        None => Some(Format::Text),
    }
}

/// The time of that name.
fn color_named(name: &str) -> Option<Color>
    ensures { result ≡ color_named name.now }
{
    match name {
        "auto" => Some(Color::Auto),
        "always" => Some(Color::Always),
        "never" => Some(Color::Never),
        _ => None,
    }
}

fn color_of(given: &ArgMatches<'_>) -> Option<Color>
    ensures { result ≡ color_in (rows_of (found_of given.now)) }
{
    match given.get_str("color") {
        Some(name) => color_named(name),
        None => Some(Color::Auto),
    }
}

fn explain_of<'a>(given: &ArgMatches<'a>) -> Explain<'a>
    ensures { IsExplain (rows_of (found_of given.now)) result }
{
    Explain {
        file: text_of(given, "FILE"),
        format: format_of(given),
        color: color_of(given),
    }
}

fn request_of<'a>(given: &ArgMatches<'a>) -> Request<'a>
    requires { IsNamed (subcommand_rows_of given.now) }
    ensures { IfSome (subcommand_rows_of given.now) (λ p. Asks p.0 p.1 result) }
{
    match given.subcommand() {
        Some(("check", given)) => Request::Check(text_of(given, "FILE")),
        Some(("explain", given)) => Request::Explain(explain_of(given)),
        Some(("fix", given)) => Request::Fix(text_of(given, "FILE")),
        Some(("witness", given)) => Request::Witness(text_of(given, "FILE")),
        Some(("view", given)) => Request::View(text_of(given, "FILE")),
        Some(("list", given)) => Request::List(text_of(given, "FILE")),
        Some(("run", given)) => Request::Run(run_of(given)),
        Some(("step", given)) => Request::Step(step_of(given)),
        _ => unreachable!(),
    }
}

/// Reads the words, without the program's name.
pub fn parse<'a>(alloc: Global, words: &'a [&'a str]) -> Result<Request<'a>, Error>
    ensures asks { IfOk result (AskedBy (map (λ w. w.now) words.now)) }
    ensures fails { FailsBy (fault_of ompc (map (λ w. w.now) words.now)) result }
{
    let program = program(alloc)?;
    let given = program.try_get_matches_from(words)?;
    Ok(request_of(&given))
}
