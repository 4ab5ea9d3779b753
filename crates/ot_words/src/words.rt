//! The program's words as a request.

ghost use Rattle.std.specs.Prelude.{◌≡◌, codes, Some, IfOk, IfErr, IsSome, map, true, option_and_then, option_map, vec_items};
ghost use Rattle.std.specs.Str.{chars};
ghost use Rattle.clap.specs.Words.{app_of, found_of, kind_of, rows_of, subcommand_rows_of, takes, with_rule};
ghost use Rattle.ot_words.specs.Requests.{◌+>◌, IsPlain, chars_among, check_among, check_app, conform_among, conform_app, conform_request, explain_among, explain_app, flag_among, flag_rule, flagged_app, form_among, generate_among, generate_app, number_among, number_if_among, option_rule, otbench_app, plain_app, random_app, request_in_rows, request_of, run_among, run_app, session_among, sessions_among, subject_of, top_app};

use crate::every::{every_in, has_every, has_random, misplaced_option, refused_every, with_every};
use crate::help;
use clap::error::ErrorKind;
use clap::{Arg, ArgAction, ArgMatches, Command, Error};
use ot_asm::read_number;
use ot_every::{Part, Space};
use ot_generate::Shape;
use std::alloc::{AllocError, Global};
use std::convert::AsStr;

/// The form of the schedule on standard input.
#[derive(Clone, Copy, Debug, PartialEq, Eq)]
pub enum Form {
    Text,
    Image,
}

/// What is explained.
#[derive(Clone, Copy, Debug, PartialEq, Eq)]
pub enum Subject {
    /// The run of a schedule's text.
    Schedule,
    /// The verdict on where the run of a schedule's text ends, as JSON.
    Outlook,
    /// The run of a schedule's image.
    Image,
    /// A trace.
    Trace,
    /// A plan.
    Plan,
}

/// A subcommand.
#[derive(Drop)]
pub enum Request {
    /// Runs a schedule and prints what it shows and where it ends; whether as JSON.
    Run { form: Form, json: bool },
    /// Runs a schedule and prints what is found of it: a stop, whether all is quiet, and whether its trace has the weak list property; whether
    /// all that is not settled is listed, or the first alone, and whether as JSON.
    Check { all: bool, json: bool },
    /// Steps through a schedule by commands, back and forth.
    Debug,
    /// Converts a schedule's text to its image.
    Assemble,
    /// Converts a schedule's image to its text.
    Disassemble,
    /// Judges a trace; whether the answer is JSON.
    Judge(bool),
    /// Runs a schedule and prints what each instruction changes, as lines of JSON; whether the documents too.
    Steps(bool),
    /// Says in words what each instruction of a schedule, as text or as image, did; or as JSON the verdict on where its run ends; or what the verdict of a
    /// trace is, or what a plan is; and why it is refused.
    Explain(Subject),
    /// Compares the lines that a port printed with the run of its schedule; whether instructions without a line are passed over, and whether
    /// the answer is JSON.
    Conform { sparse: bool, json: bool },
    /// The same of many sessions: whether each is answered, or the first alone that does not conform.
    ConformMany { all: bool, sparse: bool, json: bool },
    /// Prints a schedule, and behind it what brings its run to quiet.
    Complete,
    /// Prints a session made at random: its seed, and what is asked of it.
    Generate(u32, Shape),
    /// Prints the small sessions of a space, those of a part.
    ListEvery(Space, Part),
    /// Prints how many they are.
    CountEvery(Space, Part),
}

/// What the words ask for: a subcommand that needs no handle, or the one that starts threads.
#[derive(Drop)]
pub enum Asked {
    Plainly(Request),
    /// Has workers on threads type a plan, and prints the schedule that they record.
    Threads,
}

// The program without its subcommands.
fn top<'a>(alloc: Global) -> Command<'a>
    ensures { app_of result ≡ top_app }
{
    Command::new(alloc, "otbench")
        .about("A proved test bench for ot.js sessions; all input is read from standard input")
        .version("0.1.0")
        .after_help(help::ALL)
        .subcommand_required(true)
}

// A subcommand without arguments: its name, what it does, and what its help says besides.
fn plain<'a>(alloc: Global, name: &'a str, about: &'a str, more: &'a str) -> Command<'a>
    ensures { app_of result ≡ plain_app name.entry.now }
{
    Command::new(alloc, name).about(about).after_help(more)
}

// The subcommand with a flag.
pub(crate) fn flagged<'a>(
    alloc: Global,
    command: Command<'a>,
    flag: &'a str,
    about: &'a str,
) -> Result<Command<'a>, AllocError>
    ensures { IfOk result (λ c. app_of c ≡ with_rule (app_of command.entry) (flag_rule flag.entry.now)) }
{
    let arg = Arg::new(alloc, flag)
        .long(flag)
        .action(ArgAction::SetTrue)
        .help(about);
    command.arg(arg)
}

// The subcommand with an option and what help calls its value.
pub(crate) fn valued<'a>(
    alloc: Global,
    command: Command<'a>,
    option: &'a str,
    value: &'a str,
    about: &'a str,
) -> Result<Command<'a>, AllocError>
    ensures { IfOk result (λ c. app_of c ≡ with_rule (app_of command.entry) (option_rule option.entry.now)) }
{
    let arg = Arg::new(alloc, option)
        .long(option)
        .value_name(value)
        .action(ArgAction::Set)
        .help(about);
    command.arg(arg)
}

// The words of `generate` for a session made at random.
fn random_command<'a>(alloc: Global) -> Result<Command<'a>, AllocError>
    ensures { IfOk result (λ c. app_of c ≡ random_app) }
{
    let command = plain(
        alloc,
        "generate",
        "Print a session made at random, of which no instruction is refused, or every small session",
        help::GENERATE,
    );
    let command = valued(
        alloc,
        command,
        "seed",
        "N",
        "What the session follows from [1]",
    )?;
    let command = valued(
        alloc,
        command,
        "clients",
        "C",
        "How many clients, 1 to 64 [4]; with --every 1 to 4 [2]",
    )?;
    let command = valued(
        alloc,
        command,
        "present",
        "P",
        "How many of them are there from the start [by the seed]",
    )?;
    let command = valued(
        alloc,
        command,
        "instructions",
        "M",
        "How many instructions before the reads at the end, 0 to 100000 [60]",
    )?;
    let command = valued(
        alloc,
        command,
        "start",
        "TEXT",
        "The start text [by the seed; with --every empty]",
    )?;
    flagged(
        alloc,
        command,
        "open",
        "Stop after M instructions, whatever is under way",
    )
}

// The subcommand `generate`.
fn generate_command<'a>(alloc: Global) -> Result<Command<'a>, AllocError>
    ensures { IfOk result (λ c. app_of c ≡ generate_app) }
{
    let command = random_command(alloc)?;
    with_every(alloc, command)
}

// The subcommand `explain`.
fn explain_command<'a>(alloc: Global) -> Result<Command<'a>, AllocError>
    ensures { IfOk result (λ c. app_of c ≡ explain_app) }
{
    let command = plain(
        alloc,
        "explain",
        "Run a schedule and tell in words what each instruction did, and why one is refused",
        help::EXPLAIN,
    );
    let command = flagged(
        alloc,
        command,
        "trace",
        "Read a trace (JSON) in place of a schedule: judge it, and tell why it is refused",
    )?;
    let command = flagged(
        alloc,
        command,
        "plan",
        "Read a plan (JSON) in place of a schedule: tell what it is, or why it is refused",
    )?;
    let command = flagged(
        alloc,
        command,
        "image",
        "Read a schedule's image in place of its text",
    )?;
    flagged(
        alloc,
        command,
        "json",
        "Answer with the verdict on where the run ends, as one line of JSON",
    )
}

// The subcommand `run`.
fn run_command<'a>(alloc: Global) -> Result<Command<'a>, AllocError>
    ensures { IfOk result (λ c. app_of c ≡ run_app) }
{
    let command = plain(
        alloc,
        "run",
        "Run a schedule: its reads, a stop if an instruction is refused, and where it ends",
        help::RUN,
    );
    let command = flagged(
        alloc,
        command,
        "image",
        "Read a schedule's image in place of its text",
    )?;
    flagged(alloc, command, "json", "Answer with lines of JSON")
}

// The subcommand `check`.
fn check_command<'a>(alloc: Global) -> Result<Command<'a>, AllocError>
    ensures { IfOk result (λ c. app_of c ≡ check_app) }
{
    let command = plain(
        alloc,
        "check",
        "Run a schedule and judge it: convergence, and the weak list specification",
        help::CHECK,
    );
    let command = flagged(
        alloc,
        command,
        "all",
        "Tell all that is not settled, not the first alone",
    )?;
    flagged(alloc, command, "json", "Answer with one line of JSON")
}

// The subcommand `judge`.
fn judge_command<'a>(alloc: Global) -> Result<Command<'a>, AllocError>
    ensures { IfOk result (λ c. app_of c ≡ flagged_app (codes "judge") (codes "json")) }
{
    let command = plain(
        alloc,
        "judge",
        "Judge a recorded trace (JSON) by the weak list specification",
        help::JUDGE,
    );
    flagged(alloc, command, "json", "Answer with one line of JSON")
}

// The subcommand `steps`.
fn steps_command<'a>(alloc: Global) -> Result<Command<'a>, AllocError>
    ensures { IfOk result (λ c. app_of c ≡ flagged_app (codes "steps") (codes "documents")) }
{
    let command = plain(
        alloc,
        "steps",
        "Run a schedule and print what each instruction changes, as lines of JSON",
        help::STEPS,
    );
    flagged(
        alloc,
        command,
        "documents",
        "Print with each instruction the document of the one that moved",
    )
}

// The subcommand `conform`.
fn conform_command<'a>(alloc: Global) -> Result<Command<'a>, AllocError>
    ensures { IfOk result (λ c. app_of c ≡ conform_app) }
{
    let command = plain(
        alloc,
        "conform",
        "Compare a port's own run with ot.js: a schedule's text, a line '%%', then the port's lines",
        help::CONFORM,
    );
    let command = flagged(
        alloc,
        command,
        "sparse",
        "Pass over the instructions that have no line",
    )?;
    let command = flagged(alloc, command, "json", "Answer with one line of JSON")?;
    let command = flagged(
        alloc,
        command,
        "many",
        "Compare many sessions, each with a line '%%' behind it",
    )?;
    flagged(alloc, command, "all", "With --many: answer of each session")
}

// The program with one subcommand more.
fn joined<'a>(program: Command<'a>, subcommand: Command<'a>) -> Result<Command<'a>, AllocError>
    ensures { IfOk result (λ c. IsPlain (app_of subcommand.entry) → app_of c ≡ (app_of program.entry +> app_of subcommand.entry)) }
{
    program.subcommand(subcommand)
}

// The program's command line.
fn command<'a>(alloc: Global) -> Result<Command<'a>, AllocError>
    ensures { IfOk result (λ c. app_of c ≡ otbench_app) }
{
    let run = run_command(alloc)?;
    let program = joined(top(alloc), run)?;
    let check = check_command(alloc)?;
    let program = joined(program, check)?;
    let debug = plain(
        alloc,
        "debug",
        "Step through a schedule, back and forth: its text, a line '%%', then commands",
        help::DEBUG,
    );
    let program = joined(program, debug)?;
    let asm = plain(
        alloc,
        "asm",
        "Turn a schedule's text into its image",
        help::ASM,
    );
    let program = joined(program, asm)?;
    let dis = plain(
        alloc,
        "dis",
        "Turn a schedule's image into its canonical text",
        help::DIS,
    );
    let program = joined(program, dis)?;
    let judge = judge_command(alloc)?;
    let program = joined(program, judge)?;
    let steps = steps_command(alloc)?;
    let program = joined(program, steps)?;
    let explain = explain_command(alloc)?;
    let program = joined(program, explain)?;
    let conform = conform_command(alloc)?;
    let program = joined(program, conform)?;
    let threads = plain(
        alloc,
        "threads",
        "Have workers on threads type a plan, and print the schedule that they record",
        help::THREADS,
    );
    let program = joined(program, threads)?;
    let complete = plain(
        alloc,
        "complete",
        "Print a schedule with the instructions behind it that bring it to quiet",
        help::COMPLETE,
    );
    let program = joined(program, complete)?;
    let generate = generate_command(alloc)?;
    joined(program, generate)
}

// Whether a flag was given.
pub(crate) fn is_set(matches: &ArgMatches<'_>, id: &str) -> bool
    ensures { result ≡ flag_among id.now (rows_of (found_of matches.now)) }
{
    match matches.get_str(id) {
        Some(text) => text == "true",
        None => false,
    }
}

// The form that the matches of `run` say.
fn form_in(matches: &ArgMatches<'_>) -> Form
    ensures { result ≡ form_among (rows_of (found_of matches.now)) }
{
    if is_set(matches, "image") {
        Form::Image
    } else {
        Form::Text
    }
}

// What the matches of `run` ask for.
fn run_in(matches: &ArgMatches<'_>) -> Request
    ensures { result ≡ run_among (rows_of (found_of matches.now)) }
{
    let form = form_in(matches);
    let json = is_set(matches, "json");
    Request::Run { form, json }
}

// What the matches of `check` ask for.
fn check_in(matches: &ArgMatches<'_>) -> Request
    ensures { result ≡ check_among (rows_of (found_of matches.now)) }
{
    let all = is_set(matches, "all");
    let json = is_set(matches, "json");
    Request::Check { all, json }
}

// What these flags say is explained; none where two are set.
fn subject_of(trace: bool, plan: bool, image: bool, json: bool) -> Option<Subject>
    ensures { result ≡ subject_of trace plan image json }
{
    match (trace, plan, image, json) {
        (false, false, false, false) => Some(Subject::Schedule),
        (true, false, false, false) => Some(Subject::Trace),
        (false, true, false, false) => Some(Subject::Plan),
        (false, false, true, false) => Some(Subject::Image),
        (false, false, false, true) => Some(Subject::Outlook),
        _ => None,
    }
}

// The request that the matches of `explain` say, if they say one.
fn explain_in(matches: &ArgMatches<'_>) -> Option<Asked>
    ensures { result ≡ explain_among (rows_of (found_of matches.now)) }
{
    let trace = is_set(matches, "trace");
    let plan = is_set(matches, "plan");
    let image = is_set(matches, "image");
    let json = is_set(matches, "json");
    match subject_of(trace, plan, image, json) {
        Some(subject) => Some(Asked::Plainly(Request::Explain(subject))),
        None => None,
    }
}

// What these flags say is compared; none for `--all` without `--many`.
fn conform_request(many: bool, all: bool, sparse: bool, json: bool) -> Option<Request>
    ensures { result ≡ conform_request many all sparse json }
{
    match (many, all) {
        (false, false) => Some(Request::Conform { sparse, json }),
        (false, true) => None,
        (true, _) => Some(Request::ConformMany { all, sparse, json }),
    }
}

// The request that the matches of `conform` say, if they say one.
fn conform_in(matches: &ArgMatches<'_>) -> Option<Asked>
    ensures { result ≡ conform_among (rows_of (found_of matches.now)) }
{
    let many = is_set(matches, "many");
    let each = is_set(matches, "all");
    let sparse = is_set(matches, "sparse");
    let json = is_set(matches, "json");
    match conform_request(many, each, sparse, json) {
        Some(request) => Some(Asked::Plainly(request)),
        None => None,
    }
}

// The number that an option gives, or else this one; none where what it gives is no number.
pub(crate) fn number_in(matches: &ArgMatches<'_>, id: &str, otherwise: u32) -> Option<u32>
    ensures { result ≡ number_among id.now otherwise (rows_of (found_of matches.now)) }
{
    match matches.get_str(id) {
        Some(text) => read_number(text.as_bytes()),
        None => Some(otherwise),
    }
}

// The number that an option gives, if it is there; none where what it gives is no number.
fn number_if(matches: &ArgMatches<'_>, id: &str) -> Option<Option<u32>>
    ensures { result ≡ number_if_among id.now (rows_of (found_of matches.now)) }
{
    match matches.get_str(id) {
        Some(text) => match read_number(text.as_bytes()) {
            Some(number) => Some(Some(number)),
            None => None,
        },
        None => Some(None),
    }
}

// The characters of a text.
fn chars_of(alloc: Global, text: &str) -> Result<Vec<char>, AllocError>
    ensures { IfOk result (λ v. v.items ≡ chars text.now) }
{
    text.chars().collect(alloc)
}

// The characters that an option gives, if it is there.
fn chars_in(
    alloc: Global,
    matches: &ArgMatches<'_>,
    id: &str,
) -> Result<Option<Vec<char>>, AllocError>
    ensures { IfOk result (λ text. option_map vec_items text ≡ chars_among id.now (rows_of (found_of matches.now))) }
{
    match matches.get_str(id) {
        Some(text) => {
            let text = chars_of(alloc, text)?;
            Ok(Some(text))
        }
        None => Ok(None),
    }
}

#[tactic(auto, unfolding(crate::specs::Requests::session_among))]
// The session that the matches of `generate` ask for, with this start text; none where a number is none, or out of its range.
fn session_in(matches: &ArgMatches<'_>, start: Option<Vec<char>>) -> Option<Request>
    ensures { result ≡ session_among (option_map vec_items start) (rows_of (found_of matches.now)) }
{
    let seed = number_in(matches, "seed", 1)?;
    let clients = number_in(matches, "clients", 4)?;
    let present = number_if(matches, "present")?;
    let instructions = number_in(matches, "instructions", 60)?;
    let is_open = is_set(matches, "open");
    let shape = Shape::new(clients, present, instructions, start, is_open)?;
    Some(Request::Generate(seed, shape))
}

// The session, or all of them, that the matches of `generate` ask for; none where a word of the other is there.
fn sessions_in(alloc: Global, matches: &ArgMatches<'_>, start: Option<Vec<char>>) -> Option<Request>
    ensures { result ≡ sessions_among (flag_among (codes "every") (rows_of (found_of matches.now))) (option_map vec_items start) (rows_of (found_of matches.now)) }
{
    if is_set(matches, "every") {
        if has_random(matches) {
            return None;
        }
        return every_in(alloc, matches, start);
    }
    if has_every(matches) {
        return None;
    }
    session_in(matches, start)
}

#[tactic(auto, unfolding(crate::specs::Requests::generate_among))]
// The request that the matches of `generate` say, if they say one.
fn generate_in(alloc: Global, matches: &ArgMatches<'_>) -> Result<Option<Asked>, AllocError>
    ensures { IfOk result (λ r. r ≡ generate_among (rows_of (found_of matches.now))) }
{
    let start = chars_in(alloc, matches, "start")?;
    match sessions_in(alloc, matches, start) {
        Some(request) => Ok(Some(Asked::Plainly(request))),
        None => Ok(None),
    }
}

// The request that the matches say, if they say one.
fn request_in(alloc: Global, matches: &ArgMatches<'_>) -> Result<Option<Asked>, AllocError>
    ensures { IfOk result (λ r. r ≡ option_and_then request_in_rows (subcommand_rows_of matches.now)) }
{
    let Some((name, found)) = matches.subcommand() else {
        return Ok(None);
    };
    match name {
        "run" => Ok(Some(Asked::Plainly(run_in(found)))),
        "check" => Ok(Some(Asked::Plainly(check_in(found)))),
        "debug" => Ok(Some(Asked::Plainly(Request::Debug))),
        "asm" => Ok(Some(Asked::Plainly(Request::Assemble))),
        "dis" => Ok(Some(Asked::Plainly(Request::Disassemble))),
        "judge" => Ok(Some(Asked::Plainly(Request::Judge(is_set(found, "json"))))),
        "steps" => Ok(Some(Asked::Plainly(Request::Steps(is_set(found, "documents"))))),
        "explain" => Ok(explain_in(found)),
        "conform" => Ok(conform_in(found)),
        "threads" => Ok(Some(Asked::Threads)),
        "complete" => Ok(Some(Asked::Plainly(Request::Complete))),
        "generate" => generate_in(alloc, found),
        _ => Ok(None),
    }
}

// Whether what an option gives, if it is there, is a number from the least to the most.
pub(crate) fn is_within(matches: &ArgMatches<'_>, id: &str, least: u32, most: u32) -> bool {
    match matches.get_str(id) {
        Some(text) => read_number(text.as_bytes()).is_some_and(|number| least <= number
            && number <= most),
        None => true,
    }
}

// The option of `generate` whose value it does not take for a session made at random, as its usage names it, and what it takes.
fn refused_option(matches: &ArgMatches<'_>) -> (&'static str, &'static str, &'static str) {
    let clients = number_in(matches, "clients", 4).unwrap_or(0);
    if !is_within(matches, "seed", 0, 999_999_999) {
        return ("seed", "N", "one to nine digits");
    }
    if !is_within(matches, "clients", 1, 64) {
        return ("clients", "C", "1 to 64");
    }
    if !is_within(matches, "present", 0, clients) {
        return ("present", "P", "0 to the number of clients");
    }
    if !is_within(matches, "instructions", 0, 100_000) {
        return ("instructions", "M", "0 to 100000");
    }
    ("start", "TEXT", "at most 40000 characters")
}

// The value that an option gives, in quotes, if it is short.
fn quoted_value(
    alloc: Global,
    matches: &ArgMatches<'_>,
    option: &str,
) -> Result<String, AllocError> {
    match matches.get_str(option) {
        Some(value) if value.len() <= 40 => format!(in alloc; "value '{value}'"),
        _ => String::from_str(alloc, "value"),
    }
}

// That a value of `generate` is refused: `clap`'s error, with the usage of `generate`.
fn refused_value(alloc: Global, matches: &ArgMatches<'_>) -> Result<Error, AllocError> {
    let (option, name, takes) = if is_set(matches, "every") {
        refused_every(matches)
    } else {
        refused_option(matches)
    };
    let value = quoted_value(alloc, matches, option)?;
    let words = format!(in alloc; "invalid {value} for '--{option} <{name}>': it takes {takes}")?;
    let mut command = generate_command(alloc)?.bin_name("otbench generate")?;
    command.error(ErrorKind::ValueValidation, words.as_str())
}

// Why the matches of `generate` ask for no session.
fn refused_session(alloc: Global, matches: &ArgMatches<'_>) -> Result<Error, AllocError> {
    let Some(option) = misplaced_option(matches) else {
        return refused_value(alloc, matches);
    };
    let words = if is_set(matches, "every") {
        format!(in alloc; "the argument '--{option}' cannot be used with '--every'")?
    } else {
        format!(in alloc; "the argument '--{option}' cannot be used without '--every'")?
    };
    let mut command = generate_command(alloc)?.bin_name("otbench generate")?;
    command.error(ErrorKind::ArgumentConflict, words.as_str())
}

// The first two flags that were given for `explain` and exclude one another.
fn two_subjects(matches: &ArgMatches<'_>) -> (&'static str, &'static str) {
    let trace = is_set(matches, "trace");
    let plan = is_set(matches, "plan");
    let image = is_set(matches, "image");
    match (trace, plan, image) {
        (true, true, _) => ("trace", "plan"),
        (true, false, true) => ("trace", "image"),
        (true, false, false) => ("trace", "json"),
        (false, true, true) => ("plan", "image"),
        (false, true, false) => ("plan", "json"),
        _ => ("image", "json"),
    }
}

// That the matches of `explain` have two flags that exclude one another: `clap`'s error, with the usage of `explain`.
fn refused_subject(alloc: Global, matches: &ArgMatches<'_>) -> Result<Error, AllocError> {
    let (first, second) = two_subjects(matches);
    let words = format!(in alloc; "the argument '--{first}' cannot be used with '--{second}'")?;
    let mut command = explain_command(alloc)?.bin_name("otbench explain")?;
    command.error(ErrorKind::ArgumentConflict, words.as_str())
}

// That the matches of `conform` ask for each of one session: `clap`'s error, with the usage of `conform`.
fn refused_all(alloc: Global) -> Result<Error, AllocError> {
    let mut command = conform_command(alloc)?.bin_name("otbench conform")?;
    command.error(
        ErrorKind::ArgumentConflict,
        "the argument '--all' cannot be used without '--many'",
    )
}

// Why the matches ask for nothing that the program does.
fn refused_request(alloc: Global, matches: &ArgMatches<'_>) -> Result<Error, AllocError> {
    match matches.subcommand() {
        Some((name, found)) if name == "explain" => refused_subject(alloc, found),
        Some((name, _)) if name == "conform" => refused_all(alloc),
        Some((_, found)) => refused_session(alloc, found),
        None => command(alloc)?.error(ErrorKind::MissingSubcommand, "a subcommand is missing"),
    }
}

/// What the words ask for, the program's name being the first of them. Where they ask for nothing that the program does, for a session with
/// a number out of its range, for `explain` with two flags that exclude one another, for `conform` of each of one session, or for help, the answer is `clap`'s error with its text: of a
/// number that is refused, the option, what it takes and the usage of `generate`. `ErrorKind::OutOfMemory` means out of memory.
pub fn read_request<'a, S: AsStr>(alloc: Global, words: &'a [S]) -> Result<Asked, Error>
    ensures ok { IfOk result (λ r. request_of (map S.text words.entry.now) ≡ Some r) }
    ensures refused { IfErr result (λ e. takes otbench_app (map S.text words.entry.now) ≡ true
        → IsSome (request_of (map S.text words.entry.now)) → kind_of e ≡ ErrorKind.OutOfMemory) }
{
    let matches = command(alloc)?.try_get_matches_from(words)?;
    match request_in(alloc, &matches)? {
        Some(request) => Ok(request),
        None => Err(refused_request(alloc, &matches)?),
    }
}
