//! `conform --many`: many sessions, up to the first that does not conform, or each.
//!
//! ```text
//!    input ── next_session ──▶ ComparedSession ── it conforms ──▶ Sum ── no session is left ──▶ how many conform, and what was compared
//!                                       └── it does not ──▶ its number, its schedule and its answer
//! ```
//!
//! `specs/Many.antt` says what is written: the session that is answered is the first for which `conform` does not say that it conforms.

ghost use Rattle.std.specs.Prelude.{◌≡◌, IfErr, IfOk, IfSome, string_bytes};
ghost use Rattle.streams.specs.Lines.{lines_of};
ghost use Rattle.ot_conform.specs.Ruled.{answer_value};
ghost use Rattle.ot_conform.specs.Summed.{sum_value};
ghost use Rattle.ot_commands.specs.Answered.{session_value};
ghost use Rattle.ot_commands.specs.Many.{Adds, ComparesEach, ComparesFirst, ComparesMany, FindsFirst, IsToldOf, StopsEach, StopsFirst, StopsWriting, Writes, WritesEach, WritesSession, each_status, session_json, session_members, session_words, sum_answer, sum_status};
ghost use Rattle.ot_commands.specs.Sessions.{session_read};

use crate::answering::{Session, answer_members, answer_words, words_member};
use crate::conforming::answer_status;
use crate::sessions::{ComparedSession, SessionFault, next_session, tell_session_fault};
use ot_conform::{
    Answer, Compared, Sum, Verdict, answer_of, number_member, object, print_sum, sum_members,
};
use ot_explain::places;
use std::alloc::{AllocError, Global};
use streams::{Sink, Source, complain_of_memory, give};

// The first session that does not conform, or so many that do.
#[derive(Drop)]
enum Found {
    All(u64, Sum),
    Fails(u64, ComparedSession),
}

// Why nothing is found: the session of this number is refused, or memory ran out.
#[derive(Clone, Copy, Debug, PartialEq, Eq)]
enum Stop {
    Refused(u64, SessionFault),
    Memory,
}

// Why the answers of each end before the input does: the session of this number is refused, memory ran out, or a write failed.
#[derive(Clone, Copy, Debug, PartialEq, Eq)]
enum EachStop {
    Refused(u64, SessionFault),
    Memory,
    Output,
}

// The status of sessions that conform.
fn sum_status(sum: &Sum) -> u8
    ensures { result ≡ sum_status (sum_value sum.now) }
{
    u8::from(sum.counts.is_nothing())
}

// The status of so many sessions, by whether they conform.
fn each_status(sessions: u64, conform: bool) -> u8
    ensures { result ≡ each_status sessions conform }
{
    u8::from(sessions == 0 || !conform)
}

// Adds a session that conforms, and says whether it does.
fn add_session(alloc: Global, sum: &mut Sum, session: &ComparedSession) -> Result<bool, AllocError>
    ensures { IfOk result (λ added. Adds (session_read session.now) session.now.compared (sum_value sum.old) (sum_value sum.new) added) }
{
    if answer_status(&session.comments, &session.compared.verdict) != 0 {
        return Ok(false);
    }
    match &session.compared.verdict {
        Verdict::Conforms(counts) => {
            sum.add(alloc, counts, session.compared.unknown.as_slice())?;
            Ok(true)
        }
        _ => Ok(false),
    }
}

// Compares session after session, up to the first that does not conform.
fn find_first<I: Source>(alloc: Global, sparse: bool, input: &mut I) -> Result<Found, Stop>
    ensures ok { IfOk result (λ found. IfSome (I.remaining input.old) (λ text. FindsFirst sparse (lines_of text) found)) }
    ensures err { IfErr result (λ stop. IfSome (I.remaining input.old) (λ text. StopsFirst sparse (I.failed input.new) (lines_of text) stop)) }
{
    // For the proof: its bound.
    let _most = input.left();
    let mut sum = Sum::none(alloc);
    let mut sessions = 0u64;
    let mut first = 0u64;
    'taking: loop {
        match next_session(alloc, sparse, input, first) {
            Ok(None) => return Ok(Found::All(sessions, sum)),
            Ok(Some((session, lines))) => {
                match add_session(alloc, &mut sum, &session) {
                    Ok(true) => {}
                    Ok(false) => return Ok(Found::Fails(sessions + 1, session)),
                    Err(_) => return Err(Stop::Memory),
                }
                sessions += 1;
                first = lines;
            }
            Err(fault) => return Err(Stop::Refused(sessions + 1, fault)),
        }
    }
}

// The words of a session: its number and its schedule, and behind them its answer.
fn session_words(
    alloc: Global,
    number: u64,
    session: &Session<'_>,
    answer: &Answer,
) -> Result<Vec<u8>, AllocError>
    ensures { IfOk result (λ v. v.items ≡ session_words number session.now.text.now (session_value session.now) (answer_value answer.now)) }
{
    let head = format!(in alloc; "session {number}\n")?;
    let words = answer_words(alloc, session.comments, answer)?;
    let mut bytes = Vec::from_slice(alloc, head.as_bytes())?;
    bytes.extend_from_slice(session.text)?;
    bytes.extend_from_slice(b"%%\n".as_slice())?;
    bytes.extend_from_slice(words.as_slice())?;
    Ok(bytes)
}

// The members of a session's object: behind those of its answer its number and its schedule.
fn session_members(
    alloc: Global,
    number: u64,
    session: &Session<'_>,
    answer: &Answer,
) -> Result<String, AllocError>
    ensures { IfOk result (λ s. string_bytes s ≡ session_members number session.now.text.now (session_value session.now) (answer_value answer.now)) }
{
    let places = places(alloc, session.text)?;
    let members = answer_members(alloc, places.as_slice(), session.comments, answer)?;
    let number = number_member(alloc, "session", number)?;
    let schedule = words_member(alloc, "schedule", session.text)?;
    format!(in alloc; "{members}{number}{schedule}")
}

// The line of JSON of a session.
fn session_json(
    alloc: Global,
    number: u64,
    session: &Session<'_>,
    answer: &Answer,
) -> Result<Vec<u8>, AllocError>
    ensures { IfOk result (λ v. v.items ≡ session_json number session.now.text.now (session_value session.now) (answer_value answer.now)) }
{
    let members = session_members(alloc, number, session, answer)?;
    let line = object(alloc, members.as_str())?;
    let mut bytes = Vec::from_slice(alloc, line.as_bytes())?;
    bytes.push(b'\n')?;
    Ok(bytes)
}

// What is answered of the session of this number.
fn session_text(
    alloc: Global,
    json: bool,
    number: u64,
    session: &Session<'_>,
    compared: Compared,
) -> Result<Vec<u8>, AllocError>
    ensures { IfOk result (λ v. IsToldOf json number session.now.text.now (session_value session.now) compared v.items) }
{
    let answer = answer_of(alloc, session.schedule, compared)?;
    if json {
        session_json(alloc, number, session, &answer)
    } else {
        session_words(alloc, number, session, &answer)
    }
}

// The same of a session as it was read.
fn tell_session(
    alloc: Global,
    json: bool,
    number: u64,
    session: ComparedSession,
) -> Result<Vec<u8>, AllocError>
    ensures { IfOk result (λ v. IsToldOf json number session.text.items (session_read session) session.compared v.items) }
{
    let ComparedSession {
        text,
        comments,
        schedule,
        compared,
    } = session;
    let session = Session {
        text: text.as_slice(),
        comments: &comments,
        schedule: &schedule,
    };
    session_text(alloc, json, number, &session, compared)
}

// What is answered of so many sessions that conform.
fn sum_answer(alloc: Global, json: bool, sessions: u64, sum: &Sum) -> Result<String, AllocError>
    ensures { IfOk result (λ s. string_bytes s ≡ sum_answer json sessions (sum_value sum.now)) }
{
    if !json {
        return print_sum(alloc, sessions, sum);
    }
    let members = sum_members(alloc, sessions, sum)?;
    let mut line = object(alloc, members.as_str())?;
    line.push_str("\n")?;
    Ok(line)
}

// Writes what is found.
fn write_found<O: Sink, F: Sink>(
    alloc: Global,
    json: bool,
    found: Found,
    output: &mut O,
    faults: &mut F,
) -> u8
    ensures { Writes json found result (record { output = O.contents output.old; output' = O.contents output.new; broken = O.failed output.new; faults = F.contents faults.old; faults' = F.contents faults.new; faults_broken = F.failed faults.new }) }
{
    match found {
        Found::All(sessions, sum) => match sum_answer(alloc, json, sessions, &sum) {
            Ok(text) => give(text.as_bytes(), sum_status(&sum), output),
            Err(_) => {
                complain_of_memory(faults);
                1
            }
        },
        Found::Fails(number, session) => match tell_session(alloc, json, number, session) {
            Ok(bytes) => give(bytes.as_slice(), 1, output),
            Err(_) => {
                complain_of_memory(faults);
                1
            }
        },
    }
}

// Compares up to the first session that does not conform.
fn compare_first<I: Source, O: Sink, F: Sink>(
    alloc: Global,
    sparse: bool,
    json: bool,
    input: &mut I,
    output: &mut O,
    faults: &mut F,
) -> u8
    ensures { IfSome (I.remaining input.old) (λ text. ComparesFirst sparse json (I.failed input.new) (lines_of text) result (record { output = O.contents output.old; output' = O.contents output.new; broken = O.failed output.new; faults = F.contents faults.old; faults' = F.contents faults.new; faults_broken = F.failed faults.new })) }
{
    match find_first(alloc, sparse, input) {
        Ok(found) => write_found(alloc, json, found, output, faults),
        Err(Stop::Refused(number, fault)) => {
            tell_session_fault(alloc, json, number, fault, output, faults)
        }
        Err(Stop::Memory) => {
            complain_of_memory(faults);
            1
        }
    }
}

// Writes the answer of the session of this number, and says whether it conforms.
fn write_session<O: Sink>(
    alloc: Global,
    json: bool,
    number: u64,
    session: ComparedSession,
    output: &mut O,
) -> Result<bool, EachStop>
    ensures ok { IfOk result (λ conforms. WritesSession json number session conforms (O.contents output.old) (O.contents output.new)) }
    ensures err { IfErr result (λ stop. StopsWriting json number session stop (O.failed output.new) (O.contents output.old) (O.contents output.new)) }
{
    let conforms = answer_status(&session.comments, &session.compared.verdict) == 0;
    let Ok(bytes) = tell_session(alloc, json, number, session) else {
        return Err(EachStop::Memory);
    };
    match output.put(bytes.as_slice()) {
        Ok(()) => Ok(conforms),
        Err(_) => Err(EachStop::Output),
    }
}

// Compares session after session, and writes the answer of each. Gives the status.
fn write_each<I: Source, O: Sink>(
    alloc: Global,
    sparse: bool,
    json: bool,
    input: &mut I,
    output: &mut O,
) -> Result<u8, EachStop>
    ensures ok { IfOk result (λ status. IfSome (I.remaining input.old) (λ text. WritesEach sparse json (lines_of text) status (O.contents output.old) (O.contents output.new))) }
    ensures err { IfErr result (λ stop. IfSome (I.remaining input.old) (λ text. StopsEach sparse json (I.failed input.new) (lines_of text) stop (O.failed output.new) (O.contents output.old) (O.contents output.new))) }
{
    // For the proof: its bound.
    let _most = input.left();
    let mut sessions = 0u64;
    let mut first = 0u64;
    let mut conform = true;
    'taking: loop {
        match next_session(alloc, sparse, input, first) {
            Ok(None) => return Ok(each_status(sessions, conform)),
            Ok(Some((session, lines))) => {
                match write_session(alloc, json, sessions + 1, session, output) {
                    Ok(conforms) => conform &= conforms,
                    Err(stop) => return Err(stop),
                }
                sessions += 1;
                first = lines;
            }
            Err(fault) => return Err(EachStop::Refused(sessions + 1, fault)),
        }
    }
}

// Compares each session.
fn compare_each<I: Source, O: Sink, F: Sink>(
    alloc: Global,
    sparse: bool,
    json: bool,
    input: &mut I,
    output: &mut O,
    faults: &mut F,
) -> u8
    ensures { IfSome (I.remaining input.old) (λ text. ComparesEach sparse json (I.failed input.new) (lines_of text) result (record { output = O.contents output.old; output' = O.contents output.new; broken = O.failed output.new; faults = F.contents faults.old; faults' = F.contents faults.new; faults_broken = F.failed faults.new })) }
{
    match write_each(alloc, sparse, json, input, output) {
        Ok(status) => status,
        Err(EachStop::Refused(number, fault)) => {
            tell_session_fault(alloc, json, number, fault, output, faults)
        }
        Err(EachStop::Memory) => {
            complain_of_memory(faults);
            1
        }
        Err(EachStop::Output) => 1,
    }
}

/// Reads sessions, each a schedule's lines, a line `%%`, the lines that a port printed, and a line `%%`, and compares them one after the other as [`crate::run_conform`]
/// does. Writes how many conform and what was compared of all; or of the first that does not conform its number, counted from 1, its schedule and its answer. With
/// `all` the same of each session. The status is 0 where all conform and a value was compared, else 1. A session without its lines `%%`, a schedule that is refused and
/// faults of reading and memory are refused, with the session's number and the input's line, with `json` as JSON on the output too.
pub fn run_conform_many<I: Source, O: Sink, F: Sink>(
    alloc: Global,
    all: bool,
    sparse: bool,
    json: bool,
    input: &mut I,
    output: &mut O,
    faults: &mut F,
) -> u8
    ensures { IfSome (I.remaining input.old) (λ text. ComparesMany all sparse json (I.failed input.new) text result (record { output = O.contents output.old; output' = O.contents output.new; broken = O.failed output.new; faults = F.contents faults.old; faults' = F.contents faults.new; faults_broken = F.failed faults.new })) }
{
    if all {
        compare_each(alloc, sparse, json, input, output, faults)
    } else {
        compare_first(alloc, sparse, json, input, output, faults)
    }
}
