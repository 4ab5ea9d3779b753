//! An input of many sessions: of each a schedule's lines, a line `%%`, the lines that a port printed, and a line `%%`.
//!
//! ```text
//!    schedule's lines ── a text ──▶ Schedule ─┐
//!    %%                                       ├── ot_conform ──▶ ComparedSession
//!    the port's lines ── a text ──────────────┘
//!    %%
//! ```
//!
//! [`next_session`] takes one session from the input and compares it as `conform` does; memory is that of the session. `specs/Sessions.antt` says what comes of it,
//! and when a session is refused. Lines are numbered over the whole input.

ghost use Rattle.std.specs.Prelude.{◌≡◌, ◌≤◌, ◌<◌, ◌+◌, ◌^◌, true, IfErr, IfOk, IfSome, string_bytes};
ghost use Rattle.streams.specs.Lines.{lines_of};
ghost use Rattle.streams.specs.Outcomes.{Complains};
ghost use Rattle.ot_commands.specs.Sessions.{AnswersSession, IsCompareFault, IsComparedOf, IsNext, IsSessionFault, IsTakeFault, TakesMarked, TellsSession, fault_behind, fault_line, fault_name, session_fault, session_fault_json, session_read};

use crate::faults::line_name;
use crate::part::keep_part;
use ot_asm::{AsmFault, Comments, Kind, assemble_bytes, comments_of};
use ot_conform::{CompareStop, Compared, compare_lines};
use ot_isa::Schedule;
use std::alloc::{AllocError, Global};
use streams::{Device, Sink, Source, complain, complain_of_memory, give};

/// Why a session is refused.
#[derive(Clone, Copy, Debug, PartialEq, Eq)]
pub(crate) enum SessionFault {
    /// The fault of a line.
    Line(AsmFault),
    /// The input ends before a line `%%`; this would be the next line's number.
    NoMark(u64),
}

/// A session that was compared.
#[derive(Drop)]
pub(crate) struct ComparedSession {
    /// The schedule's lines, each with its end.
    pub text: Vec<u8>,
    pub comments: Comments,
    pub schedule: Schedule,
    pub compared: Compared,
}

// A line's fault behind so many lines.
fn fault_behind(first: u64, fault: AsmFault) -> AsmFault
    ensures { result ≡ fault_behind first fault }
{
    AsmFault {
        line: first.saturating_add(fault.line),
        kind: fault.kind,
    }
}

fn fault_line(fault: SessionFault) -> u64
    ensures { result ≡ fault_line fault }
{
    match fault {
        SessionFault::Line(fault) => fault.line,
        SessionFault::NoMark(line) => line,
    }
}

fn fault_name(fault: SessionFault) -> &'static str
    ensures { result.now ≡ fault_name fault }
{
    match fault {
        SessionFault::Line(fault) => line_name(fault.kind),
        SessionFault::NoMark(_) => "NoMark",
    }
}

fn fault_text(alloc: Global, number: u64, fault: SessionFault) -> Result<String, AllocError>
    ensures { IfOk result (λ s. string_bytes s ≡ session_fault number fault) }
{
    let line = fault_line(fault);
    let name = fault_name(fault);
    format!(in alloc; "otbench: session {number}: line {line}: {name}\n")
}

fn fault_json(alloc: Global, number: u64, fault: SessionFault) -> Result<String, AllocError>
    ensures { IfOk result (λ s. string_bytes s ≡ session_fault_json number fault) }
{
    let line = fault_line(fault);
    let name = fault_name(fault);
    format!(in alloc; "{{\"fault\":\"{name}\",\"line\":{line},\"session\":{number}}}\n")
}

// Writes why the session of this number is refused.
fn complain_of_session<F: Sink>(alloc: Global, number: u64, fault: SessionFault, faults: &mut F)
    ensures line { Complains (session_fault number fault) (F.contents faults.old) (F.contents faults.new) (F.failed faults.new) }
    ensures failed { F.failed faults.old ≡ true → F.failed faults.new ≡ true }
{
    match fault_text(alloc, number, fault) {
        Ok(text) => complain(faults, text.as_str()),
        Err(_) => complain_of_memory(faults),
    }
}

// Writes why the session of this number is refused, and on the output the same as JSON. Answers the status, which is 1.
fn answer_session_fault<O: Sink, F: Sink>(
    alloc: Global,
    number: u64,
    fault: SessionFault,
    output: &mut O,
    faults: &mut F,
) -> u8
    ensures { AnswersSession number fault result (record { output = O.contents output.old; output' = O.contents output.new; broken = O.failed output.new; faults = F.contents faults.old; faults' = F.contents faults.new; faults_broken = F.failed faults.new }) }
{
    complain_of_session(alloc, number, fault, faults);
    match fault_json(alloc, number, fault) {
        Ok(line) => give(line.as_bytes(), 1, output),
        Err(_) => {
            complain_of_memory(faults);
            1
        }
    }
}

/// Writes why the session of this number is refused, with `json` as JSON on the output too. Answers the status, which is 1.
pub(crate) fn tell_session_fault<O: Sink, F: Sink>(
    alloc: Global,
    json: bool,
    number: u64,
    fault: SessionFault,
    output: &mut O,
    faults: &mut F,
) -> u8
    ensures { TellsSession json number fault result (record { output = O.contents output.old; output' = O.contents output.new; broken = O.failed output.new; faults = F.contents faults.old; faults' = F.contents faults.new; faults_broken = F.failed faults.new }) }
{
    if json {
        return answer_session_fault(alloc, number, fault, output, faults);
    }
    complain_of_session(alloc, number, fault, faults);
    1
}

// Takes the lines as far as the next mark, behind so many, and keeps those before it as a text. Says how many lines were taken of all, or that
// no line is left.
fn take_marked<R: Source>(
    alloc: Global,
    input: &mut R,
    earlier: u64,
    text: &mut Vec<u8>,
) -> Result<Option<u64>, SessionFault>
    requires { earlier + R.left input.old ≤ 2 ^ 51 }
    ensures ok { IfOk result (λ taken. IfSome (R.remaining input.old) (λ all. TakesMarked earlier (lines_of all) (R.remaining input.new) text.new.items taken)) }
    ensures spent { IfOk result (λ taken. IfSome taken (λ lines. (earlier < lines) × (lines + R.left input.new ≤ earlier + R.left input.old))) }
    ensures err { IfErr result (λ f. IfSome (R.remaining input.old) (λ all. IsTakeFault (R.failed input.new) earlier (lines_of all) f)) }
{
    match keep_part(alloc, input, text) {
        Ok(taken) => {
            if taken.lines == 0 {
                return Ok(None);
            }
            let lines = earlier + taken.lines;
            if taken.is_marked {
                Ok(Some(lines))
            } else {
                Err(SessionFault::NoMark(lines + 1))
            }
        }
        Err(fault) => Err(SessionFault::Line(fault_behind(earlier, fault))),
    }
}

// Compares a port's lines with the run of the schedule that the text spells. So many lines of the input stand before the text, and before the port's lines.
fn compare_session(
    alloc: Global,
    sparse: bool,
    first: u64,
    earlier: u64,
    text: Vec<u8>,
    port: &[u8],
) -> Result<ComparedSession, SessionFault>
    requires { (first ≤ earlier) × (earlier ≤ 2 ^ 51) }
    ensures ok { IfOk result (λ s. IsComparedOf sparse (lines_of text.items) (lines_of port.now) earlier (session_read s) s.compared) }
    ensures text { IfOk result (λ s. s.text ≡ text) }
    ensures err { IfErr result (λ f. IsCompareFault first (lines_of text.items) earlier (lines_of port.now) f) }
{
    let schedule = match assemble_bytes(alloc, text.as_slice()) {
        Ok(schedule) => schedule,
        Err(fault) => return Err(SessionFault::Line(fault_behind(first, fault))),
    };
    let Ok(comments) = comments_of(alloc, text.as_slice()) else {
        return Err(SessionFault::Line(AsmFault {
            line: first + 1,
            kind: Kind::Memory,
        }));
    };
    let mut lines = Device::new(port);
    match compare_lines(alloc, &schedule, sparse, &mut lines, earlier) {
        Ok(compared) => Ok(ComparedSession {
            text,
            comments,
            schedule,
            compared,
        }),
        // What is in memory is read.
        Err(CompareStop::Memory(line) | CompareStop::ReadFault(line)) => {
            Err(SessionFault::Line(AsmFault {
                line,
                kind: Kind::Memory,
            }))
        }
    }
}

/// Takes the next session, which stands behind so many lines, and compares it; says how many lines there are with it. None: no line is left.
pub(crate) fn next_session<R: Source>(
    alloc: Global,
    sparse: bool,
    input: &mut R,
    first: u64,
) -> Result<Option<(ComparedSession, u64)>, SessionFault>
    requires { first + R.left input.old ≤ 2 ^ 51 }
    ensures ok { IfOk result (λ next. IfSome (R.remaining input.old) (λ all. IsNext sparse first (lines_of all) (R.remaining input.new) next)) }
    ensures spent { IfOk result (λ next. IfSome next (λ p. (first < p.1) × (p.1 + R.left input.new ≤ first + R.left input.old))) }
    ensures err { IfErr result (λ f. IfSome (R.remaining input.old) (λ all. IsSessionFault (R.failed input.new) first (lines_of all) f)) }
{
    let mut text = Vec::new(alloc);
    let Some(earlier) = take_marked(alloc, input, first, &mut text)? else {
        return Ok(None);
    };
    let mut port = Vec::new(alloc);
    let Some(lines) = take_marked(alloc, input, earlier, &mut port)? else {
        return Err(SessionFault::NoMark(earlier + 1));
    };
    match compare_session(alloc, sparse, first, earlier, text, port.as_slice()) {
        Ok(session) => Ok(Some((session, lines))),
        Err(fault) => Err(fault),
    }
}
