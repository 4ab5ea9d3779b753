//! `conform`: the lines that a port of ot.js printed, against the run of the schedule that it performed.
//!
//! ```text
//!    schedule's lines ── ot_asm ──▶ Schedule ─┐
//!    %%                                       ├── ot_conform ──▶ Verdict ──▶ its lines on the output
//!    the port's lines, as they come ──────────┘
//! ```
//!
//! [`run_conform`] does the whole work over any reader and two writers; `specs/Conformed.antt` says what it writes and answers, over the
//! verdicts of `ot_conform` (specs/Compared.antt there), and `specs/Answered.antt` the answer, whose words and JSON are made of one value. Nothing that a port prints is a fault of the input: it is a difference. What stands
//! behind the first difference is not read. The schedule's lines are kept as a text (`part.rt`), since their comments name the clients of
//! the answer and say whether the schedule is cut (`ot_asm`).

ghost use Rattle.std.specs.Prelude.{◌≡◌, IfSome};
ghost use Rattle.streams.specs.Lines.{lines_of};
ghost use Rattle.ot_conform.specs.Compared.{verdict_status};
ghost use Rattle.ot_commands.specs.Answered.{session_value};
ghost use Rattle.ot_commands.specs.Conformed.{Compares, MayJudge, MayWrite, answer_status, stop_fault};

use crate::answering::{Session, answer_text};
use crate::faults::{complain_of_line, tell_fault};
use crate::part::read_part;
use ot_asm::{AsmFault, Comments, Kind, comments_of};
use ot_conform::{CompareStop, Compared, Verdict, compare_lines};
use std::alloc::Global;
use streams::{Sink, Source, complain_of_memory, give};

/// Why a comparison broke off, as the fault of a line.
pub(crate) fn stop_fault(stop: CompareStop) -> AsmFault
    ensures { result ≡ stop_fault stop }
{
    match stop {
        CompareStop::ReadFault(line) => AsmFault {
            line,
            kind: Kind::ReadFault,
        },
        CompareStop::Memory(line) => AsmFault {
            line,
            kind: Kind::Memory,
        },
    }
}

// The status of a verdict.
fn verdict_status(verdict: &Verdict) -> u8
    ensures { result ≡ verdict_status verdict.now }
{
    match verdict {
        Verdict::Conforms(counts) => u8::from(counts.is_nothing()),
        Verdict::Differs(_) => 1,
        Verdict::Stopped { .. } => 1,
    }
}

/// The status of a verdict on a schedule whose comments tell this.
pub(crate) fn answer_status(comments: &Comments, verdict: &Verdict) -> u8
    ensures { result ≡ answer_status comments.now verdict.now }
{
    if comments.is_cut() {
        1
    } else {
        verdict_status(verdict)
    }
}

// Writes what came of comparing lines for the session's schedule.
fn write_verdict<O: Sink, F: Sink>(
    alloc: Global,
    json: bool,
    session: &Session<'_>,
    compared: Compared,
    output: &mut O,
    faults: &mut F,
) -> u8
    ensures { MayWrite json (session_value session.now) compared result (record { output = O.contents output.old; output' = O.contents output.new; broken = O.failed output.new; faults = F.contents faults.old; faults' = F.contents faults.new; faults_broken = F.failed faults.new }) }
{
    let status = answer_status(session.comments, &compared.verdict);
    match answer_text(alloc, json, session, compared) {
        Ok(bytes) => give(bytes.as_slice(), status, output),
        Err(_) => {
            complain_of_memory(faults);
            1
        }
    }
}

// Compares the lines that are left with the session's run. So many lines stand before them.
fn judge<I: Source, O: Sink, F: Sink>(
    alloc: Global,
    sparse: bool,
    json: bool,
    session: &Session<'_>,
    earlier: u64,
    input: &mut I,
    output: &mut O,
    faults: &mut F,
) -> u8
    ensures { IfSome (I.remaining input.old) (λ rest. MayJudge sparse json (I.failed input.new) (session_value session.now) (lines_of rest) earlier result (record { output = O.contents output.old; output' = O.contents output.new; broken = O.failed output.new; faults = F.contents faults.old; faults' = F.contents faults.new; faults_broken = F.failed faults.new })) }
{
    match compare_lines(alloc, session.schedule, sparse, input, earlier) {
        Ok(compared) => write_verdict(alloc, json, session, compared, output, faults),
        Err(stop) => {
            complain_of_line(alloc, stop_fault(stop), faults);
            1
        }
    }
}

/// Reads a schedule's lines as far as the first line `%%`, compares the port's lines behind it with the schedule's run as they come, writes
/// the answer with the unknown keys of these lines, in words or as one line of `json`, and gives the status. Where it is `sparse`,
/// instructions without a line are passed over. The answer has the names that the schedule's comments give the clients, and says where the
/// schedule is cut. The fault of a refused schedule is a line on the faults, and with `json` one of JSON on the output too. The status is 0 where the port conforms; 1 where
/// it differs, where nothing but places and clients is compared, where the schedule is cut, where nothing can be compared for a limit of the bench, for a refused
/// schedule, and for a fault of reading, writing or memory.
pub fn run_conform<I: Source, O: Sink, F: Sink>(
    alloc: Global,
    sparse: bool,
    json: bool,
    input: &mut I,
    output: &mut O,
    faults: &mut F,
) -> u8
    ensures { IfSome (I.remaining input.old) (λ text. Compares sparse json (I.failed input.new) text result (record { output = O.contents output.old; output' = O.contents output.new; broken = O.failed output.new; faults = F.contents faults.old; faults' = F.contents faults.new; faults_broken = F.failed faults.new })) }
{
    let mut text = Vec::new(alloc);
    match read_part(alloc, input, &mut text) {
        Ok((schedule, taken)) => {
            let Ok(comments) = comments_of(alloc, text.as_slice()) else {
                complain_of_memory(faults);
                return 1;
            };
            let session = Session {
                text: text.as_slice(),
                comments: &comments,
                schedule: &schedule,
            };
            judge(alloc, sparse, json, &session, taken, input, output, faults)
        }
        Err(fault) => tell_fault(alloc, json, text.as_slice(), fault, output, faults),
    }
}
