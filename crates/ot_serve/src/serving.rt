//! The whole program over any streams.

ghost use Rattle.std.specs.Prelude.{◌≡◌, ◌⊎◌, List, ℕ, IfSome, map};
ghost use Rattle.streams.specs.Streams.{Writes};
ghost use Rattle.clap.specs.Values.{kind_of};
ghost use Rattle.clap.specs.declared.error.kind.ErrorKind.TheVariants.{OutOfMemory};
ghost use Rattle.streams.specs.Outcomes.{memory_fault};
ghost use Rattle.ot_words.specs.declared.words.Request.TheVariants.{Run};
ghost use Rattle.ot_serve.specs.Served.{Serves, ServesAsked, ServesWords};

use clap::Error;
use clap::error::ErrorKind;
use ot_commands::{
    assemble, check_text, complete_text, count_sessions, debug_text, disassemble_image,
    explain_outlook, explain_plan, explain_trace, generate_session, judge_input, list_sessions,
    run_conform, run_conform_many, run_explain, run_explain_image, run_image, run_steps, run_text,
};
use ot_threads::run_threads;
use ot_words::{Asked, Form, Request, Subject, read_request};
use std::alloc::Global;
use std::convert::AsStr;
use std::sync::Wait;
use std::thread::Threads;
use streams::{Sink, Source, complain, complain_of_memory};

// Writes `clap`'s text where the words gave no subcommand.
fn no_matches<F: Sink>(alloc: Global, error: &Error, faults: &mut F) -> u8
    ensures text { result ≡ 2 → (text : List ℕ) × Writes (F.contents faults.old) (F.contents faults.new) (F.failed faults.new) text }
    ensures memory { ((result ≡ 1) × Writes (F.contents faults.old) (F.contents faults.new) (F.failed faults.new) memory_fault) ⊎ (result ≡ 2) }
    ensures kind { kind_of error.now ≡ OutOfMemory → result ≡ 1 }
{
    if error.kind() == ErrorKind::OutOfMemory {
        complain_of_memory(faults);
        return 1;
    }
    match error.to_string(alloc) {
        Ok(text) => {
            complain(faults, text.as_str());
            2
        }
        Err(_) => {
            complain_of_memory(faults);
            1
        }
    }
}

// Runs a schedule of that form.
fn run_form<I: Source, O: Sink, F: Sink>(
    alloc: Global,
    form: Form,
    json: bool,
    input: &mut I,
    output: &mut O,
    faults: &mut F,
) -> u8
    ensures { IfSome (I.remaining input.old) (λ text. Serves (Run form json) (I.failed input.new) text result (record { output = O.contents output.old; output' = O.contents output.new; broken = O.failed output.new; faults = F.contents faults.old; faults' = F.contents faults.new; faults_broken = F.failed faults.new })) }
{
    match form {
        Form::Text => run_text(alloc, json, input, output, faults),
        Form::Image => run_image(alloc, json, input, output, faults),
    }
}

// Carries out a subcommand that needs no handle.
fn carry_out<I: Source, O: Sink, F: Sink>(
    alloc: Global,
    request: Request,
    input: &mut I,
    output: &mut O,
    faults: &mut F,
) -> u8
    ensures { IfSome (I.remaining input.old) (λ text. Serves request (I.failed input.new) text result (record { output = O.contents output.old; output' = O.contents output.new; broken = O.failed output.new; faults = F.contents faults.old; faults' = F.contents faults.new; faults_broken = F.failed faults.new })) }
{
    match request {
        Request::Run { form, json } => run_form(alloc, form, json, input, output, faults),
        Request::Check { all, json } => check_text(alloc, all, json, input, output, faults),
        Request::Debug => debug_text(alloc, input, output, faults),
        Request::Assemble => assemble(alloc, input, output, faults),
        Request::Disassemble => disassemble_image(alloc, input, output, faults),
        Request::Judge(json) => judge_input(alloc, json, input, output, faults),
        Request::Steps(documents) => run_steps(alloc, documents, input, output, faults),
        Request::Explain(Subject::Schedule) => run_explain(alloc, input, output, faults),
        Request::Explain(Subject::Outlook) => explain_outlook(alloc, input, output, faults),
        Request::Explain(Subject::Image) => run_explain_image(alloc, input, output, faults),
        Request::Explain(Subject::Trace) => explain_trace(alloc, input, output, faults),
        Request::Explain(Subject::Plan) => explain_plan(alloc, input, output, faults),
        Request::Conform { sparse, json } => {
            run_conform(alloc, sparse, json, input, output, faults)
        }
        Request::ConformMany { all, sparse, json } => {
            run_conform_many(alloc, all, sparse, json, input, output, faults)
        }
        Request::Complete => complete_text(alloc, input, output, faults),
        Request::Generate(seed, shape) => generate_session(alloc, seed, &shape, output, faults),
        Request::ListEvery(space, part) => list_sessions(alloc, &space, &part, output, faults),
        Request::CountEvery(space, part) => count_sessions(alloc, &space, &part, output, faults),
    }
}

// Carries out what was asked for; `threads` alone may wait.
fn serve_asked<R: Threads + Wait + Sync, I: Source, O: Sink, F: Sink>(
    rt: &R,
    alloc: Global,
    asked: Asked,
    input: &mut I,
    output: &mut O,
    faults: &mut F,
) -> u8
    ensures { IfSome (I.remaining input.old) (λ text. ServesAsked asked (I.failed input.new) text result (record { output = O.contents output.old; output' = O.contents output.new; broken = O.failed output.new; faults = F.contents faults.old; faults' = F.contents faults.new; faults_broken = F.failed faults.new })) }
{
    match asked {
        Asked::Plainly(request) => carry_out(alloc, request, input, output, faults),
        Asked::Threads => run_threads(rt, alloc, input, output, faults),
    }
}

/// Does what the words ask for (the program's name is the first of them), and answers the status: 0 where it was done; 1 for a refused
/// input, a refused instruction, a verdict against a trace or a trace that is too large, a bad command, or a fault of reading, writing or
/// memory, or of a plan's workers; 2 where the words ask for no subcommand, or for help. Only `threads` waits; every other subcommand
/// returns, whatever its input.
pub fn serve<
    'a,
    R: Alloc<A = Global> + Threads + Wait + Sync,
    S: AsStr,
    I: Source,
    O: Sink,
    F: Sink,
>(rt: &R, words: &'a [S], input: &mut I, output: &mut O, faults: &mut F) -> u8
    ensures { IfSome (I.remaining input.old) (λ text. ServesWords (map S.text words.entry.now) (I.failed input.new) text result (record { output = O.contents output.old; output' = O.contents output.new; broken = O.failed output.new; faults = F.contents faults.old; faults' = F.contents faults.new; faults_broken = F.failed faults.new })) }
{
    let alloc = rt.alloc();
    match read_request(alloc, words) {
        Ok(asked) => serve_asked(rt, alloc, asked, input, output, faults),
        Err(error) => no_matches(alloc, &error, faults),
    }
}
