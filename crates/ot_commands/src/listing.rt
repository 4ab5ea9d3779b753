//! `generate --every`: every small session, or how many they are.
//!
//! ```text
//!    Space, Part ── visit_part ──▶ Printer ──▶ head    clients, present, start
//!                       │                      lines   one for each instruction
//!                       │                      foot    the reads, and the line %%
//!                       └────────▶ Counter ──▶ their number
//! ```
//!
//! [`list_sessions`] writes each session as soon as it is made: memory does not grow with the listing. `specs/Listed.antt` says what is
//! written, over the sessions of `ot_every`.

ghost use Rattle.std.specs.Prelude.{◌≡◌, ◌-◌, ◌^◌, length, min, string_bytes, true, IfErr, IfOk, OnErr, OnOk};
ghost use Rattle.std.specs.Io.KnownBytes.{Appends};
ghost use Rattle.ot_every.specs.Parts.{sessions_in};
ghost use Rattle.ot_every.specs.declared.visitor.Stop.TheVariants.{Output};
ghost use Rattle.ot_commands.specs.Listed.{count_text, foot_text, head_text, piece, sessions_text, Counts, IsPrinter, Lists, WritesFirst};

use ot_asm::{disassemble, push_instr};
use ot_every::{Part, Space, Stop, Visitor, visit_part};
use ot_isa::{Builder, Instr, OpeningFault};
use std::alloc::{AllocError, Global};
use streams::{Sink, complain_of_memory, give};

// Writes each session, between what stands before its instructions and what stands behind them.
#[derive(Drop)]
struct Printer {
    alloc: Global,
    head: String,
    foot: String,
}

// The text of a session.
fn session_text(printer: &Printer, session: &[Instr]) -> Result<String, AllocError>
    ensures { IfOk result (λ text. string_bytes text ≡ piece printer.now session.now) }
{
    let alloc = printer.alloc;
    let mut text = String::from_str(alloc, printer.head.as_str())?;
    for place in 0..session.len() {
        let instr = &session[place];
        push_instr(alloc, &mut text, instr)?;
    }
    text.push_str(printer.foot.as_str())?;
    Ok(text)
}

impl<O: Sink> Visitor<O> for Printer {
    ghost use Rattle.std.specs.Prelude.{◌≡◌, true};
    ghost use Rattle.ot_commands.specs.Listed.{Prints, PrintsPart};

    ghost visits = { λ v o session w q. Prints v session w (O.contents o) (O.contents q) };

    ghost stops = { λ v o session w q. PrintsPart v session (O.failed q) (O.contents o) (O.contents q) };

    ghost failed = { λ o. O.failed o ≡ true };

    fn visit(&mut self, session: &[Instr], output: &mut O) -> Result<(), Stop> {
        let text = session_text(self, session)?;
        match output.put(text.as_bytes()) {
            Ok(()) => Ok(()),
            Err(_) => Err(Stop::Output),
        }
    }
}

// What stands before the instructions of each session.
fn head(alloc: Global, space: &Space) -> Result<String, AllocError>
    ensures { IfOk result (λ s. string_bytes s ≡ head_text space.now) }
{
    let opening = Builder::with_present(alloc, space.clients(), space.present(), space.start());
    match opening {
        Ok(builder) => {
            let schedule = builder.finish();
            disassemble(alloc, &schedule)
        }
        Err(OpeningFault::Memory) => Err(AllocError),
        Err(OpeningFault::BadClient) => unreachable!(),
        Err(OpeningFault::TooLong) => unreachable!(),
    }
}

// What stands behind them.
fn foot(alloc: Global, space: &Space) -> Result<String, AllocError>
    ensures { IfOk result (λ s. string_bytes s ≡ foot_text space.now) }
{
    let mut text = String::new(alloc);
    for client in 0..space.clients() {
        push_instr(alloc, &mut text, &Instr::Read(client))?;
    }
    push_instr(alloc, &mut text, &Instr::ReadServer)?;
    text.push_str("%%\n")?;
    Ok(text)
}

fn printer_for(alloc: Global, space: &Space) -> Result<Printer, AllocError>
    ensures { IfOk result (IsPrinter space.now) }
{
    let head = head(alloc, space)?;
    let foot = foot(alloc, space)?;
    Ok(Printer { alloc, head, foot })
}

// Writes each session of the part.
fn print_sessions<O: Sink>(
    alloc: Global,
    space: &Space,
    part: &Part,
    output: &mut O,
) -> Result<(), Stop>
    ensures ok { OnOk result (Appends (O.contents output.old) (O.contents output.new) (sessions_text space.now (sessions_in space.now part.now))) }
    ensures err { OnErr result (WritesFirst space.now part.now (O.failed output.new) (O.contents output.old) (O.contents output.new)) }
    ensures cause { IfErr result (λ stop. stop ≡ Output → O.failed output.new ≡ true) }
{
    let printer = printer_for(alloc, space)?;
    visit_part(alloc, space, part, printer, output)?;
    Ok(())
}

/// Writes each session of the part, in order, as its canonical text with the reads at its end, and behind each a line `%%`. The status is 0; 1 where writing failed, after
/// a first part of this text, or memory ran out, after the first sessions.
pub fn list_sessions<O: Sink, F: Sink>(
    alloc: Global,
    space: &Space,
    part: &Part,
    output: &mut O,
    faults: &mut F,
) -> u8
    ensures { Lists space.now part.now result (record { output = O.contents output.old; output' = O.contents output.new; broken = O.failed output.new; faults = F.contents faults.old; faults' = F.contents faults.new; faults_broken = F.failed faults.new }) }
{
    match print_sessions(alloc, space, part, output) {
        Ok(()) => 0,
        Err(Stop::Output) => 1,
        Err(Stop::Memory) => {
            complain_of_memory(faults);
            1
        }
    }
}

// Counts the sessions.
#[derive(Drop)]
struct Counter {
    count: u64,
}

impl Visitor<()> for Counter {
    ghost use Rattle.ot_commands.specs.Listed.{next_count};
    ghost use Rattle.std.specs.Prelude.{◌≡◌, ⊤};

    ghost visits = { λ v o session w q. w.count ≡ next_count v.count };

    ghost stops = { λ v o session w q. ⊤ };

    ghost failed = { λ o. ⊥ };

    fn visit(&mut self, _session: &[Instr], _output: &mut ()) -> Result<(), Stop> {
        self.count = self.count.saturating_add(1);
        Ok(())
    }
}

// The number of the part's sessions.
fn counted(alloc: Global, space: &Space, part: &Part) -> Result<u64, AllocError>
    ensures { IfOk result (λ n. n ≡ min (length (sessions_in space.now part.now)) (2 ^ 64 - 1)) }
{
    let mut output = ();
    match visit_part(alloc, space, part, Counter { count: 0 }, &mut output) {
        Ok(counter) => Ok(counter.count),
        Err(_) => Err(AllocError),
    }
}

// That number as a line.
fn count_line(alloc: Global, space: &Space, part: &Part) -> Result<String, AllocError>
    ensures { IfOk result (λ s. string_bytes s ≡ count_text space.now part.now) }
{
    let count = counted(alloc, space, part)?;
    format!(in alloc; "{count}\n")
}

/// Writes how many sessions the part has, and a line end.
pub fn count_sessions<O: Sink, F: Sink>(
    alloc: Global,
    space: &Space,
    part: &Part,
    output: &mut O,
    faults: &mut F,
) -> u8
    ensures { Counts space.now part.now result (record { output = O.contents output.old; output' = O.contents output.new; broken = O.failed output.new; faults = F.contents faults.old; faults' = F.contents faults.new; faults_broken = F.failed faults.new }) }
{
    match count_line(alloc, space, part) {
        Ok(line) => give(line.as_bytes(), 0, output),
        Err(_) => {
            complain_of_memory(faults);
            1
        }
    }
}
