//! The lines of a run, and what they have under each key.

ghost use Rattle.std.specs.Prelude.{◌≡◌, ◌++◌, ◌<◌, ℕ, length, IfOk, IfSome, OnOk, option_map, string_bytes};
ghost use Rattle.ot_isa.specs.Program.{IsForClients};
ghost use Rattle.ot_isa.specs.Tagging.{chars_of};
ghost use Rattle.ot_steps.specs.Held.{IsHeld, is_read, messages, operations, printed_of, step_printed, step_whole, value_of, whole_of};
ghost use Rattle.ot_steps.specs.Lines.{word_of};
ghost use Rattle.ot_steps.specs.Steps as steps;
ghost use Rattle.ot_machine.specs.Effects.{client_in};
ghost use Rattle.ot_steps.specs.Steps.{buffer_of, document_in, edit_of, last_of, message_if, named, outstanding_of, revision_at};
ghost use Rattle.ot_steps.specs.Text.{Op, end_text, fields_of, fields_text, line_text, value_at, word_text};

use crate::key::{KEYS, Key, key_head};
use crate::operations::push_decimal;
use crate::value::Value;
use ot_client::{Client, Sent};
use ot_isa::{Instr, Schedule, Tagged};
use ot_machine::{Machine, Refusal};
use ot_text::{Doc, TextOp};
use ot_values::{phase_name, refusal_name};
use std::alloc::{AllocError, Global};

// The room, in bytes, for a line when it is begun. Most lines are shorter, so they need no other allocation.
const USUAL: usize = 256;

/// An instruction that was performed.
#[derive(Clone, Copy)]
pub struct Step<'a> {
    /// The machine after it.
    pub machine: &'a Machine,
    /// The place after it.
    pub at: usize,
    pub instr: &'a Instr,
    /// Whether it put a message on its client's link to the server, as the machine's `Effect` says.
    pub sent: bool,
    /// The operation that a delivery applied, as the machine's `Effect` says.
    pub delivered: Option<&'a TextOp<Tagged>>,
}

/// An instruction that was not performed.
#[derive(Clone, Copy)]
pub struct Stop<'a> {
    /// The place where the run stands.
    pub at: usize,
    pub instr: &'a Instr,
    pub refusal: Refusal,
}

/// A line of a run.
#[derive(Clone, Copy)]
pub enum Line<'a> {
    Opening(&'a Schedule),
    Step(Step<'a>),
    Stop(Stop<'a>),
    /// The end, at the last place.
    End { at: usize, quiet: bool },
}

/// The instruction's word, as a schedule spells it.
pub fn word(instr: &Instr) -> &'static str
    ensures { result.now ≡ word_text (word_of instr.now) }
{
    match instr {
        Instr::Edit(..) => "edit",
        Instr::Take(_) => "take",
        Instr::Deliver(_) => "deliver",
        Instr::Acknowledge(_) => "ack",
        Instr::Join(_) => "join",
        Instr::Read(_) => "read",
        Instr::ReadServer => "read-server",
    }
}

// What is said of the end.
fn end_name(quiet: bool) -> &'static str
    ensures { result.now ≡ end_text quiet }
{
    if quiet { "quiet" } else { "not quiet" }
}

/// The client whose state an instruction's line has; none where it has the server's.
pub fn placed_client(instr: &Instr) -> Option<u16>
    ensures value { result ≡ steps.placed_client instr.now }
    ensures there { (clients : ℕ) → IsForClients clients instr.now → IfSome result (λ c. c < clients) }
{
    match instr {
        Instr::Edit(client, _) => Some(*client),
        Instr::Deliver(client) => Some(*client),
        Instr::Acknowledge(client) => Some(*client),
        Instr::Join(client) => Some(*client),
        Instr::Read(client) => Some(*client),
        Instr::Take(_) => None,
        Instr::ReadServer => None,
    }
}

/// The client's outstanding operation, if there is one.
pub fn outstanding(machine: &Machine, client: u16) -> Option<&TextOp<Tagged>>
    requires { client < length machine.now.clients }
    ensures { operations result ≡ outstanding_of (client_in machine.now client).phase }
{
    if !machine.joined(client) {
        return None;
    }
    match machine.client(client) {
        Client::Synchronized(_) => None,
        Client::AwaitingConfirm(client) => Some(client.outstanding()),
        Client::AwaitingWithBuffer(client) => Some(client.outstanding()),
    }
}

/// The client's buffer, if it has one.
pub fn buffer(machine: &Machine, client: u16) -> Option<&TextOp<Tagged>>
    requires { client < length machine.now.clients }
    ensures { operations result ≡ buffer_of (client_in machine.now client).phase }
{
    if !machine.joined(client) {
        return None;
    }
    match machine.client(client) {
        Client::Synchronized(_) => None,
        Client::AwaitingConfirm(_) => None,
        Client::AwaitingWithBuffer(client) => Some(client.buffer()),
    }
}

/// The last operation of the log, if there is one.
pub fn last_operation(machine: &Machine) -> Option<&TextOp<Tagged>>
    ensures { operations result ≡ last_of machine.now.log }
{
    let revision = machine.server_revision();
    if revision == 0 {
        return None;
    }
    Some(machine.entry(revision - 1)?.operation())
}

// Whether it is a read, which moves nobody.
fn is_read(instr: &Instr) -> bool
    ensures { result ≡ is_read instr.now }
{
    matches!(instr, Instr::Read(_) | Instr::ReadServer)
}

// A read and a join have a document always.
fn has_document(instr: &Instr) -> bool
    ensures { result ≡ steps.has_document instr.now }
{
    matches!(instr, Instr::Join(_) | Instr::Read(_) | Instr::ReadServer)
}

// The edit that the instruction is.
fn edit_value(instr: &Instr) -> Option<Value<'_>>
    ensures { option_map value_of result ≡ option_map Op (edit_of instr.now) }
{
    match instr {
        Instr::Edit(_, op) => Some(Value::Edit(op)),
        _ => None,
    }
}

// What says which instruction it is.
fn named_value(at: usize, instr: &Instr, key: Key) -> Option<Value<'_>>
    ensures { option_map value_of result ≡ value_at key (named at instr.now) }
{
    match key {
        Key::At => Some(Value::Number(at as u64)),
        Key::Do => Some(Value::Name(word(instr))),
        Key::Client => Some(Value::Number(instr.client()? as u64)),
        Key::Edit => edit_value(instr),
        _ => None,
    }
}

impl<'a> Step<'a> {
    fn revision(&self) -> usize
        requires { IsForClients (length self.now.machine.now.clients) self.now.instr.now }
        ensures { result ≡ revision_at self.now.machine.now (steps.placed_client self.now.instr.now) }
    {
        match placed_client(self.instr) {
            Some(client) => self.machine.revision(client) as usize,
            None => self.machine.server_revision(),
        }
    }

    // The message that it put on its client's link to the server.
    fn message(&self) -> Option<&'a Sent<Tagged>>
        requires { IsForClients (length self.now.machine.now.clients) self.now.instr.now }
        ensures { messages result ≡ message_if self.now.sent self.now.machine.now self.now.instr.now }
    {
        if !self.sent {
            return None;
        }
        let client = self.instr.client()?;
        self.machine.up(client)
    }

    // The document of the one that moved or was read.
    fn document(&self) -> &'a Doc<Tagged>
        requires { IsForClients (length self.now.machine.now.clients) self.now.instr.now }
        ensures { chars_of result.now ≡ document_in self.now.machine.now self.now.instr.now }
    {
        match placed_client(self.instr) {
            Some(client) => self.machine.document(client),
            None => self.machine.server_document(),
        }
    }

    // What the run has under a key.
    fn value(&self, key: Key) -> Option<Value<'a>>
        requires { IsForClients (length self.now.machine.now.clients) self.now.instr.now }
        ensures { option_map value_of result ≡ value_at key (step_whole self.now) }
    {
        match key {
            Key::Revision => Some(Value::Number(self.revision() as u64)),
            Key::State => {
                let client = placed_client(self.instr)?;
                Some(Value::Name(phase_name(self.machine.phase(client))))
            }
            Key::Outstanding => {
                let client = placed_client(self.instr)?;
                Some(Value::Operation(outstanding(self.machine, client)?))
            }
            Key::Buffer => {
                let client = placed_client(self.instr)?;
                Some(Value::Operation(buffer(self.machine, client)?))
            }
            Key::Sent => Some(Value::Message(self.message()?)),
            Key::SentRevision => Some(Value::Number(self.message()?.revision as u64)),
            Key::SentOperation => Some(Value::Operation(&self.message()?.op)),
            Key::Applied => match self.instr {
                Instr::Edit(_, op) => Some(Value::Edit(op)),
                _ => Some(Value::Operation(self.delivered?)),
            },
            Key::Appended => match self.instr {
                Instr::Take(_) => Some(Value::Operation(last_operation(self.machine)?)),
                _ => None,
            },
            Key::Document => Some(Value::Document(self.document())),
            _ => named_value(self.at, self.instr, key),
        }
    }

    // What is printed of it under a key.
    fn printed(&self, key: Key, documents: bool) -> Option<Value<'a>>
        requires { IsForClients (length self.now.machine.now.clients) self.now.instr.now }
        ensures { option_map value_of result ≡ value_at key (step_printed documents self.now) }
    {
        match key {
            Key::Clients | Key::Present | Key::Start | Key::Stopped | Key::End => None,
            Key::Revision | Key::State | Key::Outstanding | Key::Buffer if is_read(self.instr) => {
                None
            }
            Key::Applied => Some(Value::Operation(self.delivered?)),
            Key::Document if !has_document(self.instr) && !documents => None,
            _ => self.value(key),
        }
    }
}

// What the opening has under a key.
fn opening_value(schedule: &Schedule, key: Key) -> Option<Value<'_>>
    ensures { option_map value_of result ≡ value_at key (steps.opening_line schedule.now) }
{
    match key {
        Key::At => Some(Value::Number(0)),
        Key::Clients => Some(Value::Number(schedule.clients() as u64)),
        Key::Present => Some(Value::Number(schedule.present() as u64)),
        Key::Start => Some(Value::Letters(schedule.start())),
        _ => None,
    }
}

// What a stop has under a key.
fn stop_value<'a>(stop: &Stop<'a>, key: Key) -> Option<Value<'a>>
    ensures { option_map value_of result ≡ value_at key (steps.stop_line stop.now.at stop.now.instr.now stop.now.refusal) }
{
    match key {
        Key::Stopped => Some(Value::Name(refusal_name(stop.refusal))),
        _ => named_value(stop.at, stop.instr, key),
    }
}

// What the end has under a key.
fn end_value<'a>(at: usize, quiet: bool, key: Key) -> Option<Value<'a>>
    ensures { option_map value_of result ≡ value_at key (steps.end_line at quiet) }
{
    match key {
        Key::At => Some(Value::Number(at as u64)),
        Key::End => Some(Value::Name(end_name(quiet))),
        _ => None,
    }
}

// Adds those of these keys that the line prints, with their values.
fn push_fields(
    alloc: Global,
    text: &mut String,
    keys: &[Key],
    line: &Line<'_>,
    documents: bool,
) -> Result<(), AllocError>
    requires { IsHeld line.now }
    ensures { OnOk result (string_bytes text.new ≡ string_bytes text.old ++ fields_text (fields_of keys.now (printed_of documents line.now))) }
{
    for key in keys {
        if let Some(value) = line.printed(*key, documents) {
            text.push_str(key_head(*key))?;
            value.push(alloc, text)?;
        }
    }
    Ok(())
}

impl<'a> Line<'a> {
    /// The line of an instruction that was performed, of these parts.
    pub fn step(
        machine: &'a Machine,
        at: usize,
        instr: &'a Instr,
        sent: bool,
        delivered: Option<&'a TextOp<Tagged>>,
    ) -> Line<'a>
        ensures { result ≡ Line.Step (record { machine = machine.entry; at = at; instr = instr.entry; sent = sent; delivered = delivered.entry }) }
    {
        Line::Step(Step {
            machine,
            at,
            instr,
            sent,
            delivered,
        })
    }

    /// The place that it has.
    pub fn place(&self) -> usize
        ensures { result ≡ (whole_of self.now).at }
    {
        match self {
            Line::Opening(_) => 0,
            Line::Step(step) => step.at,
            Line::Stop(stop) => stop.at,
            Line::End { at, .. } => *at,
        }
    }

    /// What the run has under a key, if it has something.
    pub fn value(&self, key: Key) -> Option<Value<'a>>
        requires { IsHeld self.now }
        ensures { option_map value_of result ≡ value_at key (whole_of self.now) }
    {
        match self {
            Line::Opening(schedule) => opening_value(schedule, key),
            Line::Step(step) => step.value(key),
            Line::Stop(stop) => stop_value(stop, key),
            Line::End { at, quiet } => end_value(*at, *quiet, key),
        }
    }

    /// What of that is printed, with the document of each instruction that is performed or without. A read prints no revision, state and operations, an edit
    /// no operation that was applied.
    pub fn printed(&self, key: Key, documents: bool) -> Option<Value<'a>>
        requires { IsHeld self.now }
        ensures { option_map value_of result ≡ value_at key (printed_of documents self.now) }
    {
        match self {
            Line::Step(step) => step.printed(key, documents),
            _ => self.value(key),
        }
    }

    /// Writes the line and LF into the text, instead of what that held. After running out of memory the text holds a part of it.
    pub(crate) fn write(
        &self,
        alloc: Global,
        text: &mut String,
        documents: bool,
    ) -> Result<(), AllocError>
        requires { IsHeld self.now }
        ensures { OnOk result (string_bytes text.new ≡ line_text (printed_of documents self.now)) }
    {
        text.clear();
        text.push_str("{\"at\":")?;
        push_decimal(text, self.place() as u64)?;
        push_fields(alloc, text, &KEYS, self, documents)?;
        text.push_str("}\n")
    }

    /// The line as it is printed, and LF.
    pub fn text(&self, alloc: Global, documents: bool) -> Result<String, AllocError>
        requires { IsHeld self.now }
        ensures { IfOk result (λ s. string_bytes s ≡ line_text (printed_of documents self.now)) }
    {
        let mut text = String::with_capacity(alloc, USUAL)?;
        self.write(alloc, &mut text, documents)?;
        Ok(text)
    }
}
