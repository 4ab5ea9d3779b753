//! The schedule that a text has made so far.

ghost use Rattle.std.specs.Prelude.{◌≡◌, ◌≢◌, ◌⊎◌, ◌<◌, ℕ, Some, Ok, Err, IfOk, IfErr, OnOk, IsErrOf, IsOk};
ghost use Rattle.std.specs.Str.{chars};
ghost use Rattle.serde_json.specs.View.{view};
ghost use Rattle.ot_isa.specs.Program.{IsForClients};
ghost use Rattle.ot_isa.specs.declared.instruction.Instr.TheVariants as instr;
ghost use Rattle.ot_isa.specs.declared.instruction.Instr.{Instr};
ghost use Rattle.ot_json.specs.Reading.{operation_of_data};
ghost use Rattle.ot_asm.specs.declared.keyword.Keyword.TheVariants as word;
ghost use Rattle.ot_asm.specs.Stepping.{Answer, pushed, clients_line, present_line, with_start, start_line, with_edit, edit_line, client_line, with_client, at_end, keyword_line, HidesOnlyJson};
ghost use Rattle.ot_asm.specs.Words.{after_word};

use crate::fault::Kind;
use crate::json_text::read_json;
use crate::keyword::Keyword;
use crate::number::read_number;
use crate::section::Section;
use crate::words::split_word;
use ot_isa::{Builder, CLIENT_LIMIT, INSTR_LIMIT, Instr, PushFault, START_LIMIT, Schedule};
use ot_json::{OpFault, op_of_value, read_plain};
use serde_json::Value;
use std::alloc::Global;
use std::marker::Model;

/// The schedule so far, and where the next line stands.
#[derive(Drop)]
pub struct Body {
    section: Section,
    builder: Builder,
}

impl Model for Body {
    ghost use Rattle.std.specs.Prelude.{◌≡◌};
    ghost use Rattle.ot_asm.specs.Stepping.{BodyView};

    ghost Value = { BodyView };

    ghost view = { λ b. record { section = b.section; program = b.builder.program } };
}

/// The number of a client that begins a text, and what follows it.
fn read_client(clients: u16, rest: &[u8]) -> Result<(u16, &[u8]), Kind>
    ensures below { IfOk result (λ p. p.0 < clients) }
    ensures rest { IfOk result (λ p. p.1.now ≡ after_word rest.now) }
    ensures ok { IfOk result (λ p. (then_do : ℕ → Answer) → with_client clients rest.now then_do ≡ then_do p.0) }
    ensures err { IfErr result (λ k. (then_do : ℕ → Answer) → with_client clients rest.now then_do ≡ Err k) }
    ensures other { IfErr result (λ k. (k ≢ Kind.Memory) × (k ≢ Kind.ReadFault)) }
{
    let (word, after) = split_word(rest);
    match read_number(word) {
        Some(client) => {
            if client < clients as u32 {
                return Ok((client as u16, after));
            }
            Err(Kind::BadClient)
        }
        None => Err(Kind::BadNumber),
    }
}

impl Body {
    /// The line `clients N`.
    pub fn from_clients(alloc: Global, rest: &[u8]) -> Result<Body, Kind>
        ensures ok { IfOk result (λ b. clients_line rest.now ≡ Ok b) }
        ensures err { IfErr result (λ k. (k ≡ Kind.Memory) ⊎ (clients_line rest.now ≡ Err k)) }
        ensures memory { IsErrOf result Kind.Memory → IsOk (clients_line rest.now) }
        ensures other { IfErr result (λ k. k ≢ Kind.ReadFault) }
    {
        let (word, after) = split_word(rest);
        match read_number(word) {
            Some(clients) => {
                if clients < 1 {
                    return Err(Kind::BadClient);
                }
                if clients > CLIENT_LIMIT as u32 {
                    return Err(Kind::BadClient);
                }
                if !after.is_empty() {
                    return Err(Kind::Extra);
                }
                let clients = clients as u16;
                match Builder::new(alloc, clients, &[]) {
                    Ok(builder) => Ok(Body {
                        section: Section::AfterClients,
                        builder,
                    }),
                    Err(_) => Err(Kind::Memory),
                }
            }
            None => Err(Kind::BadNumber),
        }
    }

    /// The schedule so far.
    pub fn finish(self) -> Schedule
        ensures { result ≡ self.program }
    {
        self.builder.finish()
    }

    /// Adds an instruction.
    fn push(&mut self, instr: Instr) -> Result<(), Kind>
        requires { IsForClients self.old.program.clients instr }
        ensures ok { OnOk result (pushed self.old.program instr ≡ Ok self.new) }
        ensures err { IfErr result (λ k. (k ≡ Kind.Memory) ⊎ (pushed self.old.program instr ≡ Err k)) }
        ensures memory { IsErrOf result Kind.Memory → IsOk (pushed self.old.program instr) }
        ensures other { IfErr result (λ k. k ≢ Kind.ReadFault) }
    {
        match self.builder.push(instr) {
            Ok(()) => {
                self.section = Section::InBody;
                Ok(())
            }
            Err((PushFault::TooMany, _)) => Err(Kind::TooMany),
            Err(_) => Err(Kind::Memory),
        }
    }

    /// The line `present P`.
    fn present_line(&mut self, alloc: Global, rest: &[u8]) -> Result<(), Kind>
        ensures ok { OnOk result (present_line self.old.program rest.now ≡ Ok self.new) }
        ensures err { IfErr result (λ k. (k ≡ Kind.Memory) ⊎ (present_line self.old.program rest.now ≡ Err k)) }
        ensures memory { IsErrOf result Kind.Memory → IsOk (present_line self.old.program rest.now) }
        ensures other { IfErr result (λ k. k ≢ Kind.ReadFault) }
    {
        let (word, after) = split_word(rest);
        match read_number(word) {
            Some(present) => {
                if present > self.builder.clients() as u32 {
                    return Err(Kind::BadClient);
                }
                if !after.is_empty() {
                    return Err(Kind::Extra);
                }
                let present = present as u16;
                match Builder::with_present(alloc, self.builder.clients(), present, &[]) {
                    Ok(builder) => {
                        self.section = Section::AfterPresent;
                        self.builder = builder;
                        Ok(())
                    }
                    Err(_) => Err(Kind::Memory),
                }
            }
            None => Err(Kind::BadNumber),
        }
    }

    /// Sets the start text.
    fn set_start(&mut self, alloc: Global, text: &str) -> Result<(), Kind>
        ensures ok { OnOk result (with_start self.old.program (Some (chars text.now)) ≡ Ok self.new) }
        ensures err { IfErr result (λ k. (k ≡ Kind.Memory) ⊎ (with_start self.old.program (Some (chars text.now)) ≡ Err k)) }
        ensures memory { IsErrOf result Kind.Memory → IsOk (with_start self.old.program (Some (chars text.now))) }
        ensures other { IfErr result (λ k. k ≢ Kind.ReadFault) }
    {
        if text.chars().count() > START_LIMIT {
            return Err(Kind::TooLong);
        }
        let start: Vec<char> = match text.chars().collect(alloc) {
            Ok(start) => start,
            Err(_) => return Err(Kind::Memory),
        };
        match Builder::with_present(
            alloc,
            self.builder.clients(),
            self.builder.present(),
            start.as_slice(),
        ) {
            Ok(builder) => {
                self.section = Section::InBody;
                self.builder = builder;
                Ok(())
            }
            Err(_) => Err(Kind::Memory),
        }
    }

    /// The line `start S`.
    fn start_line(&mut self, alloc: Global, rest: &[u8]) -> Result<(), Kind>
        ensures ok { OnOk result (start_line self.old.program rest.now ≡ Ok self.new) }
        ensures err { IfErr result (λ k. (k ≡ Kind.Memory) ⊎ (start_line self.old.program rest.now ≡ Err k)) }
        ensures memory { IsErrOf result Kind.Memory → HidesOnlyJson word.Start (start_line self.old.program rest.now) }
        ensures other { IfErr result (λ k. k ≢ Kind.ReadFault) }
    {
        match read_json(alloc, rest) {
            Ok(Some(value)) => match value.as_str() {
                Some(text) => self.set_start(alloc, text),
                None => Err(Kind::BadText),
            },
            Ok(None) => Err(Kind::BadText),
            Err(_) => Err(Kind::Memory),
        }
    }

    /// Adds an edit by the operation that a JSON value is.
    fn push_edit(&mut self, alloc: Global, client: u16, value: &Value) -> Result<(), Kind>
        requires { client < self.old.program.clients }
        ensures ok { OnOk result (with_edit self.old.program client (operation_of_data (view value.now)) ≡ Ok self.new) }
        ensures err { IfErr result (λ k. (k ≡ Kind.Memory) ⊎ (with_edit self.old.program client (operation_of_data (view value.now)) ≡ Err k)) }
        ensures memory { IsErrOf result Kind.Memory → IsOk (with_edit self.old.program client (operation_of_data (view value.now))) }
        ensures other { IfErr result (λ k. k ≢ Kind.ReadFault) }
    {
        match op_of_value(alloc, value) {
            Ok(op) => self.push(Instr::Edit(client, op)),
            Err(OpFault::TooLong) => Err(Kind::TooLong),
            Err(OpFault::Memory) => {
                if self.builder.instrs().len() >= INSTR_LIMIT {
                    return Err(Kind::TooMany);
                }
                Err(Kind::Memory)
            }
            Err(OpFault::NotJson) => Err(Kind::BadOperation),
            Err(OpFault::NotArray) => Err(Kind::BadOperation),
            Err(OpFault::BadComponent(_)) => Err(Kind::BadOperation),
        }
    }

    /// The line `edit C J`.
    fn edit_line(&mut self, alloc: Global, rest: &[u8]) -> Result<(), Kind>
        ensures ok { OnOk result (edit_line self.old.program rest.now ≡ Ok self.new) }
        ensures err { IfErr result (λ k. (k ≡ Kind.Memory) ⊎ (edit_line self.old.program rest.now ≡ Err k)) }
        ensures memory { IsErrOf result Kind.Memory → HidesOnlyJson word.Edit (edit_line self.old.program rest.now) }
        ensures other { IfErr result (λ k. k ≢ Kind.ReadFault) }
    {
        let (client, after) = read_client(self.builder.clients(), rest)?;
        if let Some(op) = read_plain(alloc, after) {
            return self.push(Instr::Edit(client, op));
        }
        match read_json(alloc, after) {
            Ok(Some(value)) => self.push_edit(alloc, client, &value),
            Ok(None) => Err(Kind::BadOperation),
            Err(_) => Err(Kind::Memory),
        }
    }

    /// The number of a client, where nothing else stands.
    fn only_client(&self, rest: &[u8]) -> Result<u16, Kind>
        ensures below { IfOk result (λ c. c < self.now.program.clients) }
        ensures ok { IfOk result (λ c. (make : ℕ → Instr) → client_line self.now.program rest.now make ≡ pushed self.now.program (make c)) }
        ensures err { IfErr result (λ k. (make : ℕ → Instr) → client_line self.now.program rest.now make ≡ Err k) }
        ensures other { IfErr result (λ k. (k ≢ Kind.Memory) × (k ≢ Kind.ReadFault)) }
    {
        let (client, after) = read_client(self.builder.clients(), rest)?;
        if after.is_empty() {
            return Ok(client);
        }
        Err(Kind::Extra)
    }

    /// The line `take C`.
    fn take_line(&mut self, rest: &[u8]) -> Result<(), Kind>
        ensures ok { OnOk result (client_line self.old.program rest.now instr.Take ≡ Ok self.new) }
        ensures err { IfErr result (λ k. (k ≡ Kind.Memory) ⊎ (client_line self.old.program rest.now instr.Take ≡ Err k)) }
        ensures memory { IsErrOf result Kind.Memory → IsOk (client_line self.old.program rest.now instr.Take) }
        ensures other { IfErr result (λ k. k ≢ Kind.ReadFault) }
    {
        let client = self.only_client(rest)?;
        self.push(Instr::Take(client))
    }

    /// The line `deliver C`.
    fn deliver_line(&mut self, rest: &[u8]) -> Result<(), Kind>
        ensures ok { OnOk result (client_line self.old.program rest.now instr.Deliver ≡ Ok self.new) }
        ensures err { IfErr result (λ k. (k ≡ Kind.Memory) ⊎ (client_line self.old.program rest.now instr.Deliver ≡ Err k)) }
        ensures memory { IsErrOf result Kind.Memory → IsOk (client_line self.old.program rest.now instr.Deliver) }
        ensures other { IfErr result (λ k. k ≢ Kind.ReadFault) }
    {
        let client = self.only_client(rest)?;
        self.push(Instr::Deliver(client))
    }

    /// The line `ack C`.
    fn acknowledge_line(&mut self, rest: &[u8]) -> Result<(), Kind>
        ensures ok { OnOk result (client_line self.old.program rest.now instr.Acknowledge ≡ Ok self.new) }
        ensures err { IfErr result (λ k. (k ≡ Kind.Memory) ⊎ (client_line self.old.program rest.now instr.Acknowledge ≡ Err k)) }
        ensures memory { IsErrOf result Kind.Memory → IsOk (client_line self.old.program rest.now instr.Acknowledge) }
        ensures other { IfErr result (λ k. k ≢ Kind.ReadFault) }
    {
        let client = self.only_client(rest)?;
        self.push(Instr::Acknowledge(client))
    }

    /// The line `read C`.
    fn read_line(&mut self, rest: &[u8]) -> Result<(), Kind>
        ensures ok { OnOk result (client_line self.old.program rest.now instr.Read ≡ Ok self.new) }
        ensures err { IfErr result (λ k. (k ≡ Kind.Memory) ⊎ (client_line self.old.program rest.now instr.Read ≡ Err k)) }
        ensures memory { IsErrOf result Kind.Memory → IsOk (client_line self.old.program rest.now instr.Read) }
        ensures other { IfErr result (λ k. k ≢ Kind.ReadFault) }
    {
        let client = self.only_client(rest)?;
        self.push(Instr::Read(client))
    }

    /// The line `join C`.
    fn join_line(&mut self, rest: &[u8]) -> Result<(), Kind>
        ensures ok { OnOk result (client_line self.old.program rest.now instr.Join ≡ Ok self.new) }
        ensures err { IfErr result (λ k. (k ≡ Kind.Memory) ⊎ (client_line self.old.program rest.now instr.Join ≡ Err k)) }
        ensures memory { IsErrOf result Kind.Memory → IsOk (client_line self.old.program rest.now instr.Join) }
        ensures other { IfErr result (λ k. k ≢ Kind.ReadFault) }
    {
        let client = self.only_client(rest)?;
        self.push(Instr::Join(client))
    }

    /// The line `read-server`.
    fn read_server_line(&mut self, rest: &[u8]) -> Result<(), Kind>
        ensures ok { OnOk result (at_end rest.now (pushed self.old.program instr.ReadServer) ≡ Ok self.new) }
        ensures err { IfErr result (λ k. (k ≡ Kind.Memory) ⊎ (at_end rest.now (pushed self.old.program instr.ReadServer) ≡ Err k)) }
        ensures memory { IsErrOf result Kind.Memory → IsOk (at_end rest.now (pushed self.old.program instr.ReadServer)) }
        ensures other { IfErr result (λ k. k ≢ Kind.ReadFault) }
    {
        if rest.is_empty() {
            return self.push(Instr::ReadServer);
        }
        Err(Kind::Extra)
    }

    /// A line below the clients', by its keyword.
    pub fn keyword_line(&mut self, alloc: Global, keyword: Keyword, rest: &[u8]) -> Result<(), Kind>
        ensures ok { OnOk result (keyword_line self.old keyword rest.now ≡ Ok self.new) }
        ensures err { IfErr result (λ k. (k ≡ Kind.Memory) ⊎ (keyword_line self.old keyword rest.now ≡ Err k)) }
        ensures memory { IsErrOf result Kind.Memory → HidesOnlyJson keyword (keyword_line self.old keyword rest.now) }
        ensures other { IfErr result (λ k. k ≢ Kind.ReadFault) }
    {
        match keyword {
            Keyword::Present => match self.section {
                Section::AfterClients => self.present_line(alloc, rest),
                Section::AfterPresent => Err(Kind::UnknownWord),
                Section::InBody => Err(Kind::UnknownWord),
            },
            Keyword::Start => match self.section {
                Section::AfterClients => self.start_line(alloc, rest),
                Section::AfterPresent => self.start_line(alloc, rest),
                Section::InBody => Err(Kind::UnknownWord),
            },
            Keyword::Edit => self.edit_line(alloc, rest),
            Keyword::Take => self.take_line(rest),
            Keyword::Deliver => self.deliver_line(rest),
            Keyword::Acknowledge => self.acknowledge_line(rest),
            Keyword::Read => self.read_line(rest),
            Keyword::Join => self.join_line(rest),
            Keyword::ReadServer => self.read_server_line(rest),
            Keyword::Clients => Err(Kind::UnknownWord),
            Keyword::Other => Err(Kind::UnknownWord),
        }
    }
}
