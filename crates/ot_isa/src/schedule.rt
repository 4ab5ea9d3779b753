//! Schedules, which are finished.

ghost use Rattle.std.specs.Prelude.{◌≡◌, ◌≤◌, ◌↔◌, length, IfSome, IsTrue, Some, None, slice_get};
ghost use Rattle.ot_isa.specs.Program.{IsProgram};

use crate::instruction::Instr;
use std::marker::Model;

/// Clients, a start text and instructions within the limits: 1 to 64 clients, of whom the first 0 to all are present
/// at the start, at most 40,000 characters and 100,000 instructions, each of clients that are there and of operations
/// within their limits.
#[derive(Drop)]
pub struct Schedule {
    pub(crate) clients: u16,
    pub(crate) present: u16,
    pub(crate) start: Vec<char>,
    pub(crate) instrs: Vec<Instr>,
}

impl Model for Schedule {
    ghost use Rattle.ot_isa.specs.Program.{Program, IsProgram};

    ghost Value = { Program };

    ghost view = { λ s. record { clients = s.clients; present = s.present; start = s.start.items; instrs = s.instrs.items } };

    ghost invariant = { λ s. IsProgram (record { clients = s.clients; present = s.present; start = s.start.items; instrs = s.instrs.items }) };
}

impl Schedule {
    /// How many clients there are, 1 to 64. The call also gives its caller the type invariant of schedules.
    pub fn clients(&self) -> u16
        ensures value { result ≡ self.now.clients }
        ensures limits { IsProgram self.now }
    {
        self.clients
    }

    /// How many of them, the first ones, are there from the start: 0 to `clients`.
    pub fn present(&self) -> u16
        ensures { result ≡ self.now.present }
    {
        self.present
    }

    /// The start text, at most 40,000 characters.
    pub fn start(&self) -> &[char]
        ensures { result.now ≡ self.now.start }
    {
        self.start.as_slice()
    }

    /// How many instructions there are, at most 100,000.
    pub fn len(&self) -> usize
        ensures { result ≡ length self.now.instrs }
    {
        self.instrs.len()
    }

    /// The instruction at a place, counted from 0; `None` from `len` on.
    pub fn get(&self, place: usize) -> Option<&Instr>
        ensures some { IfSome result (λ instr. slice_get self.now.instrs place ≡ Some instr.now) }
        ensures none { result ≡ None → length self.now.instrs ≤ place }
    {
        self.instrs.get(place)
    }

    /// Whether the two schedules say the same: clients, present ones, start text and instructions.
    pub fn equals(&self, other: &Schedule) -> bool
        ensures { IsTrue result ↔ (self.now ≡ other.now) }
    {
        self.len() == other.len()
            && self.clients == other.clients
            && self.present == other.present
            && self.start.as_slice() == other.start.as_slice()
            && same_instrs(self.instrs.as_slice(), other.instrs.as_slice())
    }
}

fn same_instrs(a: &[Instr], b: &[Instr]) -> bool
    ensures { IsTrue result ↔ (a.now ≡ b.now) }
{
    if a.len() != b.len() {
        return false;
    }
    for i in 0..a.len() {
        if !a[i].equals(&b[i]) {
            return false;
        }
    }
    true
}
