//! Plans.

ghost use Rattle.std.specs.Prelude.{◌≡◌};
ghost use Rattle.ot_plan.specs.Plan.{IsPlan};
ghost use Rattle.ot_plan.specs.Typing.{typing_view};

use crate::typing::Typing;
use std::marker::Model;

/// How many clients and workers there are, which text they start with, and what each client's user types: 1 to 64 clients, of
/// whom the first 0 to all are present, 1 to 8 workers, a start text of at most 40,000 characters, and for each client at most
/// 1,000 actions that insert at most 15,000 characters together, each number in them at most 1,000,000.
#[derive(Drop)]
pub struct Plan {
    pub(crate) clients: u16,
    pub(crate) workers: usize,
    pub(crate) present: u16,
    pub(crate) start: Vec<char>,
    pub(crate) typing: Vec<Vec<Typing>>,
}

impl Model for Plan {
    ghost use Rattle.ot_plan.specs.Plan.{PlanView, IsPlan};
    ghost use Rattle.ot_plan.specs.Typing.{typing_view};

    ghost Value = { PlanView };

    ghost view = { λ p. record { clients = p.clients; workers = p.workers; present = p.present; start = p.start.items; typing = typing_view p.typing.items } };

    ghost invariant = { λ p. IsPlan (record { clients = p.clients; workers = p.workers; present = p.present; start = p.start.items; typing = typing_view p.typing.items }) };
}

impl Plan {
    /// How many clients there are, 1 to 64. The call also gives its caller the type invariant of plans.
    pub fn clients(&self) -> u16
        ensures value { result ≡ self.now.clients }
        ensures limits { IsPlan self.now }
    {
        self.clients
    }

    /// How many workers there are, 1 to 8.
    pub fn workers(&self) -> usize
        ensures { result ≡ self.now.workers }
    {
        self.workers
    }

    /// How many clients, the first ones, are present from the start: 0 to `clients`.
    pub fn present(&self) -> u16
        ensures { result ≡ self.now.present }
    {
        self.present
    }

    /// The start text, at most 40,000 characters.
    pub fn start(&self) -> &[char]
        ensures { result.now ≡ self.now.start }
    {
        self.start.as_slice()
    }

    /// What each client's user types, by client.
    pub fn typing(&self) -> &[Vec<Typing>]
        ensures { typing_view result.now ≡ self.now.typing }
    {
        self.typing.as_slice()
    }
}
