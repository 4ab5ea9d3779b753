//! Who inserted the characters of documents.

ghost use Rattle.std.specs.Prelude.{◌≡◌, ◌++◌, replicate, IfOk, OnOk};
ghost use Rattle.ot_report.specs.Authors.{author_in, inserted_by, inserters, AllHaveAuthors, AreInserters, EditsAreAuthors};

use ot_isa::{Instr, Schedule, Tag};
use std::alloc::{AllocError, Global};
use std::marker::Model;

/// The edit that inserted a character.
#[derive(Clone, Copy, Debug, PartialEq, Eq)]
pub struct Author {
    /// Whose edit it is.
    pub client: u16,
    /// Its number among the schedule's instructions, from 0.
    pub instruction: u32,
}

/// For each client the instructions that insert its characters, one for each character, in the order of serial numbers.
#[derive(Drop)]
pub(crate) struct Authors {
    inserters: Vec<Vec<u32>>,
}

impl Model for Authors {
    ghost use Rattle.std.specs.Prelude.{ℕ, List, map};

    ghost Value = { List (List ℕ) };

    ghost view = { λ a. map (λ v. v.items) a.inserters.items };
}

impl Authors {
    /// Of no client.
    pub(crate) fn none(alloc: Global) -> Authors {
        Authors {
            inserters: Vec::new(alloc),
        }
    }

    /// Of a schedule. Four bytes for each character that its edits insert.
    pub(crate) fn of(alloc: Global, schedule: &Schedule) -> Result<Authors, AllocError>
        ensures { IfOk result (λ a. AreInserters schedule.now.instrs a) }
    {
        let mut inserters = Vec::new(alloc);
        for client in 0..schedule.clients() {
            let numbers = inserters_of(alloc, schedule, client)?;
            inserters.push(numbers)?;
        }
        Ok(Authors { inserters })
    }

    /// The author of a tag; none of the start text's.
    pub(crate) fn author(&self, tag: Tag) -> Option<Author>
        ensures { result ≡ author_in self.now tag }
    {
        let numbers = self.inserters.get(tag.origin as usize)?;
        let instruction = numbers.get(tag.serial as usize).copied()?;
        Some(Author {
            client: tag.origin,
            instruction,
        })
    }
}

// Adds a number so many times.
fn push_times(numbers: &mut Vec<u32>, number: u32, times: usize) -> Result<(), AllocError>
    ensures { OnOk result (numbers.new.items ≡ numbers.old.items ++ replicate times number) }
{
    for _ in 0..times {
        numbers.push(number)?;
    }
    Ok(())
}

// How many characters an instruction inserts as this client.
fn inserted_by(client: u16, instr: &Instr) -> usize
    ensures { result ≡ inserted_by client instr.now }
{
    match instr {
        Instr::Edit(maker, op) if *maker == client => op.inserted(),
        _ => 0,
    }
}

// The instructions that insert the characters of a client.
fn inserters_of(alloc: Global, schedule: &Schedule, client: u16) -> Result<Vec<u32>, AllocError>
    ensures { IfOk result (λ v. v.items ≡ inserters client 0 schedule.now.instrs) }
{
    // For the proof: the type invariant of schedules.
    let _clients = schedule.clients();
    let mut numbers = Vec::new(alloc);
    for place in 0..schedule.len() {
        let Some(instr) = schedule.get(place) else {
            unreachable!()
        };
        push_times(&mut numbers, place as u32, inserted_by(client, instr))?;
    }
    Ok(numbers)
}

/// In every run, what stands in a client's document after an edit of this client, and not before it, has this edit as its author. And each
/// character that stands in a document, a client's or the server's, is of the start text, which has no author, or has as its author an edit that was performed before,
/// of the client that is its tag's origin.
pub fn edits_are_authors()
    ensures edits { EditsAreAuthors }
    ensures all { AllHaveAuthors }
{}
