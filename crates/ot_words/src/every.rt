//! The words of `generate --every`: which small sessions they ask for.

ghost use Rattle.std.specs.Prelude.{◌≡◌, [], codes, IfOk, option_map, unwrap_or, vec_items};
ghost use Rattle.clap.specs.Words.{app_of, first_of, found_of, rows_of};
ghost use Rattle.ot_asm.specs.Numbers.{number};
ghost use Rattle.ot_words.specs.Requests.{every_among, every_request, has_every, has_random, is_given, part_of_numbers, part_of_text, part_or_whole, space_among, with_every};

use crate::words::{Request, flagged, is_set, is_within, number_in, valued};
use clap::{ArgMatches, Command};
use ot_asm::read_number;
use ot_every::{Part, Space};
use std::alloc::{AllocError, Global};

// The options of one kind of session alone: each, how its usage names it, and whether it is of all small sessions.
const OPTIONS: [(&str, &str, bool); 7] = [
    ("seed", "seed <N>", false),
    ("present", "present <P>", false),
    ("instructions", "instructions <M>", false),
    ("edits", "edits <E>", true),
    ("inserts", "inserts <K>", true),
    ("letters", "letters <L>", true),
    ("part", "part <I/N>", true),
];

// And the flags.
const FLAGS: [(&str, bool); 3] = [("open", false), ("join", true), ("count", true)];

/// `generate` with the words of all small sessions.
pub fn with_every<'a>(alloc: Global, command: Command<'a>) -> Result<Command<'a>, AllocError>
    ensures { IfOk result (λ c. app_of c ≡ with_every (app_of command.entry)) }
{
    let command = flagged(
        alloc,
        command,
        "every",
        "Print every small session, each with a line '%%' behind it",
    )?;
    let command = valued(
        alloc,
        command,
        "edits",
        "E",
        "With --every: how many edits at most, 0 to 6 [2]",
    )?;
    let command = valued(
        alloc,
        command,
        "inserts",
        "K",
        "With --every: how many insertions in an edit at most, 0 to 8 [1]",
    )?;
    let command = valued(
        alloc,
        command,
        "letters",
        "L",
        "With --every: how many characters in an insertion, 1 to 8 [1]",
    )?;
    let command = flagged(
        alloc,
        command,
        "join",
        "With --every: the last client joins late",
    )?;
    let command = flagged(
        alloc,
        command,
        "count",
        "With --every: print the number of sessions alone",
    )?;
    valued(
        alloc,
        command,
        "part",
        "I/N",
        "With --every: each N-th session alone, from the I-th on [1/1]",
    )
}

// Whether an option was given.
fn is_given(matches: &ArgMatches<'_>, id: &str) -> bool
    ensures { result ≡ is_given id.now (rows_of (found_of matches.now)) }
{
    match matches.get_str(id) {
        Some(_) => true,
        None => false,
    }
}

/// Whether a word was given that only a session made at random has.
pub fn has_random(matches: &ArgMatches<'_>) -> bool
    ensures { result ≡ has_random (rows_of (found_of matches.now)) }
{
    is_given(matches, "seed")
        || is_given(matches, "present")
        || is_given(matches, "instructions")
        || is_set(matches, "open")
}

/// Whether a word was given that only all small sessions have.
pub fn has_every(matches: &ArgMatches<'_>) -> bool
    ensures { result ≡ has_every (rows_of (found_of matches.now)) }
{
    is_given(matches, "edits")
        || is_given(matches, "inserts")
        || is_given(matches, "letters")
        || is_given(matches, "part")
        || is_set(matches, "join")
        || is_set(matches, "count")
}

// The start text, which is empty where none is given.
fn or_empty(alloc: Global, start: Option<Vec<char>>) -> Vec<char>
    ensures { result.items ≡ unwrap_or (option_map vec_items start) [] }
{
    match start {
        Some(start) => start,
        None => Vec::new(alloc),
    }
}

#[tactic(auto, unfolding(crate::specs::Requests::space_among))]
// Which small sessions the matches ask for, with this start text.
fn space_in(alloc: Global, matches: &ArgMatches<'_>, start: Option<Vec<char>>) -> Option<Space>
    ensures { result ≡ space_among (option_map vec_items start) (rows_of (found_of matches.now)) }
{
    let clients = number_in(matches, "clients", 2)?;
    let edits = number_in(matches, "edits", 2)?;
    let inserts = number_in(matches, "inserts", 1)?;
    let letters = number_in(matches, "letters", 1)?;
    let is_join = is_set(matches, "join");
    let start = or_empty(alloc, start);
    Space::new(clients, is_join, start, edits, inserts, letters)
}

// The part of two numbers.
fn part_of_numbers(number: Option<u32>, parts: Option<u32>) -> Option<Part>
    ensures { result ≡ part_of_numbers number parts }
{
    Part::new(number?, parts?)
}

// The number of a text.
fn number_of(text: &str) -> Option<u32>
    ensures { result ≡ number text.now }
{
    read_number(text.as_bytes())
}

// The part of a text I/N.
fn part_of_text(text: &str) -> Option<Part>
    ensures { result ≡ part_of_text text.now }
{
    match text.split_once('/') {
        Some((number, parts)) => {
            let first = number_of(number);
            let second = number_of(parts);
            part_of_numbers(first, second)
        }
        None => None,
    }
}

// The part that the matches ask for, or the whole.
fn part_in(matches: &ArgMatches<'_>) -> Option<Part>
    ensures { result ≡ part_or_whole (first_of (codes "part") (rows_of (found_of matches.now))) }
{
    match matches.get_str("part") {
        Some(text) => part_of_text(text),
        None => Some(Part::whole()),
    }
}

// The sessions of a part, or their number alone.
fn every_request(is_count: bool, space: Space, part: Part) -> Request
    ensures { result ≡ every_request is_count space part }
{
    if is_count {
        Request::CountEvery(space, part)
    } else {
        Request::ListEvery(space, part)
    }
}

#[tactic(auto, unfolding(crate::specs::Requests::every_among))]
/// What the matches ask for, with this start text; none where a number is none, or out of its range.
pub fn every_in(
    alloc: Global,
    matches: &ArgMatches<'_>,
    start: Option<Vec<char>>,
) -> Option<Request>
    ensures { result ≡ every_among (option_map vec_items start) (rows_of (found_of matches.now)) }
{
    let space = space_in(alloc, matches, start)?;
    let part = part_in(matches)?;
    Some(every_request(is_set(matches, "count"), space, part))
}

/// The first word that was given and is not of the kind of session that is asked for, as the usage names it.
pub fn misplaced_option(matches: &ArgMatches<'_>) -> Option<&'static str> {
    let is_every = is_set(matches, "every");
    for (option, name, is_of_every) in OPTIONS {
        if is_of_every != is_every && is_given(matches, option) {
            return Some(name);
        }
    }
    for (flag, is_of_every) in FLAGS {
        if is_of_every != is_every && is_set(matches, flag) {
            return Some(flag);
        }
    }
    None
}

/// The option whose value is not taken, as its usage names it, and what it takes.
pub fn refused_every(matches: &ArgMatches<'_>) -> (&'static str, &'static str, &'static str) {
    if !is_within(matches, "clients", 1, 4) {
        return ("clients", "C", "1 to 4 with --every");
    }
    if !is_within(matches, "edits", 0, 6) {
        return ("edits", "E", "0 to 6");
    }
    if !is_within(matches, "inserts", 0, 8) {
        return ("inserts", "K", "0 to 8");
    }
    if !is_within(matches, "letters", 1, 8) {
        return ("letters", "L", "1 to 8");
    }
    if part_in(matches).is_none() {
        return ("part", "I/N", "two numbers, I from 1 to N");
    }
    ("start", "TEXT", "at most 8 characters with --every")
}
