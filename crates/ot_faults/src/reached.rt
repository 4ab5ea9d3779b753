//! What the lines before a line make.

ghost use Rattle.std.specs.Prelude.{◌≡◌};
ghost use Rattle.streams.specs.Lines.{lines_of};
ghost use Rattle.ot_asm.specs.Numbers as numbers;
ghost use Rattle.ot_asm.specs.Words.{counts};
ghost use Rattle.ot_faults.specs.Reached.{counted, line_at, next_clients, next_stage, number_or_zero, opening, passed, reached_at};

use ot_asm::{read_number, split_word, trimmed};
use streams::split_line;

/// Where in a schedule a line stands: above `clients`, below it, below `present`, or below these and the start text.
#[derive(Clone, Copy, Debug, PartialEq, Eq)]
pub enum Stage {
    Opening,
    AfterClients,
    AfterPresent,
    InBody,
}

/// What lines make of a schedule: where the next line stands, and how many clients there are.
#[derive(Clone, Copy, Debug, PartialEq, Eq)]
pub struct Reached {
    pub stage: Stage,
    pub clients: u32,
}

// Whether a line, once trimmed, is neither blank nor a comment.
fn counts(line: &[u8]) -> bool
    ensures { result ≡ counts line.now }
{
    match line.split_first() {
        Some((first, _)) => *first != b';',
        None => false,
    }
}

fn next_stage(stage: Stage, word: &[u8]) -> Stage
    ensures { result ≡ next_stage stage word.now }
{
    match stage {
        Stage::Opening => Stage::AfterClients,
        Stage::AfterClients if word == b"present".as_slice() => Stage::AfterPresent,
        _ => Stage::InBody,
    }
}

// The number that a word is.
fn number_or_zero(word: &[u8]) -> u32
    ensures { result ≡ number_or_zero (numbers.number word.now) }
{
    match read_number(word) {
        Some(number) => number,
        None => 0,
    }
}

// How many clients there are behind a line with these words behind its first one.
fn next_clients(reached: Reached, line: &[u8]) -> u32
    ensures { result ≡ next_clients reached.stage reached.clients line.now }
{
    let (_, behind) = split_word(line);
    let (word, _) = split_word(behind);
    match reached.stage {
        Stage::Opening => number_or_zero(word),
        _ => reached.clients,
    }
}

// Behind a line that counts.
fn counted(reached: Reached, line: &[u8]) -> Reached
    ensures { result ≡ counted reached line.now }
{
    let (word, _) = split_word(line);
    Reached {
        stage: next_stage(reached.stage, word),
        clients: next_clients(reached, line),
    }
}

// Behind one line more.
fn passed(reached: Reached, line: &[u8]) -> Reached
    ensures { result ≡ passed reached line.now }
{
    let line = trimmed(line);
    if counts(line) {
        counted(reached, line)
    } else {
        reached
    }
}

/// The bytes before the first LF, or all.
pub(crate) fn first_line(text: &[u8]) -> &[u8]
    ensures { result.now ≡ line_at (lines_of text.now) 1 }
{
    match split_line(text) {
        Some((line, _)) => line,
        None => text,
    }
}

/// What the lines before that of this number make, and that line; nothing where the text has not so many.
pub(crate) fn find_line(text: &[u8], number: u64) -> (Reached, &[u8])
    ensures reached { result.0 ≡ reached_at (lines_of text.now) number }
    ensures line { result.1.now ≡ line_at (lines_of text.now) number }
{
    let mut reached = Reached {
        stage: Stage::Opening,
        clients: 0,
    };
    let mut rest = text;
    let mut above = number.saturating_sub(1);
    while above > 0 {
        let Some((line, below)) = split_line(rest) else {
            return (passed(reached, rest), &[]);
        };
        reached = passed(reached, line);
        rest = below;
        above -= 1;
    }
    (reached, first_line(rest))
}
