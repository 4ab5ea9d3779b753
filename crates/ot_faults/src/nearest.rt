//! The nearest of the words that may begin a line.

ghost use Rattle.std.specs.Prelude.{◌≡◌, IfOk, length};
ghost use Rattle.std.specs.Str.{chars};
ghost use Rattle.ot_faults.specs.Nearest.{first_near, first_within, may_be_near, nearest_among, words_at};

use crate::reached::Stage;
use crate::wanted::{Word, word_text};
use std::alloc::{AllocError, Global};
use strsim::osa_distance;

/// The words that may begin a line above `clients`, below it, below `present`, and below these and the start text.
const OPENING: [Word; 1] = [Word::Clients];

const AFTER_CLIENTS: [Word; 9] = [
    Word::Present,
    Word::Start,
    Word::Edit,
    Word::Take,
    Word::Deliver,
    Word::Acknowledge,
    Word::Read,
    Word::ReadServer,
    Word::Join,
];

const AFTER_PRESENT: [Word; 8] = [
    Word::Start,
    Word::Edit,
    Word::Take,
    Word::Deliver,
    Word::Acknowledge,
    Word::Read,
    Word::ReadServer,
    Word::Join,
];

const IN_BODY: [Word; 7] = [
    Word::Edit,
    Word::Take,
    Word::Deliver,
    Word::Acknowledge,
    Word::Read,
    Word::ReadServer,
    Word::Join,
];

// The first of the words at most so far.
fn first_within(
    alloc: Global,
    most: usize,
    found: &str,
    words: &[Word],
) -> Result<Option<Word>, AllocError>
    ensures { IfOk result (λ w. w ≡ first_within most found.now words.now) }
{
    for word in words {
        if osa_distance(alloc, found, word_text(*word))? <= most {
            return Ok(Some(*word));
        }
    }
    Ok(None)
}

// How many characters a text has.
fn char_count(text: &str) -> usize
    ensures { result ≡ length (chars text.now) }
{
    text.chars().count()
}

// Whether a text of so many characters may be so far from a word that is meant.
fn may_be_near(most: usize, count: usize) -> bool
    ensures { result ≡ may_be_near most count }
{
    most <= count / 2 && count <= 16
}

// The first of the words at most so far, where one may be.
fn first_near(
    alloc: Global,
    most: usize,
    found: &str,
    words: &[Word],
) -> Result<Option<Word>, AllocError>
    ensures { IfOk result (λ w. w ≡ first_near most found.now words.now) }
{
    if may_be_near(most, char_count(found)) {
        first_within(alloc, most, found, words)
    } else {
        Ok(None)
    }
}

// The first of the nearest words.
fn nearest_among(alloc: Global, found: &str, words: &[Word]) -> Result<Option<Word>, AllocError>
    ensures { IfOk result (λ w. w ≡ nearest_among found.now words.now) }
{
    match first_near(alloc, 1, found, words)? {
        Some(word) => Ok(Some(word)),
        None => first_near(alloc, 2, found, words),
    }
}

/// The word that may begin a line at this stage and is nearest to what stands there, if one is near.
pub(crate) fn nearest_at(
    alloc: Global,
    stage: Stage,
    found: &str,
) -> Result<Option<Word>, AllocError>
    ensures { IfOk result (λ w. w ≡ nearest_among found.now (words_at stage)) }
{
    match stage {
        Stage::Opening => nearest_among(alloc, found, &OPENING),
        Stage::AfterClients => nearest_among(alloc, found, &AFTER_CLIENTS),
        Stage::AfterPresent => nearest_among(alloc, found, &AFTER_PRESENT),
        Stage::InBody => nearest_among(alloc, found, &IN_BODY),
    }
}
