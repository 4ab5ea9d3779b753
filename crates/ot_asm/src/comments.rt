//! What the comments of a schedule's text tell.

ghost use Rattle.std.specs.Prelude.{◌≡◌, ◌==◌, ◌++◌, get_or, length, map, not, [], IfOk, OnOk, is_some, option_map};
ghost use Rattle.ot_asm.specs.Comments.{behind_colon, behind_sign, client_in, comment_words, comments_of, cut_text, cut_words, is_cut, is_quoted, name_in, nothing_said, with_name, with_words};

use crate::number::read_number;
use crate::plain::shown;
use crate::words::{split_word, trimmed};
use ot_isa::CLIENT_LIMIT;
use std::alloc::{AllocError, Global};
use std::marker::Model;
use streams::split_line;

fn behind_sign(line: &[u8]) -> &[u8]
    ensures { result.now ≡ behind_sign line.now }
{
    match line.split_first() {
        Some((first, words)) => { if *first == b';' { trimmed(words) } else { &[] } }
        None => &[],
    }
}

// The words of a comment; none of another line.
fn comment_words(line: &[u8]) -> &[u8]
    ensures { result.now ≡ comment_words line.now }
{
    behind_sign(trimmed(line))
}

// The client that a comment names.
fn client_in(words: &[u8]) -> Option<u32>
    ensures { result ≡ client_in words.now }
{
    let (client, behind) = split_word(words);
    let (number, behind) = split_word(behind);
    let (is, _) = split_word(behind);
    if client == b"client".as_slice() && is == b"is".as_slice() {
        read_number(number)
    } else {
        None
    }
}

// What it calls the client.
fn name_in(words: &[u8]) -> &[u8]
    ensures { result.now ≡ name_in words.now }
{
    let (_, behind) = split_word(words);
    let (_, behind) = split_word(behind);
    let (_, behind) = split_word(behind);
    behind
}

fn is_quoted(words: &[u8]) -> bool
    ensures { result ≡ is_quoted words.now }
{
    match words.split_first() {
        Some((first, _)) => *first == b'"',
        None => false,
    }
}

// Whether a comment tells of a cut.
fn is_cut(words: &[u8]) -> bool
    ensures { result ≡ is_cut words.now }
{
    let (word, behind) = split_word(words);
    word == b"cut:".as_slice() && is_quoted(behind)
}

// Puts a name at its place.
fn set_name(
    alloc: Global,
    names: &mut Vec<Vec<u8>>,
    client: usize,
    name: Vec<u8>,
) -> Result<(), AllocError>
    ensures { OnOk result (map (λ v. v.items) names.new.items ≡ with_name (map (λ v. v.items) names.old.items) client name.items) }
{
    while names.len() <= client {
        names.push(Vec::new(alloc))?;
    }
    names[client] = name;
    Ok(())
}

/// What the comments of a schedule's text tell. Contracts see the names by client, and what is said of the cut.
#[derive(Drop)]
pub struct Comments {
    names: Vec<Vec<u8>>,
    cut: Option<Vec<u8>>,
}

impl Model for Comments {
    ghost use Rattle.std.specs.Prelude.{map, option_map};
    ghost use Rattle.ot_asm.specs.Comments.{Said};

    ghost Value = { Said };

    ghost view = { λ c. record { names = map (λ v. v.items) c.names.items; cut = option_map (λ v. v.items) c.cut } };
}

impl Comments {
    /// Nothing is told. It takes no memory.
    fn new(alloc: Global) -> Comments
        ensures { result ≡ nothing_said }
    {
        Comments {
            names: Vec::new(alloc),
            cut: None,
        }
    }

    // Adds a comment with these words.
    fn add(&mut self, alloc: Global, words: &[u8]) -> Result<(), AllocError>
        ensures { OnOk result (self.new ≡ with_words self.old words.now) }
    {
        // Most lines are no comments.
        if words.is_empty() {
            return Ok(());
        }
        match client_in(words) {
            Some(client) => {
                if client < CLIENT_LIMIT as u32 {
                    let name = shown(alloc, name_in(words))?;
                    set_name(alloc, &mut self.names, client as usize, name)?;
                }
            }
            None => {
                if is_cut(words) {
                    let (_, behind) = split_word(words);
                    self.cut = Some(shown(alloc, behind)?);
                }
            }
        }
        Ok(())
    }

    /// The name of a client; empty where it has none.
    pub fn name(&self, client: u32) -> &[u8]
        ensures { result.now ≡ get_or self.now.names client [] }
    {
        match self.names.get(client as usize) {
            Some(name) => name.as_slice(),
            None => &[],
        }
    }

    /// Whether a comment names a client. If none does, [`named`](crate::named) changes nothing.
    pub fn has_names(&self) -> bool
        ensures { result ≡ not (length self.now.names == 0) }
    {
        !self.names.is_empty()
    }

    /// What is said of the cut, if the recorded session went on after the schedule's last instruction; empty where that cannot be shown.
    pub fn cut(&self) -> Option<&[u8]>
        ensures { option_map (λ words. words.now) result ≡ self.now.cut }
    {
        match &self.cut {
            Some(words) => Some(words.as_slice()),
            None => None,
        }
    }

    /// Whether the recorded session went on after the schedule's last instruction.
    pub fn is_cut(&self) -> bool
        ensures { result ≡ is_some self.now.cut }
    {
        self.cut.is_some()
    }
}

/// What the comments of a text tell; or out of memory.
pub fn comments_of(alloc: Global, text: &[u8]) -> Result<Comments, AllocError>
    ensures { IfOk result (λ comments. comments ≡ comments_of text.now) }
{
    let mut comments = Comments::new(alloc);
    let mut rest = text;
    while let Some((line, below)) = split_line(rest) {
        comments.add(alloc, comment_words(line))?;
        rest = below;
    }
    comments.add(alloc, comment_words(rest))?;
    Ok(comments)
}

// Adds words behind a colon, if there are some.
fn push_behind_colon(text: &mut Vec<u8>, words: &[u8]) -> Result<(), AllocError>
    ensures { OnOk result (text.new.items ≡ text.old.items ++ behind_colon words.now) }
{
    match words.split_first() {
        Some(_) => {
            text.extend_from_slice(b": ".as_slice())?;
            text.extend_from_slice(words)?;
            Ok(())
        }
        None => Ok(()),
    }
}

// Adds the line that tells of a cut of which this is said.
fn push_cut_words(text: &mut Vec<u8>, words: &[u8]) -> Result<(), AllocError>
    ensures { OnOk result (text.new.items ≡ text.old.items ++ cut_words words.now) }
{
    text.extend_from_slice(b"the schedule ends before its logs".as_slice())?;
    push_behind_colon(text, words)?;
    text.extend_from_slice(b"\n".as_slice())?;
    Ok(())
}

/// Adds the line that tells of the cut, if there is one.
pub fn push_cut(text: &mut Vec<u8>, comments: &Comments) -> Result<(), AllocError>
    ensures { OnOk result (text.new.items ≡ text.old.items ++ cut_text comments.now.cut) }
{
    match &comments.cut {
        Some(words) => push_cut_words(text, words.as_slice()),
        None => Ok(()),
    }
}
