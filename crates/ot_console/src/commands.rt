//! From a line to a command.

ghost use Rattle.std.specs.Prelude.{◌≡◌};
ghost use Rattle.ot_console.specs.Commands.{bare_command, command_of, counted_command, three_words, two_words, watched};

use ot_asm::{read_number, split_word, trimmed};
use ot_debug::{Command, Watched};

// The command that one word is.
fn bare_command(word: &[u8]) -> Option<Command>
    ensures { result ≡ bare_command word.now }
{
    if word == b"run".as_slice() {
        return Some(Command::Run);
    }
    if word == b"unwatch".as_slice() {
        return Some(Command::Unwatch);
    }
    if word == b"where".as_slice() {
        return Some(Command::Position);
    }
    if word == b"show".as_slice() {
        return Some(Command::Show);
    }
    None
}

// The command that a word and a number are.
fn counted_command(word: &[u8], number: u32) -> Option<Command>
    ensures { result ≡ counted_command word.now number }
{
    if word == b"step".as_slice() {
        return Some(Command::Step(number));
    }
    if word == b"back".as_slice() {
        return Some(Command::Back(number));
    }
    if word == b"break".as_slice() {
        return Some(Command::Break(number));
    }
    if word == b"clear".as_slice() {
        return Some(Command::Clear(number));
    }
    None
}

// What a word and a client's number say to watch.
fn watched(word: &[u8], client: u32) -> Option<Watched>
    ensures { result ≡ watched word.now client }
{
    if word == b"doc".as_slice() {
        return Some(Watched::Doc(client));
    }
    if word == b"state".as_slice() {
        return Some(Watched::State(client));
    }
    None
}

// The command that two words are.
fn two_words(word: &[u8], next: &[u8]) -> Option<Command>
    ensures { result ≡ two_words word.now next.now }
{
    if word == b"watch".as_slice() {
        if next == b"server".as_slice() {
            return Some(Command::Watch(Watched::ServerRevision));
        }
        return None;
    }
    match read_number(next) {
        Some(number) => counted_command(word, number),
        None => None,
    }
}

// The command that three words are.
fn three_words(word: &[u8], next: &[u8], last: &[u8]) -> Option<Command>
    ensures { result ≡ three_words word.now next.now last.now }
{
    if word != b"watch".as_slice() {
        return None;
    }
    match read_number(last) {
        Some(client) => match watched(next, client) {
            Some(watched) => Some(Command::Watch(watched)),
            None => None,
        },
        None => None,
    }
}

/// The command that a line is, if it is one: `run`, `step N`, `back N`, `break N`, `clear N`, `watch doc C`,
/// `watch state C`, `watch server`, `unwatch`, `where` or `show`, its words separated by spaces or tabs, and its numbers
/// of one to nine decimal digits. One CR at the line's end and blanks at both ends do not count.
pub fn read_command(line: &[u8]) -> Option<Command>
    ensures { result ≡ command_of line.now }
{
    let (word, rest) = split_word(trimmed(line));
    if rest.is_empty() {
        return bare_command(word);
    }
    let (next, rest) = split_word(rest);
    if rest.is_empty() {
        return two_words(word, next);
    }
    let (last, rest) = split_word(rest);
    if rest.is_empty() {
        return three_words(word, next, last);
    }
    None
}
