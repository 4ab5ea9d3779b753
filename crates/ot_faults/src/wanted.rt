//! What is wanted where a line is at fault.

ghost use Rattle.std.specs.Prelude.{◌≡◌};
ghost use Rattle.ot_faults.specs.Faults.{range_of, wanted_of};
ghost use Rattle.ot_faults.specs.Nearest.{word_text};

use crate::reached::{Reached, Stage};
use ot_asm::Kind;
use ot_isa::CLIENT_LIMIT;

/// The first word of a line.
#[derive(Clone, Copy, Debug, PartialEq, Eq)]
pub enum Word {
    Clients,
    Present,
    Start,
    Edit,
    Take,
    Deliver,
    Acknowledge,
    Read,
    ReadServer,
    Join,
}

/// What is wanted at a place of a line.
#[derive(Clone, Copy, Debug, PartialEq, Eq)]
pub enum Wanted {
    /// UTF-8.
    Utf8,
    /// A word that may begin a line at this stage.
    Words(Stage),
    /// A number from the first to the second.
    Number(u32, u32),
    /// A JSON string.
    Text,
    /// A text of at most 40,000 characters.
    StartText,
    Operation,
    /// An operation with lengths of at most 1,000,000.
    Lengths,
    /// At most 100,000 instructions.
    Instructions,
    /// The end of the line.
    End,
}

/// How a word is spelled.
pub(crate) fn word_text(word: Word) -> &'static str
    ensures { result.now ≡ word_text word }
{
    match word {
        Word::Clients => "clients",
        Word::Present => "present",
        Word::Start => "start",
        Word::Edit => "edit",
        Word::Take => "take",
        Word::Deliver => "deliver",
        Word::Acknowledge => "ack",
        Word::Read => "read",
        Word::ReadServer => "read-server",
        Word::Join => "join",
    }
}

// The numbers that may stand behind a line's first word, where there are so many clients.
fn range_of(word: &[u8], clients: u32) -> Wanted
    ensures { result ≡ range_of word.now clients }
{
    if word == b"clients".as_slice() {
        return Wanted::Number(1, CLIENT_LIMIT as u32);
    }
    if word == b"present".as_slice() {
        return Wanted::Number(0, clients);
    }
    Wanted::Number(0, clients.saturating_sub(1))
}

/// What is wanted of a line with this first word, by the kind of its fault; `is_text` says that the line is UTF-8.
pub(crate) fn wanted_of(kind: Kind, reached: Reached, word: &[u8], is_text: bool) -> Wanted
    ensures { result ≡ wanted_of kind reached word.now is_text }
{
    match kind {
        Kind::BadText => { if is_text { Wanted::Text } else { Wanted::Utf8 } }
        Kind::NoClients => Wanted::Words(Stage::Opening),
        Kind::UnknownWord => Wanted::Words(reached.stage),
        Kind::BadNumber | Kind::BadClient => range_of(word, reached.clients),
        Kind::BadOperation => Wanted::Operation,
        Kind::Extra => Wanted::End,
        Kind::TooLong => {
            if word == b"start".as_slice() {
                Wanted::StartText
            } else {
                Wanted::Lengths
            }
        }
        Kind::TooMany | Kind::Memory | Kind::ReadFault => Wanted::Instructions,
    }
}
