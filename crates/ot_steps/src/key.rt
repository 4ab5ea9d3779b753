//! The keys of a line.

ghost use Rattle.std.specs.Prelude.{◌≡◌, ◌++◌, ◌∷◌, []};
ghost use Rattle.ot_steps.specs.Text.{key_text};

/// A key of a line, or a part of the message under `sent`.
#[derive(Clone, Copy, Debug, PartialEq, Eq)]
pub enum Key {
    At,
    Clients,
    Present,
    Start,
    Do,
    Client,
    Edit,
    Stopped,
    Revision,
    State,
    Outstanding,
    Buffer,
    Sent,
    SentRevision,
    SentOperation,
    Applied,
    Appended,
    Document,
    End,
}

/// The keys behind the place, in the order in which a line has them.
pub const KEYS: [Key; 16] = [
    Key::Clients,
    Key::Present,
    Key::Start,
    Key::Do,
    Key::Client,
    Key::Edit,
    Key::Stopped,
    Key::Revision,
    Key::State,
    Key::Outstanding,
    Key::Buffer,
    Key::Sent,
    Key::Applied,
    Key::Appended,
    Key::Document,
    Key::End,
];

/// How a key is spelled.
pub fn key_text(key: Key) -> &'static str
    ensures { result.now ≡ key_text key }
{
    match key {
        Key::At => "at",
        Key::Clients => "clients",
        Key::Present => "present",
        Key::Start => "start",
        Key::Do => "do",
        Key::Client => "client",
        Key::Edit => "edit",
        Key::Stopped => "stopped",
        Key::Revision => "revision",
        Key::State => "state",
        Key::Outstanding => "outstanding",
        Key::Buffer => "buffer",
        Key::Sent => "sent",
        Key::SentRevision => "revision",
        Key::SentOperation => "operation",
        Key::Applied => "applied",
        Key::Appended => "appended",
        Key::Document => "document",
        Key::End => "end",
    }
}

/// A key behind a comma, before its value.
pub(crate) fn key_head(key: Key) -> &'static str
    ensures { result.now ≡ 44 ∷ 34 ∷ (key_text key ++ 34 ∷ 58 ∷ []) }
{
    match key {
        Key::At => ",\"at\":",
        Key::Clients => ",\"clients\":",
        Key::Present => ",\"present\":",
        Key::Start => ",\"start\":",
        Key::Do => ",\"do\":",
        Key::Client => ",\"client\":",
        Key::Edit => ",\"edit\":",
        Key::Stopped => ",\"stopped\":",
        Key::Revision => ",\"revision\":",
        Key::State => ",\"state\":",
        Key::Outstanding => ",\"outstanding\":",
        Key::Buffer => ",\"buffer\":",
        Key::Sent => ",\"sent\":",
        Key::SentRevision => ",\"revision\":",
        Key::SentOperation => ",\"operation\":",
        Key::Applied => ",\"applied\":",
        Key::Appended => ",\"appended\":",
        Key::Document => ",\"document\":",
        Key::End => ",\"end\":",
    }
}
