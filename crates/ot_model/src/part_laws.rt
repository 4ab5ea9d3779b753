//! The laws of sessions off the table, each as the contract of a function that does nothing.

ghost use Rattle.ot_model.specs.SessionLaws.{PartBegins, PresentSound, RunsGoOn, SendsOnce, SessionBlock, SessionSound, SessionWaits, SessionsGoOn};

/// A client's part begins its client where it was made.
pub fn part_begins()
    ensures { PartBegins }
{}

/// A session's steps are one block of the table: wherever the session's start begins its client, the
/// table performs them one after the other, whatever came since the start was copied, and shows what
/// the session showed.
pub fn session_block()
    ensures { SessionBlock }
{}

/// A part goes on beginning its client while others make steps of their own, clients join, anyone
/// reads, and the server takes messages, also that of the part's client.
pub fn session_waits()
    ensures { SessionWaits }
{}

/// What a session leaves is sound where it is installed.
pub fn session_sound()
    ensures { SessionSound }
{}

/// A session's present part is its client as it is in some sound state, so no call of a client finds
/// its condition broken.
pub fn present_sound()
    ensures { PresentSound }
{}

/// A session sends only where nothing of its client is under way, so what it sends finds the link to
/// the server empty.
pub fn sends_once()
    ensures { SendsOnce }
{}

/// A performed row on the present part is one step more.
pub fn sessions_go_on()
    ensures { SessionsGoOn }
{}

/// Runs follow one another.
pub fn runs_go_on()
    ensures { RunsGoOn }
{}
