//! Bytes that are ASCII as text.

ghost use Rattle.std.specs.Prelude.{◌≡◌};
ghost use Rattle.std.specs.Str.{IsAscii};

/// The bytes as text. They are not looked at: that each is ASCII is proved where this is called.
pub fn ascii_text(bytes: &[u8]) -> &str
    requires { IsAscii bytes.now }
    ensures { result.now ≡ bytes.now }
{
    // ASCII is UTF-8.
    unsafe { std::str::from_utf8_unchecked(bytes) }
}
