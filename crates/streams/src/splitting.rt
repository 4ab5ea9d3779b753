//! Where a line ends.

ghost use Rattle.std.specs.Prelude.{◌≡◌, ◌++◌, ◌∷◌, true, None, IfSome};
ghost use Rattle.streams.specs.Lines.{lacks};

use memchr::memchr;

/// The bytes before the first LF, and those after it, if there is one.
pub fn split_line(text: &[u8]) -> Option<(&[u8], &[u8])>
    ensures some { IfSome result (λ p. (lacks p.0.now ≡ true) × (text.now ≡ p.0.now ++ 10 ∷ p.1.now)) }
    ensures none { result ≡ None → lacks text.now ≡ true }
{
    match memchr(b'\n', text) {
        Some(at) => {
            let (line, rest) = text.split_at(at);
            let (_, below) = rest.split_at(1);
            Some((line, below))
        }
        None => None,
    }
}
