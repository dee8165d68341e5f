// Where separators stand.
ghost use Rattle.std.specs.Prelude.{MatchOption};
ghost use Rattle.text.specs.Lines.{Free, Cut};

pub(crate) const NEWLINE: u8 = b'\n';

pub(crate) const SPACE: u8 = b' ';

// What stands before the first separator, and what stands behind it.
pub(crate) fn cut(bytes: &[u8], separator: u8) -> Option<(&[u8], &[u8])>
    ensures { MatchOption result (Free separator bytes.now) (λ parts. Cut separator bytes.now parts.0.now parts.1.now) }
{
    let at = bytes.iter().position(|b| *b == separator)?;
    Some((&bytes[..at], &bytes[at + 1..]))
}
