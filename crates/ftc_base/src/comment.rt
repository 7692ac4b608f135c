//! Lines of a text that say nothing.

ghost use Rattle.std.specs.Prelude.{◌≡◌};
ghost use Rattle.ftc_base.specs.Comment.{is_comment};

/// Whether a line that begins with the word is a comment.
pub fn is_comment(first: &[u8]) -> bool
    ensures { result ≡ is_comment first.now }
{
    match first {
        [b, ..] => *b == b'#',
        [] => false,
    }
}
