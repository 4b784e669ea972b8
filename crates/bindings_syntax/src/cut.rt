//! Cutting a text at the first of a character.

ghost use Rattle.std.specs.Prelude.{◌≡◌, ◌<◌, length, option_map, IfSome};
ghost use Rattle.bindings_syntax.specs.Cuts.{cut_at};

/// The text before the first of an ASCII character, and the text after it.
pub(crate) fn cut(text: &str, mark: char) -> Option<(&str, &str)>
    requires { mark < 128 }
    ensures parts { option_map (λ p.
        (p.0.now, p.1.now)) result ≡ cut_at mark text.now }
    ensures shorter { IfSome result
        (λ p. length p.1.now < length text.now) }
{
    text.split_once(mark)
}
