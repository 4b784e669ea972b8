//! Examples of what the definitions give on small caches, worked by hand.

ghost use Rattle.std.specs.Prelude.{◌≡◌, [], Some, None, codes};
ghost use Rattle.text_cache.specs.TextCaches.{find, texts_of, bytes_of, AreBounded, FitsAlone, HasRoom};
ghost use Rattle.text_cache.specs.Examples.{two_texts, two_limits, three_limits};

/// A text is found by all its bytes, and by no part of them.
pub fn found_by_hand()
    ensures first { find two_texts (codes "ab") ≡ Some 1 }
    ensures second { find two_texts (codes "abc") ≡ Some 2 }
    ensures part { find two_texts (codes "a") ≡ None }
    ensures longer { find two_texts (codes "abcd") ≡ None }
    ensures empty { find two_texts [] ≡ None }
    ensures bytes { bytes_of (texts_of two_texts) ≡ 5 }
{}

/// At the limits there is no room; a text more, or a byte less, and there is.
pub fn bounded_by_hand()
    ensures full { AreBounded two_limits (texts_of two_texts) }
    ensures more { HasRoom two_limits (texts_of two_texts) [] → ⊥ }
    ensures room { HasRoom three_limits (texts_of two_texts) (codes "d") }
    ensures long { HasRoom three_limits (texts_of two_texts) (codes "de") → ⊥ }
    ensures alone { FitsAlone two_limits (codes "abcde") }
    ensures never { FitsAlone two_limits (codes "abcdef") → ⊥ }
{}
