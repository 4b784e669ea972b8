//! Equality of texts, of which most are short.
ghost use Rattle.std.specs.Prelude.{◌≡◌, bytes_eq, length};

/// Number of bytes from which texts are compared by words.
const WORD: usize = 8;

// Tells whether lists of one length have the same bytes.
fn are_same_bytes(one: &[u8], other: &[u8]) -> bool
    requires { length one.now ≡ length other.now }
    ensures { result ≡ bytes_eq one.now other.now }
{
    for i in 0..one.len() {
        if one[i] != other[i] {
            return false;
        }
    }
    true
}

/// Tells whether two texts have the same bytes. Texts of few bytes are compared byte by byte, which takes fewer steps than `==`.
#[inline]
pub fn is_same_text(one: &str, other: &str) -> bool
    ensures { result ≡ bytes_eq one.now other.now }
{
    if one.len() != other.len() {
        return false;
    }
    if other.len() < WORD {
        return are_same_bytes(one.as_bytes(), other.as_bytes());
    }
    one == other
}
