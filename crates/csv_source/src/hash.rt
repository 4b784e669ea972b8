//! The number by which an index finds the bucket of a text, or of two.
ghost use Rattle.std.specs.Prelude.{◌≡◌, ◌<◌};
ghost use Rattle.load_memory.specs.Keys.{fold_text};
ghost use Rattle.csv_source.specs.Hashes.{mix, text_hash, joined_hash, bucket_of, pair_bucket_of};

use load_memory::KeyMode;
use std::hash::{FoldHasher, Hasher};

// The start and the multiplier of the hash FNV-1a, which takes byte after byte.
const FNV_OFFSET: u64 = 0xcbf2_9ce4_8422_2325;

const FNV_PRIME: u64 = 0x0000_0100_0000_01b3;

// The hash with one byte more.
fn mix_byte(hash: u64, byte: u8) -> u64
    ensures { result ≡ mix hash byte }
{
    (hash ^ u64::from(byte)).wrapping_mul(FNV_PRIME)
}

// A hash that is equal for texts that are one key. It depends on the text alone, so whoever picks
// the keys can make them collide.
#[tactic(auto, unfolding(crate::specs::Hashes::text_hash))]
fn hash(mode: KeyMode, text: &str) -> u64
    ensures { result ≡ text_hash mode
        (fold_text mode text.now) }
{
    match mode {
        KeyMode::Exact => {
            let mut hasher = FoldHasher::default();
            hasher.write(text.as_bytes());
            hasher.finish()
        }
        KeyMode::FoldAscii => text
            .bytes()
            .map(|byte| byte.to_ascii_lowercase())
            .fold(FNV_OFFSET, mix_byte),
    }
}

// One number of two, in which their order counts.
fn join_hashes(one: u64, two: u64) -> u64
    ensures { result ≡ joined_hash one two }
{
    one.wrapping_mul(FNV_PRIME) ^ two
}

/// The bucket of two texts, of `buckets`.
pub(crate) fn pair_bucket(mode: KeyMode, buckets: usize, one: &str, two: &str) -> usize
    requires { 0 < buckets }
    ensures value { result
        ≡ pair_bucket_of mode buckets (fold_text mode one.now) (fold_text mode two.now) }
    ensures within { result < buckets }
{
    (join_hashes(hash(mode, one), hash(mode, two)) % buckets as u64) as usize
}

/// The bucket of a text, of `buckets`.
pub(crate) fn bucket(mode: KeyMode, buckets: usize, text: &str) -> usize
    requires { 0 < buckets }
    ensures value { result ≡ bucket_of mode buckets
        (fold_text mode text.now) }
    ensures within { result < buckets }
{
    (hash(mode, text) % buckets as u64) as usize
}
