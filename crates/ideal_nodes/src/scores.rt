ghost use Rattle.std.specs.Prelude.{◌≡◌};
ghost use Rattle.md5.specs.Md5.{md5};
ghost use Rattle.ideal_nodes.specs.Scores.{score_of, score_text, first_eight};

use bucket_ids::Bucket;
use md5::{Digest, Md5};

/// The first eight bytes of a digest, as a big-endian number.
fn first_eight(digest: [u8; 16]) -> u64
    ensures { result ≡ first_eight digest }
{
    let [a, b, c, d, e, f, g, h, ..] = digest;
    u64::from_be_bytes([a, b, c, d, e, f, g, h])
}

/// The digest of a word, the bucket's bits in one byte, its low bits in eight, and a number in two.
fn digest(word: &[u8], bits: u8, low: u64, node: u8) -> [u8; 16]
    ensures { result ≡ md5 (score_text word.now bits low node) }
{
    let mut digest = Md5::new();
    digest.update(word);
    digest.update(&[bits]);
    digest.update(&low.to_be_bytes());
    digest.update(&u16::from(node).to_be_bytes());
    digest.finalize()
}

/// The score of a number for a bucket, under a word.
#[tactic(auto, unfolding(crate::specs::Scores::score_of))]
pub fn score(word: &[u8], bucket: Bucket, node: u8) -> u64
    ensures { result ≡ score_of word.now bucket node }
{
    first_eight(digest(word, bucket.bits(), bucket.low(), node))
}
