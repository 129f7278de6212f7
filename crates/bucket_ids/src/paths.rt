ghost use Rattle.std.specs.Prelude.{◌≡◌, ◌<◌};
ghost use Rattle.std.specs.Int.{reverse_bits_onto};
ghost use Rattle.bucket_ids.specs.Paths.{path};

/// Four bits, last first.
fn turned_four(four: u64) -> u64
    requires small { four < 16 }
    ensures turned { result ≡ reverse_bits_onto 4 four 0 }
    ensures small { result < 16 }
{
    match four {
        0 => 0,
        1 => 8,
        2 => 4,
        3 => 12,
        4 => 2,
        5 => 10,
        6 => 6,
        7 => 14,
        8 => 1,
        9 => 9,
        10 => 5,
        11 => 13,
        12 => 3,
        13 => 11,
        14 => 7,
        15 => 15,
        _ => unreachable!(),
    }
}

/// The bits of a key, last first: in this order each bucket is one run. Four bits are turned at a time, since
/// std's `reverse_bits` goes from bit to bit.
#[tactic(auto, unfolding(crate::specs::Paths::path))]
pub fn path_of(key: u64) -> u64
    ensures { result ≡ path key }
{
    let mut left = key;
    let mut path = 0u64;
    for _ in 0..16u32 {
        path = path * 16 + turned_four(left % 16);
        left /= 16;
    }
    path
}
