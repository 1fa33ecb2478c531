//! The order of names, in one pass over their bytes.
ghost use Rattle.std.specs.Prelude.{◌≡◌};
ghost use Rattle.std.specs.Int.{w64, to_le_bytes};
ghost use Rattle.fs_path.specs.PathOrder.{rank, path_cmp};

use std::cmp::Ordering;

/// The order of two names, each as its text: segment by segment, as a slash comes before all other bytes.
pub(crate) fn compare_paths(a: &[u8], b: &[u8]) -> Ordering
    ensures { result ≡ path_cmp a.now b.now }
{
    let (mut left, mut right) = past_alike(a, b);
    loop {
        match (left, right) {
            ([], []) => return Ordering::Equal,
            ([], [_, ..]) => return Ordering::Less,
            ([_, ..], []) => return Ordering::Greater,
            ([x, xs @ ..], [y, ys @ ..]) => {
                if *x != *y {
                    return rank(*x).cmp(&rank(*y));
                }
                left = xs;
                right = ys;
            }
        }
    }
}

/// What is left of two texts behind their first bytes that are alike, eight at a time.
fn past_alike<'a>(a: &'a [u8], b: &'a [u8]) -> (&'a [u8], &'a [u8])
    ensures { path_cmp result.0.now result.1.now ≡ path_cmp a.now b.now }
{
    let mut left = a;
    let mut right = b;
    while let (Some((x, xs)), Some((y, ys))) = (
        left.split_first_chunk::<8>(),
        right.split_first_chunk::<8>(),
    ) {
        if word(x) != word(y) {
            break;
        }
        left = xs;
        right = ys;
    }
    (left, right)
}

fn word(bytes: &[u8; 8]) -> u64
    ensures { to_le_bytes w64 result ≡ bytes.now }
{
    u64::from_le_bytes(*bytes)
}

/// A byte's place in the order.
fn rank(b: u8) -> u32
    ensures { result ≡ rank b }
{
    if b == b'/' { 0 } else { u32::from(b) + 1 }
}
