//! Bytes and numbers of an image, low byte first. A byte past the end counts as 0.
ghost use Rattle.std.specs.Prelude.{◌≡◌, ◌<◌, get_or, drop};
ghost use Rattle.model_image.specs.Bytes.{number_in, stretch};

/// Returns byte k, counted from 0, or 0 where the bytes end before it.
pub fn byte(s: &[u8], k: usize) -> u8
    ensures { result ≡ get_or s.now k 0 }
{
    s.get(k).copied().unwrap_or(0)
}

/// Returns the bytes from place `at` on; none where it is past the end.
pub(crate) fn tail(s: &[u8], at: usize) -> &[u8]
    ensures { result.now ≡ drop at s.now }
{
    if at < s.len() { s.split_at(at).1 } else { &[] }
}

/// Reads the number of 16 bits whose low byte is byte k. Needs k below 65,536.
pub fn two_bytes(s: &[u8], k: usize) -> u16
    requires { k < 65536 }
    ensures { result ≡ number_in (stretch k 2 s.now) }
{
    u16::from_le_bytes([byte(s, k), byte(s, k + 1)])
}

/// Reads the number of 64 bits whose lowest byte is byte k. Needs k below 65,530.
pub fn eight_bytes(s: &[u8], k: usize) -> u64
    requires { k < 65530 }
    ensures { result ≡ number_in (stretch k 8 s.now) }
{
    u64::from_le_bytes([
        byte(s, k),
        byte(s, k + 1),
        byte(s, k + 2),
        byte(s, k + 3),
        byte(s, k + 4),
        byte(s, k + 5),
        byte(s, k + 6),
        byte(s, k + 7),
    ])
}
