//! The digest of bytes.
ghost use Rattle.std.specs.Prelude.{◌≡◌};
ghost use Rattle.hc_workload.specs.Digest.{digest, digest_step};

/// The digest after one more byte.
fn with_byte(value: u64, byte: u8) -> u64
    ensures { result ≡ digest_step value byte }
{
    value.wrapping_mul(31).wrapping_add(byte as u64)
}

/// The digest of bytes: from 0, each byte makes of D the number 31 * D + byte, modulo 2^64.
pub fn digest_of(bytes: &[u8]) -> u64
    ensures { result ≡ digest bytes.now }
{
    let mut value = 0;
    'bytes: for byte in bytes {
        value = with_byte(value, *byte);
    }
    value
}
