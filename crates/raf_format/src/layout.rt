//! How long the storage of a file is.
ghost use Rattle.std.specs.Prelude.{◌≡◌, ◌^◌, ◌<◌, ◌≤◌, ◌⊎◌, ◌↔◌, IfSome, IsNone};
ghost use Rattle.raf_format.specs.Cipher.{IsTagLen};
ghost use Rattle.raf_format.specs.File.{layout_by};

/// How many bytes the storage of a file has whose plain text has `size` bytes: the header, the bytes, and a nonce and a tag for each
/// chunk. None exactly where that is no `u64`. Nonces and tags have 16 or 32 bytes, chunks 16 to 1048576.
pub fn layout_len(nonce_len: usize, tag_len: usize, chunk_size: u32, size: u64) -> Option<u64>
    requires nonce { (nonce_len ≡ 16) ⊎ (nonce_len ≡ 32) }
    requires tag { IsTagLen tag_len }
    requires least { 16 ≤ chunk_size }
    requires most { chunk_size ≤ 1048576 }
    ensures fits { IfSome result (λ len. len ≡ layout_by nonce_len tag_len chunk_size size) }
    ensures none { IsNone result ↔ (2 ^ 64 ≤ layout_by nonce_len tag_len chunk_size size) }
{
    let count = size.div_ceil(u64::from(chunk_size));
    let len = 96 + u128::from(size) + u128::from(count) * (nonce_len + tag_len) as u128;
    if len > u128::from(u64::MAX) {
        None
    } else {
        Some(len as u64)
    }
}
