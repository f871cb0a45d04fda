//! A seed, as C gives it.

ghost use Rattle.std.specs.Prelude.{◌≡◌, ◌≢◌, ◌↔◌, IfSome, IsNone, length};

/// The 32 bytes of a seed, which are all that it may have.
pub(crate) fn seed_of(seed: &[u8]) -> Option<[u8; 32]>
    ensures bytes { IfSome result (λ bytes. bytes ≡ seed.now) }
    ensures refused { IsNone result ↔ (length seed.now ≢ 32) }
{
    if seed.len() != 32 {
        return None;
    }
    let mut bytes = [0; 32];
    bytes.copy_from_slice(seed);
    Some(bytes)
}
