//! What is shown of a seal: of its keys their identifiers alone.

use envelope::MtSeal;
use std::test::Fail;
use test_asserts::shows;
use test_keys::ring;

#[test]
fn no_byte_of_a_key_is_shown(rt: HostRuntime) -> Result<(), Fail> {
    let seal = MtSeal::new(ring(rt.alloc(), "perm").map_err(|_| "no ring")?);
    shows(
        rt.alloc(),
        &seal,
        "MtSeal { ring: Ring { keys: [RingKey { key: AuthKey { id: 14474384091129631026, .. }, kind: Perm }] } }",
    )
}
