//! Short answers, as another implementation spells them.

use server_dispatch::Short;
use std::test::Fail;
use test_asserts::same;

#[test]
fn short_answers() -> Result<(), Fail> {
    let failed = Short::MsgWaitFailed;
    same(
        failed.content(),
        b"\x19\xca\x44\x21\x90\x01\0\0\x0fMSG_WAIT_FAILED".as_slice(),
    )?;
    same(failed.bytes().as_slice(), failed.content())?;
    same((failed.is_good(), Short::BoolTrue.is_good()), (false, true))?;
    Ok(())
}
