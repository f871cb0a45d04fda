//! The line of a refusal.

use statuses::{Status, refusal};
use std::test::*;
use test_asserts::same;

#[test]
fn a_refused_line(rt: HostRuntime) -> Result<(), Fail> {
    let answer = refusal(rt.alloc(), Status::InputRefused, 12, "no job")?;
    same(answer.status.number(), 2)?;
    same(
        answer.text.as_slice(),
        b"refused at line 12: no job\n".as_slice(),
    )?;
    Ok(())
}
