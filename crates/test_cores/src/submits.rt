//! Calls that a client takes, and those that it doesn't.

use client_core::{CallNo, CallState, OpeningClient, SubmitFault};
use draws::StepDraw;
use msg_ids::Moment;
use std::alloc::{AllocError, Global};
use std::test::*;
use test_asserts::same;

// A client with a call of the packed body, and what it answers to another one. Whether the last call is queued then.
fn submits(
    alloc: Global,
    body: &[u8],
    after: Option<CallNo>,
) -> Result<Result<bool, SubmitFault>, Fail> {
    let mut client = OpeningClient::new(alloc, 1, &mut StepDraw::new())?;
    let answered = answers(&mut client, alloc, body, after);
    drop(client);
    answered
}

fn answers(
    client: &mut OpeningClient,
    alloc: Global,
    body: &[u8],
    after: Option<CallNo>,
) -> Result<Result<bool, SubmitFault>, Fail> {
    if client
        .submit(alloc, &[0xa1, 0xcf, 0x72, 0x30], None)
        .is_err()
    {
        return Err(Fail::new("a packed body isn't taken"));
    }
    match client.submit(alloc, body, after) {
        Err(fault) => Ok(Err(fault)),
        Ok(call) => Ok(Ok(matches!(client.state(call), CallState::Queued))),
    }
}

// So many zeros. No contract says how many, as a long list with a known length is computed by all that looks at it.
fn zeros(alloc: Global, count: usize) -> Result<Vec<u8>, AllocError> {
    vec![in alloc; 0u8; count]
}

#[test]
fn bodies_that_are_no_calls(rt: HostRuntime) -> Result<(), Fail> {
    let long = zeros(rt.alloc(), 262_148)?;
    let most = zeros(rt.alloc(), 262_144)?;
    let (first, second) = (Some(CallNo { n: 1 }), Some(CallNo { n: 2 }));
    let rows: [(&[u8], Option<CallNo>, Result<bool, SubmitFault>); 7] = [
        (&long, None, Err(SubmitFault::TooLong { len: 262_148 })),
        (&[1, 2], None, Err(SubmitFault::NotWords { len: 2 })),
        (
            &[0x59, 0xb4, 0xd6, 0x62],
            None,
            Err(SubmitFault::ServiceTag { tag: 0x62d6_b459 }),
        ),
        (&most, second, Err(SubmitFault::NoSuchCall)),
        (&most, Some(CallNo { n: 0 }), Err(SubmitFault::NoSuchCall)),
        (&most, first, Ok(true)),
        (&[], None, Ok(true)),
    ];
    for (body, after, answer) in rows {
        same(submits(rt.alloc(), body, after)?, answer)?;
    }
    Ok(())
}

#[test]
fn sessions_are_drawn(rt: HostRuntime) -> Result<(), Fail> {
    let client = OpeningClient::new_temp(
        rt.alloc(),
        1,
        2,
        Moment::new(7200),
        &mut StepDraw::new(),
    )?;
    let session = client.session();
    drop(client);
    same(session, 6_364_136_223_846_793_005)
}
