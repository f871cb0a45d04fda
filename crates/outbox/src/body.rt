//! The body of a kept reply.

ghost use Rattle.std.specs.Prelude.{◌≡◌, ◌++◌, ◌+◌, ◌<◌, ◌≤◌, ◌^◌, take, drop, length, IfOk};
ghost use Rattle.outbox.specs.Bodies.{head_bytes};

use bytes::Bytes;
use octets::Memory;
use std::marker::Model;

/// How many bytes of a body stand in it itself: those of an `rpc_result` before the result.
pub const HEAD_BYTES: usize = 12;

/// How many bytes a rest has that stands in the body itself: those of an `rpc_answer_dropped`.
pub const SHORT_BYTES: usize = 20;

/// What follows the head of a body.
#[derive(Debug, Drop)]
enum Rest {
    Shared(Bytes),
    Short([u8; SHORT_BYTES]),
}

/// The body of a kept reply: 12 bytes, which tell the call, and the rest behind them, which is shared or short. So a body
/// is made without memory where its rest is static, shared already, or short. Contracts see it as its bytes.
#[derive(Debug, Drop)]
pub struct Body {
    head: [u8; HEAD_BYTES],
    rest: Rest,
}

impl Model for Body {
    ghost use Rattle.std.specs.Prelude.{ℕ, List, ◌≡◌, ◌++◌, length};
    ghost use Rattle.outbox.specs.Bodies.{head_bytes, rest_of};

    ghost Value = { List ℕ };

    ghost view = { λ body. body.head ++ rest_of body.rest };

    ghost invariant = { λ body. length body.head ≡ head_bytes };
}

impl Body {
    /// The body of this head with this rest behind it. Takes no memory.
    pub fn shared(head: [u8; HEAD_BYTES], rest: Bytes) -> Body
        ensures { result ≡ head ++ rest }
    {
        Body {
            head,
            rest: Rest::Shared(rest),
        }
    }

    /// The body of this head with this rest behind it. Takes no memory.
    pub fn short(head: [u8; HEAD_BYTES], rest: [u8; SHORT_BYTES]) -> Body
        ensures { result ≡ head ++ rest }
    {
        Body {
            head,
            rest: Rest::Short(rest),
        }
    }

    /// How many bytes it has.
    pub fn len(&self) -> usize
        ensures value { result ≡ length self.now }
        ensures head { head_bytes ≤ result }
        ensures bound { result < 2 ^ 63 + head_bytes }
    {
        HEAD_BYTES + self.rest().len()
    }

    /// Its first 12 bytes.
    pub fn head(&self) -> &[u8]
        ensures { result.now ≡ take head_bytes self.now }
    {
        &self.head
    }

    /// The bytes behind these.
    pub fn rest(&self) -> &[u8]
        ensures value { result.now ≡ drop head_bytes self.now }
        ensures count { head_bytes + length result.now ≡ length self.now }
    {
        match &self.rest {
            Rest::Shared(bytes) => bytes.as_slice(),
            Rest::Short(bytes) => bytes,
        }
    }

    /// The same body once more, which shares the rest's bytes.
    ///
    /// # Errors
    ///
    /// `Memory`: memory ran out.
    pub fn copy(&self) -> Result<Body, Memory>
        ensures { IfOk result (λ copy. copy ≡ self.now) }
    {
        let rest = match &self.rest {
            Rest::Shared(bytes) => Rest::Shared(bytes.clone()?),
            Rest::Short(bytes) => Rest::Short(*bytes),
        };
        Ok(Body {
            head: self.head,
            rest,
        })
    }
}
