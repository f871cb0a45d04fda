//! The calls of a spawner.

use crate::act::Act;
use crate::spawner::Line;
use crate::words::Words;

/// A call of a spawner that is noted in its record.
#[derive(Debug, Drop)]
pub enum KidCall {
    /// A call of `start`.
    Start {
        /// The words.
        words: Words,
        /// The answer.
        answer: Act,
    },
    /// A call of `line`.
    Line {
        /// The answer.
        answer: Line,
    },
    /// A call of `wait`.
    Wait {
        /// The answer.
        answer: Act,
    },
}
