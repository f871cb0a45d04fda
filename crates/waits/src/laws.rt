//! Laws of unfinished jobs, each the contract of a function that does nothing.

ghost use Rattle.std.specs.Prelude.{◌≡◌, ℕ, Bool, true, List, map};
ghost use Rattle.std.specs.List.{list_any};
ghost use Rattle.waits.specs.declared.job.Unfinished.{Unfinished as One};
ghost use Rattle.waits.specs.Jobs.{Queue, is_ready, without_first, without_ready, without_session};
ghost use Rattle.waits.specs.Answers.{Answer, after_answers, all_settled, awaits, is_well};
ghost use Rattle.waits.specs.Limits.{most_jobs, most_job_bytes, wait_seconds};

use crate::jobs::{JOB_BYTES_MAX, JOBS_MAX, WAIT_SECONDS};

/// The limits that the code knows are those of the definitions.
pub fn limits_are_kept()
    ensures jobs { JOBS_MAX ≡ most_jobs }
    ensures bytes { JOB_BYTES_MAX ≡ most_job_bytes }
    ensures seconds { WAIT_SECONDS ≡ wait_seconds }
{}

/// A job that waits isn't ready before a good answer came to each call that it waits for. Answers that come one after
/// the other, in any order and with answers to other calls between them, tell each job alone; and where jobs are taken
/// out, each that is left was there before, as it is.
pub fn ready_after_each()
    ensures each { (answers : List Answer) (queue : Queue) → all_settled answers queue ≡ map (after_answers answers) queue }
    ensures named { (answers : List Answer) (one : One) (number : ℕ) → is_ready (after_answers answers one) ≡ true → awaits number one ≡ true → list_any (is_well one.job.key one.job.session number) answers ≡ true }
    ensures others { (test p : One → Bool) (queue : Queue) → list_any p (without_first test queue) ≡ true → list_any p queue ≡ true }
    ensures others_of_ready { (place : ℕ) (p : One → Bool) (queue : Queue) → list_any p (without_ready place queue) ≡ true → list_any p queue ≡ true }
    ensures others_of_session { (key session : ℕ) (p : One → Bool) (queue : Queue) → list_any p (without_session key session queue) ≡ true → list_any p queue ≡ true }
{}
