// What a call returns to C: a number for its answer or its refusal. Kept a number there alone: the C interface has an `int64_t`.
ghost use Rattle.std.specs.Prelude.{◌≡◌, ℕ, ◌≤◌, Ok};
ghost use Rattle.results.specs.Result.{as_result, said};

use types::refusal::Refusal;

// Returns the length that a writer of records has written, or its refusal.
pub fn short_length(answer: Result<usize, Refusal>) -> Result<u32, Refusal>
    requires { (x : ℕ) → answer ≡ Ok x → x ≤ 2048 }
    ensures { result ≡ answer }
{
    Ok(answer? as u32)
}

// Returns yes as 1 and no as 0, or the refusal.
pub fn yes_or_no(answer: Result<bool, Refusal>) -> Result<u32, Refusal>
    ensures { result ≡ said answer }
{
    Ok(u32::from(answer?))
}

// Returns the number of an answer, a length or another, or that of a refusal, negated.
pub fn returned(answer: Result<u32, Refusal>) -> i64
    ensures { result ≡ as_result answer }
{
    match answer {
        Ok(x) => x as i64,
        Err(refusal) => -(refusal.number() as i64),
    }
}
