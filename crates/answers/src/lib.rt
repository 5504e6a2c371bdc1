// What the C entry points put into lent words: an answer, only if the call does its work, and the number that they return.
#![tactic(auto)]

ghost use Rattle.std.specs.Prelude.{◌≡◌, MatchResult};
ghost use Rattle.model.specs.Results.{answer_number};
ghost use Rattle.model.specs.Answers.{Looked, Counted, puts, Summed, Showed};
ghost use Rattle.model.specs.Numbers.{stop_number};

use model::{Answer, Batch, Listed, Refusal, Written};

// The number of an answer: 0 if the call did its work, else its refusal's. A batch's stop is an Option (`stop_number`): one function
// for both would take an answer's `err`, and a proof that the two definitions agree, to save this match.
pub fn number_of<T: Copy>(answer: Result<T, Refusal>) -> u64
    ensures { result ≡ answer_number answer }
{
    match answer {
        Ok(_) => 0,
        Err(r) => u64::from(r),
    }
}

// An answer's number; if the call did its work, what it says goes into the lent word.
pub fn put(answer: Result<u64, Refusal>, word: &mut u64) -> u64
    ensures value { result ≡ answer_number answer }
    ensures word_after { MatchResult answer (λ x. word.new ≡ x) (λ _. word.new ≡ word.old) }
{
    if let Ok(x) = answer {
        *word = x;
    }
    number_of(answer)
}

// A search's number, and its answer into the lent words that it has one for. C lends each word by itself, here and below.
pub fn put_answer(
    answer: Answer,
    recording: &mut u64,
    access: &mut u64,
    next: &mut u64,
    higher: &mut u64,
) -> u64
    ensures { Looked answer result recording.old recording.new access.old access.new
        next.old next.new higher.old higher.new }
{
    match answer {
        Answer::Found {
            recording: r,
            access: c,
        } => {
            *recording = r;
            *access = c;
            0
        }
        Answer::Absent(Some(k)) => {
            *next = k;
            *higher = 1;
            255
        }
        Answer::Absent(None) => {
            *higher = 0;
            255
        }
        Answer::Refused(n) => u64::from(n),
    }
}

// A write's number; if it was done, its counts go into the lent words.
pub fn put_counts(written: Written, stores: &mut u64, flushes: &mut u64, barriers: &mut u64) -> u64
    ensures { Counted written result stores.old stores.new flushes.old flushes.new
        barriers.old barriers.new }
{
    if let Ok(counts) = written {
        *stores = counts.stores;
        *flushes = counts.flushes;
        *barriers = counts.barriers;
    }
    number_of(written)
}

// The number of the refusal that stopped a batch; 0 for none.
fn stop_number(stop: Option<Refusal>) -> u64
    ensures { result ≡ stop_number stop }
{
    stop.map_or(0, u64::from)
}

// Whether a batch does its work: a pair was taken, or none was refused.
fn puts(answer: Batch) -> bool
    ensures { result ≡ puts answer }
{
    answer.stop.is_none() || 0 < answer.taken
}

// 0 with a batch's counts and the number that stopped it in the lent words, or the number that refused its first pair.
pub fn put_sums(
    answer: Batch,
    taken: &mut u64,
    stop: &mut u64,
    stores: &mut u64,
    flushes: &mut u64,
    barriers: &mut u64,
) -> u64
    ensures { Summed answer result taken.old taken.new stop.old stop.new
        stores.old stores.new flushes.old flushes.new barriers.old barriers.new }
{
    let number = stop_number(answer.stop);
    if !puts(answer) {
        return number;
    }
    *taken = answer.taken;
    *stop = number;
    put_counts(Ok(answer.counts), stores, flushes, barriers)
}

// A listing's number; if it was done, its count of pairs and whether more are left go into the lent words.
pub fn put_page(listed: Listed, pairs: &mut u64, more: &mut u64) -> u64
    ensures { Showed listed result pairs.old pairs.new more.old more.new }
{
    if let Ok(page) = listed {
        *pairs = page.count;
        *more = u64::from(page.more);
    }
    number_of(listed)
}
