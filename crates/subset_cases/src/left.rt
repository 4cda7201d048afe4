// What a call of subsetting answered, and what it left in the work words and in the output, as the answer of a stored case: only where all
// that document 01 says of both holds.
ghost use Rattle.std.specs.Prelude.{◌≤◌, ◌≡◌, ltb, length};
ghost use Rattle.octets.specs.Pick.{pick};
ghost use Rattle.subset_cases.specs.Left.{lent_word, zeroed, words_left_lem, bytes_left_lem, refused_bytes, subset_bytes, answer_bytes, judged};

use cases::answer::Answer;
use outcome::Subsetted;
use refusal::Refusal;

// What the i-th work word should be, the first k being zeros.
fn word_at(i: usize, k: usize) -> u32
    ensures { result ≡ pick (ltb i k) 0 lent_word }
{
    if i < k {
        return 0;
    }
    2779096485
}

// Whether the first k work words are zeros and the others as they were lent.
fn words_left(work: &[u32], k: usize) -> bool
    ensures { result ≡ words_left_lem 0 k work.now }
{
    (0..work.len()).all(|i| work[i] == word_at(i, k))
}

// Whether all bytes are as they were lent.
fn bytes_left(bytes: &[u8]) -> bool
    ensures { result ≡ bytes_left_lem bytes.now }
{
    bytes.iter().all(|b| *b == 165)
}

// How many work words should be zeros after an answer: w from refusal 9 passed on (14 and 15 are tested before).
fn zeroed(r: Result<Subsetted, Refusal>, w: usize) -> usize
    ensures { result ≡ zeroed r w }
{
    match r {
        Err(e) => {
            let n = e.number();
            if n < 10 {
                return 0;
            }
            if n < 14 {
                return w;
            }
            0
        }
        Ok(_) => w,
    }
}

// The number of a refusal: all of the output is as it was lent.
fn of_refused(n: u8, found: &[u8]) -> Option<Answer>
    ensures { result ≡ refused_bytes n found.now }
{
    if bytes_left(found) {
        return Some(Answer::one(n));
    }
    None
}

// A subset, the first len bytes of the output. It takes the whole output: what stands behind it there is as it was lent.
fn of_subset(way: u8, len: usize, found: &[u8]) -> Option<Answer>
    requires { length found.now ≤ 4094 }
    ensures { result ≡ subset_bytes way len found.now }
{
    if found.len() < len {
        return None;
    }
    if bytes_left(&found[len..]) {
        let mut answer = Answer::one(0);
        answer.byte(way);
        answer.copy(&found[..len]);
        return Some(answer);
    }
    None
}

// What a call answered, with the output that it left.
fn of_call(r: Result<Subsetted, Refusal>, found: &[u8]) -> Option<Answer>
    requires { length found.now ≤ 4094 }
    ensures { result ≡ answer_bytes r found.now }
{
    match r {
        Err(e) => of_refused(e.number(), found),
        Ok(c) => of_subset(c.way.number(), c.len, found),
    }
}

// What a call answered, with the work words and the output that it left, W being w.
pub fn judge(r: Result<Subsetted, Refusal>, w: usize, work: &[u32], found: &[u8]) -> Option<Answer>
    requires { length found.now ≤ 4094 }
    ensures { result ≡ judged r w work.now found.now }
{
    if words_left(work, zeroed(r, w)) {
        return of_call(r, found);
    }
    None
}
