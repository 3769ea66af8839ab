// The words of a text, which single spaces part. A text has one word more than spaces, and a word that is missing is empty, no `None`:
// the callers refuse the two alike, and one list of words says of both what is answered.
#![tactic(auto)]

pub mod filled;
pub mod hex;
pub mod input;
pub mod numbers;

ghost use Rattle.std.specs.Prelude.{◌≡◌, [], length, get_or};
ghost use Rattle.words.specs.Words.{words_of, behind_word, from_word};

const SPACE: u8 = b' ';

// How many words a text has.
pub fn count(text: &[u8]) -> usize
    ensures { result ≡ length (words_of text.now) }
{
    text.split(|byte| *byte == SPACE).count()
}

// The text behind its first word and the space.
fn behind_word(text: &[u8]) -> &[u8]
    ensures { result.now ≡ behind_word text.now }
{
    match text.iter().position(|byte| *byte == SPACE) {
        Some(end) => &text[end + 1..],
        None => &[],
    }
}

// The text from the word at index `n` on.
#[tactic(auto, using(crate::proofs::Words::from_step, crate::proofs::Words::from_none))]
pub fn from_word(text: &[u8], n: usize) -> &[u8]
    ensures { result.now ≡ from_word n text.now }
{
    let mut rest = text;
    for _ in 0..n {
        rest = behind_word(rest);
    }
    rest
}

// The word at index `n`.
pub fn word(text: &[u8], n: usize) -> &[u8]
    ensures { result.now ≡ get_or (words_of text.now) n [] }
{
    text.split(|byte| *byte == SPACE).nth(n).unwrap_or(&[])
}
