// The names and annotations of a line: sids, and quoted text.
use crate::refused::Refused;
use words::numbers::natural;

const QUOTE: u8 = b'"';

// One or more letters from a to z between quotes.
fn is_quoted(word: &[u8]) -> bool {
    match word {
        [QUOTE, letters @ .., QUOTE] => {
            !letters.is_empty() && letters.iter().all(|letter| letter.is_ascii_lowercase())
        }
        _ => false,
    }
}

#[derive(Clone, Copy)]
pub(crate) enum Name {
    Sid(u64),
    Text,
}

impl TryFrom<&[u8]> for Name {
    type Error = Refused;

    fn try_from(word: &[u8]) -> Result<Name, Refused> {
        if is_quoted(word) {
            return Ok(Name::Text);
        }
        Ok(Name::Sid(natural(word, u64::MAX).ok_or(Refused::Form)?))
    }
}

impl Name {
    pub(crate) fn sid(self) -> Result<u64, Refused> {
        match self {
            Name::Sid(sid) => Ok(sid),
            Name::Text => Err(Refused::Text),
        }
    }
}

// The words of annotations, each a name. An empty text has no word.
pub(crate) fn are_names(text: &[u8]) -> bool {
    text.is_empty()
        || text
            .split(|byte| *byte == b' ')
            .all(|word| Name::try_from(word).is_ok())
}
