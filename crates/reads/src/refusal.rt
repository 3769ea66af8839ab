// What the entry points refuse.
use std::fmt;

// A refusal's number.
#[derive(Clone, Copy, PartialEq, Eq, Drop)]
pub(crate) struct Refusal(u8);

impl fmt::Display for Refusal {
    fn fmt<W: fmt::Write>(&self, f: &mut fmt::Formatter<W>) -> fmt::Result {
        write!(f, "!{}", self.0)
    }
}

// What an entry point's number says: 0 is no refusal. `trial` has such a function too, for refusals that are not all numbers.
pub(crate) fn answered(number: u8) -> Result<(), Refusal> {
    if number == 0 {
        return Ok(());
    }
    Err(Refusal(number))
}
