// Why a line has no bytes, by the numbers of document 01.
use std::fmt;

#[derive(Clone, Copy)]
pub(crate) enum Refused {
    // By a call, which answers this number.
    Call(u8),
    // A text symbol, name or annotation.
    Text,
    // A line not of the form.
    Form,
}

impl Refused {
    fn number(self) -> u8 {
        match self {
            Refused::Call(number) => number,
            Refused::Text => 11,
            Refused::Form => 12,
        }
    }
}

impl fmt::Display for Refused {
    fn fmt<W: fmt::Write>(&self, f: &mut fmt::Formatter<W>) -> fmt::Result {
        write!(f, "!{}", self.number())
    }
}

// What a call answers, which is 0 where it does what it is asked.
pub(crate) fn answered(number: u8) -> Result<(), Refused> {
    match number {
        0 => Ok(()),
        _ => Err(Refused::Call(number)),
    }
}
