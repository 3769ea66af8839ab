// Values as words, by their type byte and body.
use crate::numbers::{Hex, Int, Signed, behind, uint};
use crate::refusal::{Refusal, answered};
use entry_reading::{gm_read_decimal, gm_read_symbol, gm_read_timestamp};
use std::fmt;

// "Typed Value Formats": a type byte is the type code and four low bits, of which 15 is a null. The reader names the codes too: this program is built on
// its entry points alone, as are the types below, which hold what those answer. An entry point gives the type byte as it stands in the stream, so an
// enum would put a table of the codes before that of `Value`.
pub(crate) const NULL: u8 = 15;

const BOOL: u8 = 1;

const INT: u8 = 2;

// Another code of type int.
const NEGATIVE_INT: u8 = 3;

const FLOAT: u8 = 4;

const DECIMAL: u8 = 5;

const TIMESTAMP: u8 = 6;

const SYMBOL: u8 = 7;

const STRING: u8 = 8;

const CLOB: u8 = 9;

const BLOB: u8 = 10;

const LIST: u8 = 11;

const SEXP: u8 = 12;

#[derive(Clone, Copy)]
struct Decimal<'a> {
    coefficient: Int<'a>,
    exponent: Signed,
}

impl<'a> TryFrom<&'a [u8]> for Decimal<'a> {
    type Error = Refusal;

    fn try_from(body: &'a [u8]) -> Result<Self, Refusal> {
        let mut numbers = [0u64; 3];
        answered(gm_read_decimal(body, &mut numbers))?;
        let [negative, exponent, coefficient] = numbers;
        Ok(Decimal {
            coefficient: Int::from(behind(body, coefficient as usize)),
            exponent: Signed {
                negative: negative != 0,
                magnitude: exponent,
            },
        })
    }
}

impl fmt::Display for Decimal<'_> {
    fn fmt<W: fmt::Write>(&self, f: &mut fmt::Formatter<W>) -> fmt::Result {
        write!(f, "d{}:{}", self.coefficient, self.exponent)
    }
}

// The minutes, or a mark where they are unknown.
#[derive(Clone, Copy)]
struct Offset(Option<Signed>);

impl fmt::Display for Offset {
    fn fmt<W: fmt::Write>(&self, f: &mut fmt::Formatter<W>) -> fmt::Result {
        match self.0 {
            Some(minutes) => write!(f, "{minutes}"),
            None => f.write_str("?"),
        }
    }
}

// The fields from the year on that the precision has: an array and its count, since nothing allocates, and six numbers are put at once.
#[derive(Clone, Copy)]
struct Fields {
    all: [u64; 6],
    count: usize,
}

impl fmt::Display for Fields {
    fn fmt<W: fmt::Write>(&self, f: &mut fmt::Formatter<W>) -> fmt::Result {
        for (i, field) in self.all.iter().take(self.count).enumerate() {
            if 0 < i {
                f.write_str(",")?;
            }
            write!(f, "{field}")?;
        }
        Ok(())
    }
}

// How many digits a second has behind the point, and their coefficient.
#[derive(Clone, Copy)]
struct Fraction<'a> {
    digits: u64,
    coefficient: Int<'a>,
}

impl fmt::Display for Fraction<'_> {
    fn fmt<W: fmt::Write>(&self, f: &mut fmt::Formatter<W>) -> fmt::Result {
        write!(f, "{},{}", self.digits, self.coefficient.magnitude)
    }
}

#[derive(Clone, Copy)]
struct Timestamp<'a> {
    offset: Offset,
    fields: Fields,
    fraction: Option<Fraction<'a>>,
    out_of_calendar: bool,
}

impl<'a> TryFrom<&'a [u8]> for Timestamp<'a> {
    type Error = Refusal;

    fn try_from(body: &'a [u8]) -> Result<Self, Refusal> {
        let mut numbers = [0u64; 13];
        answered(gm_read_timestamp(body, &mut numbers))?;
        let [
            known,
            negative,
            minutes,
            count,
            year,
            month,
            day,
            hour,
            minute,
            second,
            digits,
            coefficient,
            marked,
        ] = numbers;
        let offset = Signed {
            negative: negative != 0,
            magnitude: minutes,
        };
        let fraction = Fraction {
            digits,
            coefficient: Int::from(behind(body, coefficient as usize)),
        };
        Ok(Timestamp {
            offset: Offset((known != 0).then_some(offset)),
            fields: Fields {
                all: [year, month, day, hour, minute, second],
                count: count as usize,
            },
            fraction: (digits != 0).then_some(fraction),
            out_of_calendar: marked != 0,
        })
    }
}

impl fmt::Display for Timestamp<'_> {
    fn fmt<W: fmt::Write>(&self, f: &mut fmt::Formatter<W>) -> fmt::Result {
        write!(f, "t{}:{}:", self.offset, self.fields)?;
        if let Some(fraction) = self.fraction {
            write!(f, "{fraction}")?;
        }
        if self.out_of_calendar {
            f.write_str(" out-of-calendar")?;
        }
        Ok(())
    }
}

// A symbol's number.
#[derive(Clone, Copy)]
struct Sid(u64);

impl TryFrom<&[u8]> for Sid {
    type Error = Refusal;

    fn try_from(body: &[u8]) -> Result<Self, Refusal> {
        let mut numbers = [0u64; 1];
        answered(gm_read_symbol(body, &mut numbers))?;
        let [sid] = numbers;
        Ok(Sid(sid))
    }
}

impl fmt::Display for Sid {
    fn fmt<W: fmt::Write>(&self, f: &mut fmt::Formatter<W>) -> fmt::Result {
        write!(f, "s{}", self.0)
    }
}

// What a body reads as, or why it is refused.
fn write_read<T: fmt::Display + Drop, W: fmt::Write>(
    f: &mut fmt::Formatter<W>,
    read: Result<T, Refusal>,
) -> fmt::Result {
    match read {
        Ok(value) => write!(f, "{value}"),
        Err(refusal) => write!(f, "{refusal}"),
    }
}

// A value, of which a container is shown by its bracket.
#[derive(Clone, Copy)]
pub(crate) struct Value<'a> {
    pub(crate) kind: u8,
    pub(crate) body: &'a [u8],
}

impl fmt::Display for Value<'_> {
    fn fmt<W: fmt::Write>(&self, f: &mut fmt::Formatter<W>) -> fmt::Result {
        let body = self.body;
        // The table of the type codes.
        match (self.kind / 16, self.kind % 16) {
            (NEGATIVE_INT, NULL) => write!(f, "n{INT}"),
            (code, NULL) => write!(f, "n{code}"),
            (BOOL, bit) => write!(f, "b{bit}"),
            (INT, _) => write!(f, "i+{}", uint(body)),
            (NEGATIVE_INT, _) => write!(f, "i-{}", uint(body)),
            (FLOAT, _) => write!(f, "f{}", Hex(body)),
            (DECIMAL, _) => write_read(f, Decimal::try_from(body)),
            (TIMESTAMP, _) => write_read(f, Timestamp::try_from(body)),
            (SYMBOL, _) => write_read(f, Sid::try_from(body)),
            (STRING, _) => write!(f, "u{}", Hex(body)),
            (CLOB, _) => write!(f, "c{}", Hex(body)),
            (BLOB, _) => write!(f, "o{}", Hex(body)),
            (LIST, _) => f.write_str("["),
            (SEXP, _) => f.write_str("("),
            // What is no code of a value is a struct's here.
            _ => f.write_str("{"),
        }
    }
}
