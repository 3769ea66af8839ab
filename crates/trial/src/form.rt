// The scalars of a line, read by the form of document 01: their words, and the limits of numbers.
ghost use Rattle.std.specs.Prelude.{◌≤◌, length, IfOk};

use crate::names::{Name, are_names};
use crate::refused::Refused;
use crate::walk::Part;
use words::{count, hex, numbers, word};

// The types of the Ion document, by their codes. 3 is that of negative ints. `scalars` has such a type, and `timestamp` one of the name below: this program
// is built on the entry points alone, which take numbers.
#[derive(Clone, Copy)]
pub(crate) enum Type {
    Null,
    Bool,
    Int,
    Float = 4,
    Decimal,
    Timestamp,
    Symbol,
    String,
    Clob,
    Blob,
    List,
    Sexp,
    Struct,
}

impl TryFrom<&[u8]> for Type {
    type Error = Refused;

    fn try_from(word: &[u8]) -> Result<Type, Refused> {
        match word {
            b"null" => Ok(Type::Null),
            b"bool" => Ok(Type::Bool),
            b"int" => Ok(Type::Int),
            b"float" => Ok(Type::Float),
            b"decimal" => Ok(Type::Decimal),
            b"timestamp" => Ok(Type::Timestamp),
            b"symbol" => Ok(Type::Symbol),
            b"string" => Ok(Type::String),
            b"clob" => Ok(Type::Clob),
            b"blob" => Ok(Type::Blob),
            b"list" => Ok(Type::List),
            b"sexp" => Ok(Type::Sexp),
            b"struct" => Ok(Type::Struct),
            _ => Err(Refused::Form),
        }
    }
}

// The last field that a timestamp has, by the numbers that the call takes.
#[derive(Clone, Copy)]
pub(crate) enum Precision {
    Year,
    Month,
    Day,
    Minute,
    Second,
}

impl Precision {
    // By the words of a timestamp: its name, the offset, 1, 2, 3, 5 or 6 fields, and a fraction's digit count and coefficient.
    fn of(words: usize) -> Result<Precision, Refused> {
        match words {
            3 => Ok(Precision::Year),
            4 => Ok(Precision::Month),
            5 => Ok(Precision::Day),
            7 => Ok(Precision::Minute),
            8 | 10 => Ok(Precision::Second),
            _ => Err(Refused::Form),
        }
    }
}

#[derive(Clone, Copy)]
pub(crate) struct Fraction {
    pub(crate) digits: u32,
    pub(crate) coefficient: u64,
}

// A field that is not there is 0, as the call takes it.
#[derive(Clone, Copy)]
pub(crate) struct Timestamp {
    pub(crate) precision: Precision,
    pub(crate) offset: Option<i32>,
    pub(crate) year: u32,
    pub(crate) month: u32,
    pub(crate) day: u32,
    pub(crate) hour: u32,
    pub(crate) minute: u32,
    pub(crate) second: u32,
    pub(crate) fraction: Option<Fraction>,
}

impl TryFrom<&[u8]> for Timestamp {
    type Error = Refused;

    fn try_from(text: &[u8]) -> Result<Timestamp, Refused> {
        let words = count(text);
        Ok(Timestamp {
            precision: Precision::of(words)?,
            offset: offset(word(text, 1))?,
            year: field(text, words, 2)?,
            month: field(text, words, 3)?,
            day: field(text, words, 4)?,
            hour: field(text, words, 5)?,
            minute: field(text, words, 6)?,
            second: field(text, words, 7)?,
            fraction: fraction_of(text, words)?,
        })
    }
}

// A number of at most `most`.
fn number(word: &[u8], most: u64) -> Result<u64, Refused>
    ensures { IfOk result (λ n. n ≤ most) }
{
    numbers::natural(word, most).ok_or(Refused::Form)
}

fn signed_number(word: &[u8]) -> Result<i64, Refused> {
    numbers::i64_of(word).ok_or(Refused::Form)
}

// An offset, which may be unknown.
fn offset(word: &[u8]) -> Result<Option<i32>, Refused> {
    match word {
        b"?" => Ok(None),
        _ => Ok(Some(numbers::i32_of(word).ok_or(Refused::Form)?)),
    }
}

// The field of a timestamp at a word, or 0 where it has no such word.
fn field(text: &[u8], words: usize, i: usize) -> Result<u32, Refused> {
    if words <= i {
        return Ok(0);
    }
    Ok(number(word(text, i), numbers::MOST_I32)? as u32)
}

fn fraction_of(text: &[u8], words: usize) -> Result<Option<Fraction>, Refused> {
    if words < 10 {
        return Ok(None);
    }
    Ok(Some(Fraction {
        digits: field(text, words, 8)?,
        coefficient: number(word(text, 9), u64::MAX)?,
    }))
}

// A scalar. Of an int, a coefficient, a string, a clob and a blob it has the word that spells them in hex.
#[derive(Clone, Copy)]
pub(crate) enum Scalar<'a> {
    Null(Type),
    Bool(bool),
    I64(i64),
    Int(&'a [u8]),
    F32(u32),
    F64(u64),
    Decimal(&'a [u8], i64),
    // As its words: with its fields here, every value would be as large, and a short line takes half as long again.
    Timestamp(&'a [u8]),
    Symbol(Name),
    String(&'a [u8]),
    Clob(&'a [u8]),
    Blob(&'a [u8]),
}

impl<'a> TryFrom<&'a [u8]> for Scalar<'a> {
    type Error = Refused;

    fn try_from(text: &'a [u8]) -> Result<Scalar<'a>, Refused> {
        let word = only_word(text);
        match first_word(text) {
            b"null" => Ok(Scalar::Null(Type::try_from(word?)?)),
            b"bool" => Ok(Scalar::Bool(bit(word?)?)),
            b"i64" => Ok(Scalar::I64(signed_number(word?)?)),
            b"int" => Ok(Scalar::Int(integer(word?)?)),
            b"f32" => Ok(Scalar::F32((bits(word?, 8)? % 0x1_0000_0000) as u32)),
            b"f64" => Ok(Scalar::F64(bits(word?, 16)?)),
            b"dec" => decimal(text),
            b"ts" => Ok(Scalar::Timestamp(text)),
            b"symbol" => Ok(Scalar::Symbol(Name::try_from(word?)?)),
            b"string" => Ok(Scalar::String(pairs(text)?)),
            b"clob" => Ok(Scalar::Clob(pairs(text)?)),
            b"blob" => Ok(Scalar::Blob(pairs(text)?)),
            _ => Err(Refused::Form),
        }
    }
}

// As `word(text, 0)`, which promises what the word is and not that it is no longer than the text: the walk's room needs that.
pub(crate) fn first_word(text: &[u8]) -> &[u8]
    ensures { length result.now ≤ length text.now }
{
    match text.iter().position(|byte| *byte == b' ') {
        Some(end) => &text[..end],
        None => text,
    }
}

// The word behind a name, where there is just one.
fn only_word(text: &[u8]) -> Result<&[u8], Refused> {
    let mut words = text.split(|byte| *byte == b' ').skip(1);
    let word = words.next().ok_or(Refused::Form)?;
    match words.next() {
        None => Ok(word),
        Some(_) => Err(Refused::Form),
    }
}

fn bit(word: &[u8]) -> Result<bool, Refused> {
    match word {
        b"0" => Ok(false),
        b"1" => Ok(true),
        _ => Err(Refused::Form),
    }
}

// A hex number of so many digits.
fn bits(word: &[u8], digits: usize) -> Result<u64, Refused> {
    if hex::is_hex(word) && word.len() == digits {
        Ok(hex::bits(word))
    } else {
        Err(Refused::Form)
    }
}

// A hex number with or without minus.
fn integer(word: &[u8]) -> Result<&[u8], Refused> {
    if hex::is_hex(numbers::magnitude(word)) {
        Ok(word)
    } else {
        Err(Refused::Form)
    }
}

fn decimal(text: &[u8]) -> Result<Scalar<'_>, Refused> {
    if count(text) != 3 {
        return Err(Refused::Form);
    }
    Ok(Scalar::Decimal(integer(word(text, 1))?, signed_number(word(text, 2))?))
}

// The hex pairs behind a name, or nothing.
fn pairs(text: &[u8]) -> Result<&[u8], Refused> {
    if count(text) == 1 {
        return Ok(&[]);
    }
    let pairs = only_word(text)?;
    if hex::is_hex(pairs) && pairs.len() % 2 == 0 {
        Ok(pairs)
    } else {
        Err(Refused::Form)
    }
}

// Reads the words of a part.
pub(crate) fn check(part: Part) -> Result<(), Refused> {
    match part {
        Part::Scalar(text) => {
            if let Scalar::Timestamp(text) = Scalar::try_from(text)? {
                Timestamp::try_from(text)?;
            }
        }
        Part::Name(word) => {
            Name::try_from(word)?;
        }
        Part::Annotations(names) => {
            if !are_names(names.text) {
                return Err(Refused::Form);
            }
        }
        Part::Opening(_) | Part::Closing | Part::Mark => (),
    }
    Ok(())
}
