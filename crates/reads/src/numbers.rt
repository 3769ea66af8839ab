// Numbers in base ten, and the numbers of a body in hex, from the first byte that is not zero on.
use std::fmt;

// The sign of an Int is the highest bit of its first byte.
const SIGN: u8 = 0x80;

// The bytes from a place on.
pub(crate) fn behind(bytes: &[u8], from: usize) -> &[u8] {
    bytes.get(from..).unwrap_or(&[])
}

// In base ten. Zero has no sign.
#[derive(Clone, Copy)]
pub(crate) struct Signed {
    pub(crate) negative: bool,
    pub(crate) magnitude: u64,
}

impl fmt::Display for Signed {
    fn fmt<W: fmt::Write>(&self, f: &mut fmt::Formatter<W>) -> fmt::Result {
        let magnitude = self.magnitude;
        if self.negative && magnitude != 0 {
            return write!(f, "-{magnitude}");
        }
        write!(f, "{magnitude}")
    }
}

// Two digits for each byte.
#[derive(Clone, Copy)]
pub(crate) struct Hex<'a>(pub(crate) &'a [u8]);

impl fmt::Display for Hex<'_> {
    fn fmt<W: fmt::Write>(&self, f: &mut fmt::Formatter<W>) -> fmt::Result {
        for byte in self.0 {
            write!(f, "{byte:02x}")?;
        }
        Ok(())
    }
}

// The bytes of a UInt without the zeros at their front.
pub(crate) fn uint(bytes: &[u8]) -> Hex<'_> {
    let zeros = bytes.iter().take_while(|byte| **byte == 0).count();
    Hex(behind(bytes, zeros))
}

// An Int's bytes without the sign.
#[derive(Clone, Copy)]
pub(crate) struct Magnitude<'a> {
    first: u8,
    rest: &'a [u8],
}

impl fmt::Display for Magnitude<'_> {
    fn fmt<W: fmt::Write>(&self, f: &mut fmt::Formatter<W>) -> fmt::Result {
        match self.first {
            0 => write!(f, "{}", uint(self.rest)),
            first => write!(f, "{first:02x}{}", Hex(self.rest)),
        }
    }
}

#[derive(Clone, Copy)]
pub(crate) struct Int<'a> {
    pub(crate) negative: bool,
    pub(crate) magnitude: Magnitude<'a>,
}

// No byte at all is zero.
impl<'a> From<&'a [u8]> for Int<'a> {
    fn from(bytes: &'a [u8]) -> Self {
        let (first, rest) = match bytes.split_first() {
            Some((first, rest)) => (*first, rest),
            None => (0, bytes),
        };
        Int {
            negative: SIGN <= first,
            magnitude: Magnitude {
                first: first % SIGN,
                rest,
            },
        }
    }
}

impl fmt::Display for Int<'_> {
    fn fmt<W: fmt::Write>(&self, f: &mut fmt::Formatter<W>) -> fmt::Result {
        let sign = if self.negative { '-' } else { '+' };
        write!(f, "{sign}{}", self.magnitude)
    }
}
