// The call that a vector names: the function and its arguments, before which may stand `ann` and the sids of a scalar's annotations, eight bytes
// each. The bytes go to `AT`.
use crate::functions::{Function, NoFunction, ion_type};
use timestamp::{Fraction, Precision, Timestamp};
use values::{Bits, Decimal, Int, Lob, Symbol, Text};
use words::filled::Filled;
use words::{hex, numbers};

pub(crate) const AT: usize = 3;

// The program `calls` reads its words by the same short methods: the functions that the two name differ, so that a type for both would need a trait.
#[derive(Clone, Copy)]
pub(crate) struct Call<'a> {
    function: Function,
    // The sids in hex, none where `ann` does not stand.
    sids: &'a [u8],
    // The function's name and its arguments.
    words: &'a [u8],
    // All its words, from `ann` on where that stands.
    vector: &'a [u8],
}

impl<'a> TryFrom<&'a [u8]> for Call<'a> {
    type Error = NoFunction;

    fn try_from(vector: &'a [u8]) -> Result<Self, NoFunction> {
        let (sids, words) = match words::word(vector, 0) {
            b"ann" => (words::word(vector, 1), words::from_word(vector, 2)),
            _ => (&vector[..0], vector),
        };
        let function = Function::try_from(words::word(words, 0))?;
        Ok(Call {
            function,
            sids,
            words,
            vector,
        })
    }
}

impl<'a> Call<'a> {
    // The argument at index `n`, counted from 1.
    fn word(self, n: usize) -> &'a [u8] {
        words::word(self.words, n)
    }

    fn number(self, n: usize) -> u64 {
        numbers::natural(self.word(n), u64::MAX).unwrap_or(0)
    }

    fn number_u32(self, n: usize) -> u32 {
        numbers::natural_u32(self.word(n)).unwrap_or(0)
    }

    fn is_negative(self) -> bool {
        matches!(self.word(1), b"neg")
    }

    fn signed(self, n: usize) -> i64 {
        numbers::i64_of(self.word(n)).unwrap_or(0)
    }

    fn bits(self) -> u64 {
        hex::bits(self.word(1))
    }

    // None where it is unknown.
    fn offset(self) -> Option<i32> {
        match self.word(1) {
            b"?" => None,
            minutes => Some(numbers::i32_of(minutes).unwrap_or(0)),
        }
    }

    // By the fields that are there, of which the year is argument 2.
    fn precision(self) -> Precision {
        if self.word(3).is_empty() {
            return Precision::Year;
        }
        if self.word(4).is_empty() {
            return Precision::Month;
        }
        if self.word(5).is_empty() {
            return Precision::Day;
        }
        if self.word(7).is_empty() {
            return Precision::Minute;
        }
        Precision::Second
    }

    fn fraction(self) -> Option<Fraction> {
        if self.word(8).is_empty() {
            return None;
        }
        Some(Fraction {
            digits: self.number_u32(8),
            coefficient: self.number(9),
        })
    }

    fn local_time(self) -> Timestamp {
        Timestamp {
            precision: self.precision(),
            year: self.number_u32(2),
            month: self.number_u32(3),
            day: self.number_u32(4),
            hour: self.number_u32(5),
            minute: self.number_u32(6),
            second: self.number_u32(7),
            offset: self.offset(),
            fraction: self.fraction(),
        }
    }

    // The argument that is bytes: the one behind the sign, where there is one.
    fn hex(self) -> &'a [u8] {
        match self.function {
            Function::Int | Function::WriteInt | Function::WriteDecimal => self.word(2),
            _ => self.word(1),
        }
    }

    // The int with this magnitude.
    fn int(self, magnitude: &[u8]) -> Int<'_> {
        Int {
            negative: self.is_negative(),
            magnitude,
        }
    }

    // Makes the call, and answers how many bytes it put, if it put any.
    pub(crate) fn put(self, buf: &mut [u8]) -> Option<usize> {
        let annotations: Filled<256> = Filled::from_hex(self.sids);
        let annotations = annotations.used();
        let bytes: Filled<256> = Filled::from_hex(self.hex());
        let bytes = bytes.used();
        match self.function {
            Function::VarUint => var_uint::write(buf, AT, self.number(1)),
            Function::VarInt => var_int::write(buf, AT, self.is_negative(), self.number(2)),
            Function::Uint => uint::write(buf, AT, self.number(1)),
            Function::FixedUint => {
                uint::write_fixed(buf, AT, self.number(1) as usize, self.number(2))
            }
            Function::Magnitude => uint::write_magnitude(buf, AT, bytes),
            Function::Int => int::write(buf, AT, self.int(bytes)),
            Function::IntU64 => int::write_u64(buf, AT, self.number(1)),
            Function::Fill => var_uint::fill(buf, AT, self.number(2), self.number(1) as usize),
            Function::Header => {
                header::write(buf, AT, (self.bits() % 256) as u8, self.number(2) as usize)
            }
            Function::Annotations => annotations::write(buf, AT, bytes),
            // 01 for UTF-8, 00 for bytes that are not
            Function::IsUtf8 => buffer::put(buf, AT, u8::from(text::is_utf8(bytes))),
            Function::WriteNull => values::write(buf, AT, annotations, ion_type(self.word(1))),
            Function::WriteBool => values::write(buf, AT, annotations, self.number(1) == 1),
            Function::WriteI64 => values::write(buf, AT, annotations, self.signed(1)),
            Function::WriteInt => values::write(buf, AT, annotations, self.int(bytes)),
            Function::WriteF32 => {
                let bits = Bits((self.bits() % 0x1_0000_0000) as u32);
                values::write(buf, AT, annotations, bits)
            }
            Function::WriteF64 => values::write(buf, AT, annotations, Bits(self.bits())),
            Function::WriteDecimal => {
                let decimal = Decimal {
                    coefficient: self.int(bytes),
                    exponent: self.signed(3),
                };
                values::write(buf, AT, annotations, decimal)
            }
            Function::WriteTimestamp => values::write(buf, AT, annotations, self.local_time()),
            Function::WriteSymbol => values::write(buf, AT, annotations, Symbol(self.number(1))),
            Function::WriteString => values::write(buf, AT, annotations, Text::new(bytes)),
            Function::WriteClob => values::write(buf, AT, annotations, Lob::Clob(bytes)),
            Function::WriteBlob => values::write(buf, AT, annotations, Lob::Blob(bytes)),
        }
    }

    // How many bytes of the `size` expected ones the call puts: of a fill those that its limit lets, which are the last. Behind `ann` the word of the
    // sids is counted as the limit.
    pub(crate) fn count(self, size: usize) -> usize {
        match self.function {
            Function::Fill => {
                let limit = numbers::natural(words::word(self.vector, 1), u64::MAX);
                size.min(limit.unwrap_or(0) as usize)
            }
            _ => size,
        }
    }
}
