// The scalars of document 01's value_writer, without annotations: a descriptor byte with the type code in its high four bits, then the body.
// A value's bytes, their size and its refusal are found by its own checks.
#![tactic(auto, using(crate::proofs::Puts::by_checks), unfolding(crate::specs::Refused::own_refusal, encoding::specs::Argument::argument_bytes))]

ghost use Rattle.std.specs.Prelude.{◌≡◌, List, ℕ, Option, ◌*◌, ◌/◌, ◌^◌, ◌<◌, ◌≤◌, length};
ghost use Rattle.ion.specs.Value.{high_bits};
ghost use Rattle.ion.specs.Text.{utf8};
ghost use Rattle.encoding.specs.Headers.{type_byte, framed_bytes};
ghost use Rattle.encoding.specs.Argument.{Argument, code_of_null, code_of_sign, checked_bytes, write_null, write_bool, write_i64, write_int, write_decimal, write_symbol, write_string};
ghost use Rattle.machine.specs.Machine.{refused};
ghost use Rattle.machine.specs.Numbers.{number};
ghost use Rattle.buffer.specs.Laid.{written, size_of};
ghost use Rattle.timestamp.specs.Arguments.{argument_of};
ghost use Rattle.scalars.specs.Types.{type_of};
ghost use Rattle.scalars.specs.Refused.{own_refusal};
ghost use Rattle.scalars.specs.Lobs.{lob_argument};

pub use decimal::Decimal;
use decimal::MAX_BODY;
use floats::{Float, FloatBits};
pub use int::Int;
use machine::Refusal;
pub use timestamp::Timestamp;

// The type bytes that are put, each named once: an enum of them would have to be turned back into the byte.
const BOOL: u8 = 0x10;

const INT: u8 = 0x20;

// From the type byte of the ints to that of the negative ones.
const NEGATIVE: u8 = 0x10;

const SYMBOL: u8 = 0x70;

const STRING: u8 = 0x80;

const CLOB: u8 = 0x90;

const BLOB: u8 = 0xA0;

// What a scalar call is given: `argument` is what the definition of the call's bytes says of it.
// Seven types have no checks, and each says so in its refusal: a default could not know that a type has none.
pub trait WriteAsIon: Copy {
    ghost argument: { Self → Argument };

    // The bytes that it takes, header and body; none where one of its own checks refuses it.
    fn size(self) -> Option<usize>
        ensures { result ≡ size_of (checked_bytes (argument self)) };

    // Puts these bytes.
    fn write(self, buf: &mut [u8], at: usize) -> Option<usize>
        ensures { ◌≡◌ {A = Option ℕ × List ℕ} (result, buf.new) (written buf.old at (checked_bytes (argument self))) };

    // Why it was not put where it may stand: the first of its own checks that fails, or 10.
    fn refusal(self) -> Refusal
        ensures { refused (number result) ≡ own_refusal (argument self) };
}

// ---- nulls, bools

#[derive(Clone, Copy, Debug, PartialEq, Eq)]
pub enum IonType {
    Null,
    Bool,
    Int,
    Float,
    Decimal,
    Timestamp,
    Symbol,
    String,
    Clob,
    Blob,
    List,
    Sexp,
    Struct,
}

// The type code of a null. Of the two codes of the ints it is that of zero and above.
impl From<IonType> for u8 {
    ghost from_gives = { λ t n. n ≡ high_bits (code_of_null (type_of t)) };

    fn from(t: IonType) -> u8 {
        match t {
            IonType::Null => 0,
            IonType::Bool => 1,
            IonType::Int => 2,
            IonType::Float => 4,
            IonType::Decimal => 5,
            IonType::Timestamp => 6,
            IonType::Symbol => 7,
            IonType::String => 8,
            IonType::Clob => 9,
            IonType::Blob => 10,
            IonType::List => 11,
            IonType::Sexp => 12,
            IonType::Struct => 13,
        }
    }
}

// A null of a type: one byte, the type code and F. The remainder lets the checker see that the code fits in four bits.
impl WriteAsIon for IonType {
    ghost argument = { λ t. write_null (type_of t) };

    fn size(self) -> Option<usize> {
        Some(1)
    }

    fn write(self, buf: &mut [u8], at: usize) -> Option<usize> {
        buffer::put(buf, at, u8::from(self) % 16 * 16 + 15)
    }

    fn refusal(self) -> Refusal {
        Refusal::NoRoom
    }
}

// 10, and 11 for true.
impl WriteAsIon for bool {
    ghost argument = { write_bool };

    fn size(self) -> Option<usize> {
        Some(1)
    }

    fn write(self, buf: &mut [u8], at: usize) -> Option<usize> {
        buffer::put(buf, at, BOOL + u8::from(self))
    }

    fn refusal(self) -> Refusal {
        Refusal::NoRoom
    }
}

// ---- ints and symbols

// 2 for zero and above, 3 below.
fn int_code(negative: bool) -> u8
    ensures { result ≡ type_byte (code_of_sign negative) }
{
    INT + NEGATIVE * u8::from(negative)
}

// The bytes that `body` bytes take with their header, of any type. A slice is shorter than 2 to the 63, so the sum does not wrap.
#[tactic(auto, using(crate::proofs::Puts::header_sizes))]
fn framed_size(body: usize) -> usize
    requires { body ≤ 2 ^ 63 }
    ensures { (t : ℕ) (bytes : List ℕ) → length bytes ≡ body → result ≡ length (framed_bytes t bytes) }
{
    header::encoded_size_of(body) + body
}

// The bytes that the body `bytes` takes with its header, of any type.
pub fn bytes_size(bytes: &[u8]) -> usize
    ensures { (t : ℕ) → result ≡ length (framed_bytes t bytes.now) }
{
    framed_size(bytes.len())
}

// Zero has no body.
impl WriteAsIon for i64 {
    ghost argument = { write_i64 };

    fn size(self) -> Option<usize> {
        Some(framed_size(uint::encoded_size_of(sign::magnitude(self))))
    }

    fn write(self, buf: &mut [u8], at: usize) -> Option<usize> {
        uint::write_framed(
            buf,
            at,
            int_code(sign::is_negative(self)),
            sign::magnitude(self),
        )
    }

    fn refusal(self) -> Refusal {
        Refusal::NoRoom
    }
}

// A symbol's sid. Sid 0 has no body.
#[derive(Clone, Copy, Debug, PartialEq, Eq)]
pub struct Symbol(pub u64);

impl WriteAsIon for Symbol {
    ghost argument = { λ s. write_symbol s.0 };

    fn size(self) -> Option<usize> {
        Some(framed_size(uint::encoded_size_of(self.0)))
    }

    fn write(self, buf: &mut [u8], at: usize) -> Option<usize> {
        uint::write_framed(buf, at, SYMBOL, self.0)
    }

    fn refusal(self) -> Refusal {
        Refusal::NoRoom
    }
}

// A body of any length behind its header. The low four bits of `code` do not count.
// These five lines stand in `Decimal::write` and `Utc::put` too: each puts its body by a function of its own, so only the test of the room could be shared.
pub fn write_bytes(buf: &mut [u8], at: usize, code: u8, bytes: &[u8]) -> Option<usize>
    ensures { ◌≡◌ {A = Option ℕ × List ℕ} (result, buf.new) (written buf.old at (framed_bytes (code / 16 * 16) bytes.now)) }
{
    if !buffer::has_room(buf.len(), at, framed_size(bytes.len())) {
        return None;
    }
    let header = header::write(buf, at, code, bytes.len())?;
    let body = buffer::copy(buf, at + header, bytes)?;
    Some(header + body)
}

// Zero has one byte; negative zero is refused.
// The count of leading zeros is asked, for the test of zero and for the size: a slice without them, in its place, would be compared by its length.
impl<'a> WriteAsIon for Int<'a> {
    ghost argument = { λ i. write_int i.negative i.magnitude.now };

    fn size(self) -> Option<usize> {
        if self.is_negative_zero() {
            return None;
        }
        let body = self.magnitude.len() - uint::leading_zero_bytes(self.magnitude);
        Some(framed_size(body.max(1)))
    }

    #[tactic(auto, using(crate::proofs::Ints::by_magnitude))]
    fn write(self, buf: &mut [u8], at: usize) -> Option<usize> {
        if self.is_negative_zero() {
            return None;
        }
        let code = int_code(self.negative);
        let zeros = uint::leading_zero_bytes(self.magnitude);
        if zeros == self.magnitude.len() {
            return write_bytes(buf, at, code, b"\0");
        }
        write_bytes(buf, at, code, &self.magnitude[zeros..])
    }

    fn refusal(self) -> Refusal {
        if Int::is_negative_zero(self) {
            return Refusal::NegativeZero;
        }
        Refusal::NoRoom
    }
}

// ---- floats

// A float by its bits, of binary32 or of binary64, the latter in four bytes where binary32 holds it; a NaN keeps its own.
#[derive(Clone, Copy, Debug, PartialEq, Eq)]
pub struct Bits<B: FloatBits>(pub B);

impl<B: FloatBits> WriteAsIon for Bits<B> {
    ghost argument = { λ b. B.argument (B.number b.0) };

    fn size(self) -> Option<usize> {
        Some(self.0.float_size())
    }

    fn write(self, buf: &mut [u8], at: usize) -> Option<usize> {
        self.0.write_float(buf, at)
    }

    fn refusal(self) -> Refusal {
        Refusal::NoRoom
    }
}

// A float by its value, an f32 or an f64. A NaN has the bits 7FC00000 or 7FF8000000000000.
// A struct around it: an impl for each type with the bound would meet those for Decimal and Timestamp, which are of other crates.
#[derive(Clone, Copy, Debug)]
pub struct Value<F: Float>(pub F);

impl<F: Float> WriteAsIon for Value<F> {
    ghost argument = { λ v. F.Bits.argument (F.bits_of v.0) };

    fn size(self) -> Option<usize> {
        Some(floats::size(self.0))
    }

    fn write(self, buf: &mut [u8], at: usize) -> Option<usize> {
        floats::write(buf, at, self.0)
    }

    fn refusal(self) -> Refusal {
        Refusal::NoRoom
    }
}

// ---- decimals

// A body over 32 bytes is refused.
impl<'a> WriteAsIon for Decimal<'a> {
    ghost argument = { λ d. write_decimal d.coefficient.negative d.coefficient.magnitude.now d.exponent };

    fn size(self) -> Option<usize> {
        Decimal::size(self)
    }

    fn write(self, buf: &mut [u8], at: usize) -> Option<usize> {
        Decimal::write(self, buf, at)
    }

    fn refusal(self) -> Refusal {
        if MAX_BODY < self.body_size() {
            return Refusal::DecimalTooLong;
        }
        Refusal::NoRoom
    }
}

// ---- timestamps

// Local fields. One that breaks the rules of check 7 is refused.
impl WriteAsIon for Timestamp {
    ghost argument = { argument_of };

    fn size(self) -> Option<usize> {
        timestamp::size(self)
    }

    fn write(self, buf: &mut [u8], at: usize) -> Option<usize> {
        timestamp::write(buf, at, self)
    }

    fn refusal(self) -> Refusal {
        if self.is_valid() {
            return Refusal::NoRoom;
        }
        Refusal::BadTimestamp
    }
}

// ---- strings and lobs

// A string's bytes, tested for UTF-8 once, where it is made. Those that are not UTF-8 are refused.
// The bytes stay beside the answer, and in no Option: what a refused string is refused by names them.
#[derive(Clone, Copy)]
pub struct Text<'a> {
    bytes: &'a [u8],
    is_utf8: bool,
    ghost told: { is_utf8 ≡ utf8 bytes.now },
}

impl<'a> Text<'a> {
    pub fn new(bytes: &'a [u8]) -> Text<'a>
        ensures { result.bytes ≡ bytes.entry }
    {
        Text {
            bytes,
            is_utf8: text::is_utf8(bytes),
        }
    }

    // Check 6 of document 01's table lets it pass.
    pub fn is_utf8(self) -> bool
        ensures { result ≡ utf8 self.entry.bytes.now }
    {
        self.is_utf8
    }
}

impl<'a> WriteAsIon for Text<'a> {
    ghost argument = { λ s. write_string s.bytes.now };

    fn size(self) -> Option<usize> {
        if !self.is_utf8() {
            return None;
        }
        Some(bytes_size(self.bytes))
    }

    fn write(self, buf: &mut [u8], at: usize) -> Option<usize> {
        if !self.is_utf8() {
            return None;
        }
        write_bytes(buf, at, STRING, self.bytes)
    }

    fn refusal(self) -> Refusal {
        if self.is_utf8() {
            return Refusal::NoRoom;
        }
        Refusal::NotUtf8
    }
}

// The bytes of a clob or a blob.
#[derive(Clone, Copy)]
pub enum Lob<'a> {
    Clob(&'a [u8]),
    Blob(&'a [u8]),
}

impl<'a> WriteAsIon for Lob<'a> {
    ghost argument = { lob_argument };

    fn size(self) -> Option<usize> {
        let (Lob::Clob(bytes) | Lob::Blob(bytes)) = self;
        Some(bytes_size(bytes))
    }

    fn write(self, buf: &mut [u8], at: usize) -> Option<usize> {
        match self {
            Lob::Clob(bytes) => write_bytes(buf, at, CLOB, bytes),
            Lob::Blob(bytes) => write_bytes(buf, at, BLOB, bytes),
        }
    }

    fn refusal(self) -> Refusal {
        Refusal::NoRoom
    }
}
