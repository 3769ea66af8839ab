// The writer's call that words name: the function and its arguments, before which may stand `ann` and the sids of the annotations, eight bytes each.
// A float is named by its bits: `f32` and `f64` hand those on, `f32_value` and `f64_value` the float itself.
ghost use Rattle.std.specs.Prelude.{◌≤◌, length};

use machine::{Closed, Refused, State};
use scalars::IonType;
use timestamp::{Precision, Timestamp};
use words::filled::Filled;
use words::{hex, numbers};
use writer::ContainerType;

// What a body of many bytes holds.
const BODY: u8 = 0x55;

const SIGN_32: u32 = 0x8000_0000;

const SIGN_64: u64 = 0x8000_0000_0000_0000;

const INFINITY_32: u32 = 0x7F80_0000;

const INFINITY_64: u64 = 0x7FF0_0000_0000_0000;

#[derive(Clone, Copy)]
enum Function {
    Start,
    Name,
    Close,
    Abandon,
    Marker,
    Empty,
    Open(ContainerType),
    Null,
    Bool,
    I64,
    Int,
    F32,
    F64,
    F32Value,
    F64Value,
    Decimal,
    Timestamp,
    Symbol,
    String,
    Clob,
    Blob,
}

// A word that names none of them.
#[derive(Clone, Copy)]
pub(crate) struct NoCall;

impl TryFrom<&[u8]> for Function {
    type Error = NoCall;

    fn try_from(name: &[u8]) -> Result<Self, NoCall> {
        Ok(match name {
            b"start" => Function::Start,
            b"name" => Function::Name,
            b"close" => Function::Close,
            b"abandon" => Function::Abandon,
            b"marker" => Function::Marker,
            b"empty" => Function::Empty,
            b"list" => Function::Open(ContainerType::List),
            b"sexp" => Function::Open(ContainerType::Sexp),
            b"struct" => Function::Open(ContainerType::Struct),
            b"null" => Function::Null,
            b"bool" => Function::Bool,
            b"i64" => Function::I64,
            b"int" => Function::Int,
            b"f32" => Function::F32,
            b"f64" => Function::F64,
            b"f32_value" => Function::F32Value,
            b"f64_value" => Function::F64Value,
            b"decimal" => Function::Decimal,
            b"timestamp" => Function::Timestamp,
            b"symbol" => Function::Symbol,
            b"string" => Function::String,
            b"clob" => Function::Clob,
            b"blob" => Function::Blob,
            _ => return Err(NoCall),
        })
    }
}

// The float of these bits. Those of a NaN are all the one NaN that the language has.
// Two functions: the types share no trait that makes a float of bits, and one of our own with an impl for each would say more than these do.
fn f32_of(bits: u32) -> f32 {
    if INFINITY_32 < bits % SIGN_32 {
        return f32::NAN;
    }
    f32::from_bits(bits)
}

fn f64_of(bits: u64) -> f64 {
    if INFINITY_64 < bits % SIGN_64 {
        return f64::NAN;
    }
    f64::from_bits(bits)
}

// The program `vectors` has the same type over other functions: see there.
#[derive(Clone, Copy)]
pub(crate) struct Call<'a> {
    function: Function,
    // The sids in hex, none where `ann` does not stand.
    sids: &'a [u8],
    // The function's name and its arguments.
    words: &'a [u8],
}

impl<'a> TryFrom<&'a [u8]> for Call<'a> {
    type Error = NoCall;

    fn try_from(call: &'a [u8]) -> Result<Self, NoCall> {
        let (sids, words) = match words::word(call, 0) {
            b"ann" => (words::word(call, 1), words::from_word(call, 2)),
            _ => (&call[..0], call),
        };
        let function = Function::try_from(words::word(words, 0))?;
        Ok(Call {
            function,
            sids,
            words,
        })
    }
}

impl<'a> Call<'a> {
    // The argument at index `n`, counted from 1.
    fn word(self, n: usize) -> &'a [u8] {
        words::word(self.words, n)
    }

    fn number(self) -> u64 {
        numbers::natural(self.word(1), u64::MAX).unwrap_or(0)
    }

    fn number_u32(self, n: usize) -> u32 {
        numbers::natural_u32(self.word(n)).unwrap_or(0)
    }

    fn signed(self, n: usize) -> i64 {
        numbers::i64_of(self.word(n)).unwrap_or(0)
    }

    fn is_negative(self) -> bool {
        matches!(self.word(1), b"neg")
    }

    fn bits(self) -> u64 {
        hex::bits(self.word(1))
    }

    fn bits_32(self) -> u32 {
        (self.bits() % 0x1_0000_0000) as u32
    }

    // The local time at second precision with an unknown offset.
    fn local_time(self) -> Timestamp {
        Timestamp {
            precision: Precision::Second,
            year: self.number_u32(1),
            month: self.number_u32(2),
            day: self.number_u32(3),
            hour: self.number_u32(4),
            minute: self.number_u32(5),
            second: self.number_u32(6),
            offset: None,
            fraction: None,
        }
    }

    // Puts the argument that is bytes, behind the sign where there is one, and answers their number. A blob's are as many bytes 55 as its word says,
    // which stand there already.
    fn put_bytes(self, out: &mut [u8]) -> usize
        ensures { result ≤ length out.new }
    {
        match self.function {
            Function::Blob => out.len().min(self.number() as usize),
            Function::Int | Function::Decimal => hex::bytes(self.word(2), out),
            _ => hex::bytes(self.word(1), out),
        }
    }

    // Makes the call.
    pub(crate) fn make(self, state: State, buf: &mut [u8]) -> Result<Closed, Refused> {
        let annotations: Filled<256> = Filled::from_hex(self.sids);
        let annotations = annotations.used();
        let mut bytes = [BODY; 65536];
        let m = self.put_bytes(&mut bytes);
        let bytes = &bytes[..m];
        let state = match self.function {
            Function::Close => return writer::close(state, buf),
            Function::Start => writer::start(buf),
            Function::Name => writer::field_name(state, buf, self.number()),
            Function::Abandon => writer::abandon(state, buf),
            Function::Marker => writer::version_marker(state, buf),
            Function::Open(kind) => writer::open(state, buf, annotations, kind),
            Function::Null => writer::write_null(state, buf, annotations, IonType::Null),
            Function::Bool => writer::write_bool(state, buf, annotations, self.number() == 1),
            Function::I64 => writer::write_i64(state, buf, annotations, self.signed(1)),
            Function::Int => writer::write_int(state, buf, annotations, self.is_negative(), bytes),
            Function::F32 => writer::write_f32_bits(state, buf, annotations, self.bits_32()),
            Function::F64 => writer::write_f64_bits(state, buf, annotations, self.bits()),
            Function::F32Value => {
                writer::write_f32(state, buf, annotations, f32_of(self.bits_32()))
            }
            Function::F64Value => writer::write_f64(state, buf, annotations, f64_of(self.bits())),
            Function::Decimal => {
                let exponent = self.signed(3);
                writer::write_decimal(state, buf, annotations, self.is_negative(), bytes, exponent)
            }
            Function::Timestamp => {
                writer::write_timestamp(state, buf, annotations, self.local_time())
            }
            Function::Symbol => writer::write_symbol(state, buf, annotations, self.number()),
            Function::String => writer::write_string(state, buf, annotations, bytes),
            Function::Clob => writer::write_clob(state, buf, annotations, bytes),
            Function::Blob => writer::write_blob(state, buf, annotations, bytes),
            Function::Empty => writer::empty(state, buf),
        };
        // No closing, of whose container a line would have the figures: zeros, as in `lines`.
        Ok(Closed {
            state: state?,
            size: 0,
            members: 0,
            moved: 0,
        })
    }
}
