// Decimals: document 01's module binary/decimal. A body is the exponent as a VarInt, then the coefficient as an Int; positive zero with exponent 0 has none.
#![tactic(auto)]

ghost use Rattle.std.specs.Prelude.{◌≡◌, List, ℕ, Option, ◌+◌, ◌≤◌, length};
ghost use Rattle.buffer.specs.Laid.{placed, written, size_of};
ghost use Rattle.encoding.specs.Decimal.{decimal_body};
ghost use Rattle.encoding.specs.Argument.{write_decimal, checked_bytes};

use int::Int;

const TYPE_CODE: u8 = 0x50;

// Check 8: a longer body is refused.
pub const MAX_BODY: usize = 32;

// The coefficient keeps the sign of zero.
#[derive(Clone, Copy)]
pub struct Decimal<'a> {
    pub coefficient: Int<'a>,
    pub exponent: i64,
}

impl<'a> Decimal<'a> {
    // The length of the body; 0 is that of the empty one. A slice is shorter than 2 to the 63, so the sum does not wrap.
    pub fn body_size(self) -> usize
        ensures { result ≡ length (decimal_body self.entry.coefficient.negative self.entry.coefficient.magnitude.now self.entry.exponent) }
    {
        let coefficient = int::encoded_size_of(self.coefficient);
        let scale = sign::magnitude(self.exponent);
        if (coefficient == 0) & (scale == 0) {
            return 0;
        }
        var_int::encoded_size_of(scale) + coefficient
    }

    // The bytes that the decimal takes, header and body; none where the body is longer than 32 bytes.
    pub fn size(self) -> Option<usize>
        ensures { result ≡ size_of (checked_bytes (write_decimal self.entry.coefficient.negative self.entry.coefficient.magnitude.now self.entry.exponent)) }
    {
        let body = self.body_size();
        if MAX_BODY < body {
            return None;
        }
        Some(header::encoded_size_of(body) + body)
    }

    // The body, given its length.
    fn put_body(self, buf: &mut [u8], at: usize, body: usize) -> Option<usize>
        requires { (body ≡ length (decimal_body self.coefficient.negative self.coefficient.magnitude.now self.exponent)) × (at + body ≤ length buf.old) }
        ensures { ◌≡◌ {A = Option ℕ × List ℕ} (result, buf.new) (placed buf.old at (decimal_body self.entry.coefficient.negative self.entry.coefficient.magnitude.now self.entry.exponent)) }
    {
        if body == 0 {
            return Some(0);
        }
        let exponent = self.exponent;
        let one = var_int::write(
            buf,
            at,
            sign::is_negative(exponent),
            sign::magnitude(exponent),
        )?;
        let more = int::write(buf, at + one, self.coefficient)?;
        Some(one + more)
    }

    // Header and body. Nothing is put where the body is longer than 32 bytes.
    // As `Utc::put` of timestamp and `scalars::write_bytes`: the bodies are put by three functions, so only the test of the room could be shared.
    pub fn write(self, buf: &mut [u8], at: usize) -> Option<usize>
        ensures { ◌≡◌ {A = Option ℕ × List ℕ} (result, buf.new)
            (written buf.old at (checked_bytes (write_decimal self.entry.coefficient.negative self.entry.coefficient.magnitude.now self.entry.exponent))) }
    {
        let body = self.body_size();
        if MAX_BODY < body {
            return None;
        }
        let size = header::encoded_size_of(body) + body;
        if !buffer::has_room(buf.len(), at, size) {
            return None;
        }
        let header = header::write(buf, at, TYPE_CODE, body)?;
        let rest = self.put_body(buf, at + header, body)?;
        Some(header + rest)
    }
}
