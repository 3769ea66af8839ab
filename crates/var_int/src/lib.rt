// VarInt: a VarUInt whose first byte holds six bits of the magnitude below the sign.
// `as u8` of a number that fits one byte: Rust has no `From` for it.
#![tactic(auto)]

ghost use Rattle.std.specs.Prelude.{◌≡◌, false, List, ℕ, Option, length};
ghost use Rattle.ion.specs.Value.{signed};
ghost use Rattle.encoding.specs.Fields.{var_int_bytes};
ghost use Rattle.buffer.specs.Laid.{placed};

const END_FLAG: u8 = 0x80;

const LOWER_7_BITMASK: u8 = 0x7F;

const SIGN: u8 = 0x40;

// The least magnitude that takes more than one byte.
const TWO_BYTES: u64 = 64;

// The bytes that a VarInt of this magnitude takes, of either sign: n of them hold 6 + 7 (n - 1) bits.
#[tactic(auto, using(encoding::proofs::Sizes::sizes))]
pub fn encoded_size_of(magnitude: u64) -> usize
    ensures { result ≡ length (var_int_bytes (signed false magnitude)) }
{
    if magnitude < TWO_BYTES {
        return 1;
    }
    digits::bits_used(magnitude) / 7 + 1
}

// The sign and the magnitude as a VarInt: the digits of base 128, then the last again, with the end flag, and the first, with the sign. Zero keeps its sign.
// Sign and magnitude are two words: of the three calls in the library one computes both in it, one takes them out of an Option at once, and one knows the sign.
// A struct of both would be made for the call and taken apart here.
pub fn write(buf: &mut [u8], at: usize, negative: bool, magnitude: u64) -> Option<usize>
    ensures { ◌≡◌ {A = Option ℕ × List ℕ} (result, buf.new) (placed buf.old at (var_int_bytes (signed negative magnitude))) }
{
    let sign = SIGN * u8::from(negative);
    if magnitude < TWO_BYTES {
        return buffer::put(buf, at, END_FLAG + sign + magnitude as u8);
    }
    let put = digits::put_digits(
        buf,
        at,
        encoded_size_of(magnitude),
        LOWER_7_BITMASK,
        magnitude,
    )?;
    let last = put - 1;
    buf[at + last] = END_FLAG + (magnitude % 128) as u8;
    buf[at] = sign + (magnitude >> (7 * last)) as u8;
    Some(put)
}
