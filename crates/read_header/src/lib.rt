// One header, taken apart: its type byte and where its body starts and stops, or why it does not read.
#![tactic(auto)]

ghost use Rattle.std.specs.Prelude.{◌≡◌, ◌≤◌, ◌/◌, ◌%◌, length};
ghost use Rattle.reading.specs.Headers.{impossible, alone, measured, never, header_at, marker_at, top_header_at};
ghost use Rattle.read_header.specs.Lengths.{length_at};
ghost use Rattle.read_header.specs.Usual.{least_length, usual};

use reading::codes::{
    ANNOTATIONS, BOOL, FLOAT, LONG, MARKER, NEGATIVE_INT, NULL, RESERVED, SORTED, STRUCT, TIMESTAMP,
};
use reading::{Header, Number, Refusal};

const VERSION_MARKER: [u8; 4] = [MARKER, 0x01, 0x00, 0xEA];

// No value, pad or wrapper has this type byte.
fn is_impossible(b: u8) -> bool
    ensures { result ≡ impossible (b / 16) (b % 16) }
{
    let l = b % 16;
    match b / 16 {
        BOOL => (1 < l) & (l < NULL),
        FLOAT => !((l == 0) | ((l == 4) | ((l == 8) | (l == NULL)))),
        ANNOTATIONS => (l == 0) | (l == NULL),
        RESERVED => true,
        _ => false,
    }
}

// The type descriptor is the whole value.
fn is_alone(b: u8) -> bool
    ensures { result ≡ alone (b / 16) (b % 16) }
{
    (b % 16 == NULL) | (b / 16 == BOOL)
}

// A length field follows.
fn is_measured(b: u8) -> bool
    ensures { result ≡ measured (b / 16) (b % 16) }
{
    let (t, l) = (b / 16, b % 16);
    (l == LONG) | ((t == STRUCT) & (l == SORTED))
}

// The type never has a body of `n` bytes.
fn is_never(b: u8, n: u64) -> bool
    ensures { result ≡ never (b / 16) (b % 16) n }
{
    if 2 < n {
        return false;
    }
    let (t, l) = (b / 16, b % 16);
    ((t == NEGATIVE_INT) & (n == 0))
        | (((t == TIMESTAMP) & (n < 2))
            | (((t == ANNOTATIONS) & (n < 3))
                | ((t == STRUCT) & ((n == 1) | ((l == SORTED) & (n == 0))))))
}

// The length of the body, which the low four bits say or a field at `at`, and where the body starts.
fn length_at(s: &[u8], b: u8, at: usize, out: Refusal) -> Result<Number, Refusal>
    ensures { result ≡ length_at out s.now b at }
{
    if is_measured(b) {
        return read_fields::var_uint(s, at, out);
    }
    Ok(Number {
        value: u64::from(b % 16),
        next: at,
    })
}

// The header at `at`, whatever its type byte. The length is held against the bytes that are left, since start and length together may wrap.
#[tactic(auto, using(crate::proofs::Headers::a_byte))]
fn any_header_at(s: &[u8], at: usize, out: Refusal) -> Result<Header, Refusal>
    ensures { result ≡ header_at out s.now at }
{
    let b = *s.get(at).ok_or(out)?;
    if is_impossible(b) {
        return Err(Refusal::NotIon);
    }
    if is_alone(b) {
        return Ok(Header {
            kind: b,
            start: at + 1,
            stop: at + 1,
        });
    }
    let Number {
        value: n,
        next: start,
    } = length_at(s, b, at + 1, out)?;
    if is_never(b, n) {
        return Err(Refusal::NotIon);
    }
    if ((s.len() - start) as u64) < n {
        return Err(out);
    }
    Ok(Header {
        kind: b,
        start,
        stop: start + n as usize,
    })
}

// The least length of a type's bodies that the low four bits of its type byte may say; `LONG`, above every length, for types whose low bits say other things too, so that `is_usual` asks once.
fn least_length(t: u8) -> u8
    ensures { result ≡ least_length t }
{
    match t {
        BOOL | FLOAT | RESERVED => LONG,
        NEGATIVE_INT => 1,
        TIMESTAMP | STRUCT => 2,
        ANNOTATIONS => 3,
        _ => 0,
    }
}

// The low four bits say a length that the type may have.
fn is_usual(b: u8) -> bool
    ensures { result ≡ usual b }
{
    (least_length(b / 16) <= b % 16) & (b % 16 < LONG)
}

// The header at `at`; `out` where the bytes end before its body does. Most have a short length, so that is asked first.
#[tactic(auto, using(crate::proofs::Usual::a_usual_byte))]
pub fn header_at(s: &[u8], at: usize, out: Refusal) -> Result<Header, Refusal>
    ensures { result ≡ header_at out s.now at }
{
    let b = *s.get(at).ok_or(out)?;
    if !is_usual(b) {
        return any_header_at(s, at, out);
    }
    let size = usize::from(b % 16);
    if s.len() - at <= size {
        return Err(out);
    }
    Ok(Header {
        kind: b,
        start: at + 1,
        stop: at + 1 + size,
    })
}

// The version marker at `at`, or what a beginning of it is.
#[tactic(auto, using(crate::proofs::Markers::a_marker), unfolding(reading::specs::Headers::marker_at))]
fn marker_at(s: &[u8], at: usize) -> Result<Header, Refusal>
    requires { at ≤ length s.now }
    ensures { result ≡ marker_at s.now at }
{
    let rest = &s[at..];
    if rest.starts_with(&VERSION_MARKER) {
        return Ok(Header {
            kind: MARKER,
            start: at + VERSION_MARKER.len(),
            stop: at + VERSION_MARKER.len(),
        });
    }
    if VERSION_MARKER.starts_with(rest) {
        return Err(Refusal::CutShort);
    }
    Err(Refusal::NotIon)
}

// The header or marker at `at`, at top level.
#[tactic(auto, using(crate::proofs::Markers::at_top))]
pub fn top_header_at(s: &[u8], at: usize) -> Result<Header, Refusal>
    ensures { result ≡ top_header_at s.now at }
{
    let b = *s.get(at).ok_or(Refusal::CutShort)?;
    if b == MARKER {
        return marker_at(s, at);
    }
    any_header_at(s, at, Refusal::CutShort)
}
