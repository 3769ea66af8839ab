// Annotations, lent as bytes: eight bytes a sid, least significant first, the missing bytes of the last sid zero.
// `as` stands where Rust has no `From`: from usize to u64.
#![tactic(auto)]

ghost use Rattle.std.specs.Prelude.{◌≡◌, List, ℕ, Option, ◌+◌, ◌*◌, ◌^◌, ◌<◌, ◌≤◌, length};
ghost use Rattle.encoding.specs.Fields.{var_uints_bytes};
ghost use Rattle.encoding.specs.Headers.{annotation_bytes};
ghost use Rattle.buffer.specs.Laid.{placed};
ghost use Rattle.annotations.specs.Sids.{least_first, sids_of};
ghost use Rattle.annotations.specs.Prefix.{prefix_bytes, placed_before};

const SID_BYTES: usize = 8;

// The type byte of an annotation wrapper.
pub const WRAPPER: u8 = 0xE0;

// The sid of fewer than eight bytes. Out of line, which keeps its loop out of that over the sids.
#[inline(never)]
fn short_sid(bytes: &[u8]) -> u64
    requires { length bytes.now < 8 }
    ensures { result ≡ least_first bytes.now 0 8 }
{
    let mut sid = 0;
    for byte in bytes.iter().rev() {
        sid = u64::from(*byte) + 256 * sid;
    }
    sid
}

// The sid of up to eight bytes. Of eight the compiler makes one load.
fn sid(bytes: &[u8]) -> u64
    ensures { result ≡ least_first bytes.now 0 8 }
{
    match bytes.first_chunk() {
        Some(whole) => u64::from_le_bytes(*whole),
        None => short_sid(bytes),
    }
}

// The sum of the sids' lengths. A sid takes ten bytes at most for the eight that are lent, so the sum does not wrap.
fn sids_size(annotations: &[u8]) -> usize
    ensures { (result ≡ length (var_uints_bytes (sids_of annotations.now))) × (result ≤ 10 * 2 ^ 60) }
{
    let mut sum: usize = 0;
    for bytes in annotations.chunks(SID_BYTES) {
        sum += var_uint::encoded_size_of(sid(bytes));
    }
    sum
}

// Annotations with the sum of their sids' lengths, and with the bytes that they take: the sum as a VarUInt, then the sids.
#[derive(Clone, Copy)]
struct Measured<'a> {
    annotations: &'a [u8],
    sum: usize,
    whole: usize,
    ghost sum_is: { sum ≡ length (var_uints_bytes (sids_of annotations.now)) },
    ghost whole_is: { whole ≡ length (annotation_bytes (sids_of annotations.now)) },
    ghost most: { whole ≤ 10 * 2 ^ 60 + 10 },
}

impl<'a> Measured<'a> {
    fn of(annotations: &'a [u8]) -> Self
        ensures { result.annotations.now ≡ annotations.now }
    {
        let sum = sids_size(annotations);
        let whole = var_uint::encoded_size_of(sum as u64) + sum;
        Measured {
            annotations,
            sum,
            whole,
        }
    }

    // The sids, one after the other.
    fn put_sids(self, buf: &mut [u8], at: usize) -> Option<usize>
        requires { at + self.sum ≤ length buf.old }
        ensures { ◌≡◌ {A = Option ℕ × List ℕ} (result, buf.new) (placed buf.old at (var_uints_bytes (sids_of self.entry.annotations.now))) }
    {
        let mut written: usize = 0;
        for bytes in self.annotations.chunks(SID_BYTES) {
            written += var_uint::write(buf, at + written, sid(bytes))?;
        }
        Some(written)
    }

    // The sum, then the sids. Inline: an opening calls it once, and takes 202 instructions so for 232.
    #[inline(always)]
    fn put(self, buf: &mut [u8], at: usize) -> Option<usize>
        requires { at + self.whole ≤ length buf.old }
        ensures { ◌≡◌ {A = Option ℕ × List ℕ} (result, buf.new) (placed buf.old at (annotation_bytes (sids_of self.entry.annotations.now))) }
    {
        let first = var_uint::write(buf, at, self.sum as u64)?;
        let rest = self.put_sids(buf, at + first)?;
        Some(first + rest)
    }
}

// Three functions put annotations. They differ in what stands before these and what has to fit behind, each of which is a definition of its own.

// The annotations: the sum of the sids' lengths as a VarUInt, then the sids.
#[tactic(auto, using(crate::proofs::Prefix::place_tested))]
pub fn write(buf: &mut [u8], at: usize, annotations: &[u8]) -> Option<usize>
    ensures { ◌≡◌ {A = Option ℕ × List ℕ} (result, buf.new) (placed buf.old at (annotation_bytes (sids_of annotations.now))) }
{
    let measured = Measured::of(annotations);
    if !buffer::has_room(buf.len(), at, measured.whole) {
        return None;
    }
    measured.put(buf, at)
}

// The same, where `inner` bytes fit behind them.
#[tactic(auto, using(crate::proofs::Prefix::place_tested))]
pub fn write_before(buf: &mut [u8], at: usize, annotations: &[u8], inner: usize) -> Option<usize>
    ensures { ◌≡◌ {A = Option ℕ × List ℕ} (result, buf.new)
        (placed_before buf.old at (annotation_bytes (sids_of annotations.now)) inner) }
{
    let measured = Measured::of(annotations);
    let whole = measured.whole;
    if !buffer::has_room(buf.len(), whole, inner) {
        return None;
    }
    if !buffer::has_room(buf.len(), at, whole + inner) {
        return None;
    }
    measured.put(buf, at)
}

// The wrapper's header and the annotations, before a value of `inner` bytes. Nothing is put where the value would not fit behind them.
#[tactic(auto, using(crate::proofs::Prefix::place_tested))]
pub fn write_prefix(buf: &mut [u8], at: usize, annotations: &[u8], inner: usize) -> Option<usize>
    ensures { ◌≡◌ {A = Option ℕ × List ℕ} (result, buf.new)
        (placed_before buf.old at (prefix_bytes (sids_of annotations.now) inner) inner) }
{
    let measured = Measured::of(annotations);
    let whole = measured.whole;
    if !buffer::has_room(buf.len(), whole, inner) {
        return None;
    }
    let body = whole + inner;
    let header = header::encoded_size_of(body);
    if !buffer::has_room(buf.len(), at, header + body) {
        return None;
    }
    let first = header::write(buf, at, WRAPPER, body)?;
    let rest = measured.put(buf, at + first)?;
    Some(first + rest)
}
