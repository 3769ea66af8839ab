// UTF-8 by RFC 3629, section 4: what `write_string` asks of its bytes.
#![tactic(auto)]

ghost use Rattle.std.specs.Prelude.{◌≡◌, ℕ, List, ◌∷◌};
ghost use Rattle.ion.specs.Text.{characters, begun, utf8, utf8_from};
ghost use Rattle.text.specs.Due.{ascii, due, due_after, tails, utf8_after};

const TAIL_LOW: u8 = 0x80;

const TAIL_HIGH: u8 = 0xBF;

// How many bytes a character still asks for, and the least and the greatest that the next may be.
#[derive(Clone, Copy)]
struct Due {
    count: u8,
    low: u8,
    high: u8,
}

impl Due {
    // So many of the range UTF8-tail.
    fn tails(count: u8) -> Due
        ensures { result ≡ tails count }
    {
        Due {
            count,
            low: TAIL_LOW,
            high: TAIL_HIGH,
        }
    }
}

// What is due after a first byte. C0, C1 and F5 to FF begin nothing. After E0 and F0 comes no overlong form, after ED no surrogate, after F4 nothing past 10FFFF.
// Tests in order: with a match over the ranges 10,000 bytes of mixed text take 179,200 instructions, and so 160,600.
fn first_byte(b: u8) -> Option<Due>
    ensures { due_after result ≡ begun characters b }
{
    if b < 0x80 {
        return Some(Due::tails(0));
    }
    if b < 0xC2 {
        return None;
    }
    if b < 0xE0 {
        return Some(Due::tails(1));
    }
    if b == 0xE0 {
        return Some(Due {
            count: 2,
            low: 0xA0,
            high: TAIL_HIGH,
        });
    }
    if b < 0xED {
        return Some(Due::tails(2));
    }
    if b == 0xED {
        return Some(Due {
            count: 2,
            low: TAIL_LOW,
            high: 0x9F,
        });
    }
    if b < 0xF0 {
        return Some(Due::tails(2));
    }
    if b == 0xF0 {
        return Some(Due {
            count: 3,
            low: 0x90,
            high: TAIL_HIGH,
        });
    }
    if b < 0xF4 {
        return Some(Due::tails(3));
    }
    if b == 0xF4 {
        return Some(Due {
            count: 3,
            low: TAIL_LOW,
            high: 0x8F,
        });
    }
    None
}

// What is due after b, whatever follows.
fn next_byte(d: Due, b: u8) -> Option<Due>
    ensures { (bs : List ℕ) → utf8_after result bs ≡ utf8_from (due d) (b ∷ bs) }
{
    if d.count == 0 {
        return first_byte(b);
    }
    if (d.low <= b) & (b <= d.high) {
        return Some(Due::tails(d.count - 1));
    }
    None
}

fn is_utf8_by_bytes(s: &[u8]) -> bool
    ensures { result ≡ utf8 s.now }
{
    let mut d = Due::tails(0);
    for b in s {
        let Some(next) = next_byte(d, *b) else {
            return false;
        };
        d = next;
    }
    d.count == 0
}

// The OR of all bytes has no bit 80. A fold has no exit before the end, so that it runs on wide registers.
fn is_ascii(s: &[u8]) -> bool
    ensures { result ≡ ascii s.now }
{
    s.iter().fold(0, |all, byte| all | *byte) < 0x80
}

// Whether the bytes are UTF-8, whole. ASCII, the common case, is settled by the faster loop.
pub fn is_utf8(s: &[u8]) -> bool
    ensures { result ≡ utf8 s.now }
{
    if is_ascii(s) {
        return true;
    }
    is_utf8_by_bytes(s)
}
