// The small values (document 02, Item 12): byte strings of one to three bytes by their size and their big-endian number, and which of them is the next.
#![tactic(auto)]

ghost use Rattle.std.specs.Prelude.{◌≡◌, ◌≤◌, length};
ghost use Rattle.encoding.specs.Digits.{low_digits};
ghost use Rattle.unpadded.specs.Rule.{is_one_value};
ghost use Rattle.small_values.specs.Listing as S;
ghost use Rattle.small_values.specs.Listing.{next_value};

const LONGEST: usize = 3;

// How many byte strings of a size are asked: all up to three bytes, none of more. As in the definition that is a count, 0, and no Option.
#[tactic(auto, using(crate::proofs::Steps::power_fits), unfolding(crate::specs::Listing::limit))]
pub fn limit(size: usize) -> u32
    ensures { result ≡ S.limit size }
{
    match size {
        0..=LONGEST => 256u32.pow(size as u32),
        _ => 0,
    }
}

// The bytes of a number, as many as there is room for.
pub fn spell(bytes: &mut [u8], number: u32)
    ensures { bytes.new ≡ low_digits 256 (length bytes.old) number }
{
    let size = bytes.len();
    digits::put_digits(bytes, 0, size, 255, u64::from(number));
}

// Whether a string is one value without pad and mark.
#[tactic(auto, using(crate::proofs::Filled::zeros_front, crate::proofs::Filled::within, crate::proofs::Filled::front_length, crate::proofs::Filled::front))]
fn is_value(size: usize, number: u32) -> bool
    requires { size ≤ 3 }
    ensures { result ≡ is_one_value (low_digits 256 size number) }
{
    // Nothing allocates, so the bytes are an array.
    let mut bytes = [0u8; LONGEST];
    spell(&mut bytes[..size], number);
    unpadded::is_one_value(&bytes[..size])
}

// The number of the next small value of a size, from a number on, if there is one.
pub fn next(size: usize, from: u32) -> Option<u32>
    ensures { result ≡ next_value size from }
{
    (from..limit(size)).find(|number| is_value(size, *number))
}
