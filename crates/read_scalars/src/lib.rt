// Whether a body reads as the scalar that its type byte says, for every type byte.
#![tactic(auto)]

ghost use Rattle.std.specs.Prelude.{◌≡◌, ◌||◌, ℕ, eqb, is_ok};
ghost use Rattle.reading.specs.Bodies.{timestamp_in};
ghost use Rattle.reading.specs.Scalars.{is_some, scalar_in};

use reading::codes::{
    ANNOTATIONS, BLOB, BOOL, CLOB, DECIMAL, FLOAT, NEGATIVE_INT, NULL, POSITIVE_INT, STRING,
    SYMBOL, TIMESTAMP,
};

// "4: float": no bytes, a binary32 or a binary64.
fn is_float_size(size: usize) -> bool
    ensures { result ≡ (eqb size 0 || (eqb size 4 || eqb size 8)) }
{
    (size == 0) | ((size == 4) | (size == 8))
}

// "6: timestamp". Apart, since room for its fields would be cleared at each scalar.
fn is_timestamp(body: &[u8]) -> bool
    ensures { result ≡ is_ok (timestamp_in body.now) }
{
    read_timestamp::timestamp(body).is_ok()
}

// Nulls have a type byte alone; pads, containers and wrappers are no scalars.
pub fn reads(kind: u8, body: &[u8]) -> bool
    ensures { result ≡ is_some (scalar_in kind body.now) }
{
    if kind % 16 == NULL {
        return kind / 16 < ANNOTATIONS;
    }
    // The table of the type codes.
    match kind / 16 {
        BOOL => kind % 16 < 2,
        POSITIVE_INT => true,
        NEGATIVE_INT => !read_bodies::is_zero(body),
        FLOAT => is_float_size(body.len()),
        DECIMAL => read_bodies::decimal(body).is_ok(),
        TIMESTAMP => is_timestamp(body),
        SYMBOL => read_bodies::symbol(body).is_ok(),
        STRING => text::is_utf8(body),
        CLOB => true,
        BLOB => true,
        _ => false,
    }
}
