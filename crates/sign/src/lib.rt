// The sign and the magnitude of an i64: two methods of the library, which stay functions here because they are public.
#![tactic(auto)]

ghost use Rattle.std.specs.Prelude.{◌≡◌, not, nat_abs};
ghost use Rattle.std.specs.Int.Signed.{non_neg};

// Whether `v` is below zero.
pub fn is_negative(v: i64) -> bool
    ensures { result ≡ not (non_neg v) }
{
    v.is_negative()
}

// The magnitude of `v`; that of the least i64 is 2 to the 63.
pub fn magnitude(v: i64) -> u64
    ensures { result ≡ nat_abs v }
{
    v.unsigned_abs()
}
