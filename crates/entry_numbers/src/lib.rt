// The numbers that cross between a host and the writer: a call's answer, a type's, a precision's, and what says whether an offset or a fraction is given.
#![tactic(auto)]

ghost use Rattle.std.specs.Prelude.{◌≡◌};
ghost use Rattle.machine.specs.Numbers.{verdict_of};
ghost use Rattle.state_bytes.specs.StateBytes.{number_of};
ghost use Rattle.entry_numbers.specs.Lent.{type_coded, precision_numbered, offset_lent, fraction_lent};

use machine::Refusal;
use scalars::IonType;
use timestamp::{Fraction, Precision};

// 0 for an accepted call, or the refusal's number: what C is given. Here alone an answer becomes a number.
pub fn answered(answer: Result<(), Refusal>) -> u8
    ensures { result ≡ number_of (verdict_of answer) }
{
    match answer {
        Ok(()) => 0,
        Err(why) => why.into(),
    }
}

// The number of a null's type: its type code in the Ion document. 3, which is of negative ints, is int; a number past 13 stands for null.
#[derive(Clone, Copy)]
pub struct TypeNumber(pub u8);

impl From<TypeNumber> for IonType {
    ghost from_gives = { λ number t. t ≡ type_coded number.0 };

    #[tactic(auto, unfolding(crate::specs::Lent::type_coded), using(crate::proofs::Lent::type_past))]
    fn from(number: TypeNumber) -> IonType {
        match number.0 {
            0 => IonType::Null,
            1 => IonType::Bool,
            2 | 3 => IonType::Int,
            4 => IonType::Float,
            5 => IonType::Decimal,
            6 => IonType::Timestamp,
            7 => IonType::Symbol,
            8 => IonType::String,
            9 => IonType::Clob,
            10 => IonType::Blob,
            11 => IonType::List,
            12 => IonType::Sexp,
            13 => IonType::Struct,
            _ => IonType::Null,
        }
    }
}

// The number of a precision, from 0 for year to 4 for second; a larger number is second too.
#[derive(Clone, Copy)]
pub struct PrecisionNumber(pub u8);

impl From<PrecisionNumber> for Precision {
    ghost from_gives = { λ number p. p ≡ precision_numbered number.0 };

    #[tactic(auto, unfolding(crate::specs::Lent::precision_numbered), using(crate::proofs::Lent::precision_past))]
    fn from(number: PrecisionNumber) -> Precision {
        match number.0 {
            0 => Precision::Year,
            1 => Precision::Month,
            2 => Precision::Day,
            3 => Precision::Minute,
            _ => Precision::Second,
        }
    }
}

// An offset, where one is known.
#[tactic(auto, unfolding(crate::specs::Lent::offset_lent))]
pub fn offset_of(known: u8, minutes: i32) -> Option<i32>
    ensures { result ≡ offset_lent known minutes }
{
    (known != 0).then_some(minutes)
}

// A fraction of the second, where one is given.
#[tactic(auto, unfolding(crate::specs::Lent::fraction_lent))]
pub fn fraction_of(given: u8, digits: u32, coefficient: u64) -> Option<Fraction>
    ensures { result ≡ fraction_lent given digits coefficient }
{
    (given != 0).then_some(Fraction {
        digits,
        coefficient,
    })
}
