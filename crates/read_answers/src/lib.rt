// The reader's answers as C takes them, numbers in a lent slice: 0 where it reads, and else the refusal's number.
#![tactic(auto)]

ghost use Rattle.std.specs.Prelude.{◌≡◌, ℕ, List, [], ◌∷◌};
ghost use Rattle.read_answers.specs.Answers.{Answered, stored, laid, answered_by, bit, item_numbers, timestamp_numbers, item_answer, reading_answer, number_answer, decimal_answer};
ghost use Rattle.read_answers.specs.Answers.{timestamp_answer, symbol_answer};

use reading::{Decimal, Fraction, Header, Item, Number, Offset, Refusal, Shown, Stopped};

// A type byte that begins nothing, so that C is given a number where there is no item more.
const NO_MORE: u64 = 0xFF;

fn store(lent: &mut [u64], i: usize, n: u64)
    ensures { lent.new ≡ stored i n lent.old }
{
    if i < lent.len() {
        lent[i] = n;
    }
}

// The numbers at the front of the slice, as many of them as it holds.
#[tactic(auto, using(crate::proofs::Laid::a_number))]
fn lay<const N: usize>(lent: &mut [u64], numbers: [u64; N])
    ensures { lent.new ≡ laid 0 numbers.entry lent.old }
{
    for (i, n) in numbers.iter().enumerate() {
        store(lent, i, *n);
    }
}

// What is told where it reads: its numbers, at the front of the slice.
trait Numbers: Copy {
    ghost numbers: { Self → List ℕ };

    fn put(self, lent: &mut [u64])
        ensures { lent.new ≡ laid 0 (numbers self) lent.old };
}

fn answer<T: Numbers>(read: Result<T, Refusal>, lent: &mut [u64]) -> u8
    ensures { ◌≡◌ {A = Answered} (result, lent.new) (answered_by T.numbers read lent.old) }
{
    match read {
        Ok(told) => {
            told.put(lent);
            0
        }
        Err(refusal) => u8::from(refusal),
    }
}

// An item, and the place where it was asked for.
#[derive(Clone, Copy)]
struct ItemAt {
    item: Option<Item>,
    at: usize,
}

impl Numbers for ItemAt {
    ghost numbers = { λ i. item_numbers i.at i.item };

    fn put(self, lent: &mut [u64]) {
        let at = self.at as u64;
        match self.item {
            Some(Item { name, held }) => {
                let Header { kind, start, stop } = held.header;
                let numbers = [
                    name.unwrap_or(0),
                    held.sids as u64,
                    held.sids_end as u64,
                    u64::from(kind),
                    start as u64,
                    stop as u64,
                ];
                lay(lent, numbers);
            }
            None => lay(lent, [0, at, at, NO_MORE, at, at]),
        }
    }
}

pub fn answer_item(item: Result<Option<Item>, Refusal>, at: usize, lent: &mut [u64]) -> u8
    ensures { ◌≡◌ {A = Answered} (result, lent.new) (item_answer at item lent.old) }
{
    answer(item.map(|item| ItemAt { item, at }), lent)
}

// A refusal has its place here.
pub fn answer_reading(read: Result<(), Stopped>, lent: &mut [u64]) -> u8
    ensures { ◌≡◌ {A = Answered} (result, lent.new) (reading_answer read lent.old) }
{
    match read {
        Ok(()) => 0,
        Err(stopped) => {
            lay(lent, [stopped.place as u64]);
            u8::from(stopped.refusal)
        }
    }
}

impl Numbers for Number {
    ghost numbers = { λ n. n.value ∷ n.next ∷ [] };

    fn put(self, lent: &mut [u64]) {
        lay(lent, [self.value, self.next as u64]);
    }
}

pub fn answer_number(number: Result<Number, Refusal>, lent: &mut [u64]) -> u8
    ensures { ◌≡◌ {A = Answered} (result, lent.new) (number_answer number lent.old) }
{
    answer(number, lent)
}

impl Numbers for Decimal {
    ghost numbers = { λ d. bit d.negative ∷ d.exponent ∷ d.coefficient ∷ [] };

    fn put(self, lent: &mut [u64]) {
        lay(
            lent,
            [
                u64::from(self.negative),
                self.exponent,
                self.coefficient as u64,
            ],
        );
    }
}

pub fn answer_decimal(decimal: Result<Decimal, Refusal>, lent: &mut [u64]) -> u8
    ensures { ◌≡◌ {A = Answered} (result, lent.new) (decimal_answer decimal lent.old) }
{
    answer(decimal, lent)
}

// A timestamp, and its body's length: an unknown offset is negative zero, and where there is no fraction, its coefficient stands at the end.
#[derive(Clone, Copy)]
struct ShownOf {
    shown: Shown,
    size: usize,
}

impl Numbers for ShownOf {
    ghost numbers = { λ s. timestamp_numbers s.size s.shown };

    fn put(self, lent: &mut [u64]) {
        let t = self.shown.timestamp;
        let offset = t.offset.unwrap_or(Offset {
            negative: true,
            minutes: 0,
        });
        let fraction = t.fraction.unwrap_or(Fraction {
            digits: 0,
            coefficient: self.size,
        });
        let numbers = [
            u64::from(t.offset.is_some()),
            u64::from(offset.negative),
            offset.minutes,
            u64::from(t.fields.count),
            t.fields.year,
            t.fields.month,
            t.fields.day,
            t.fields.hour,
            t.fields.minute,
            t.fields.second,
            fraction.digits,
            fraction.coefficient as u64,
            u64::from(self.shown.marked),
        ];
        lay(lent, numbers);
    }
}

pub fn answer_timestamp(shown: Result<Shown, Refusal>, size: usize, lent: &mut [u64]) -> u8
    ensures { ◌≡◌ {A = Answered} (result, lent.new) (timestamp_answer size shown lent.old) }
{
    answer(shown.map(|shown| ShownOf { shown, size }), lent)
}

// A symbol is told by its sid.
impl Numbers for u64 {
    ghost numbers = { λ n. n ∷ [] };

    fn put(self, lent: &mut [u64]) {
        lay(lent, [self]);
    }
}

pub fn answer_symbol(sid: Result<u64, Refusal>, lent: &mut [u64]) -> u8
    ensures { ◌≡◌ {A = Answered} (result, lent.new) (symbol_answer sid lent.old) }
{
    answer(sid, lent)
}
