// The walk along a line: its brackets, and the parts between them. What is due is kept on a stack, so a line may be as deep as its bytes allow.
ghost use Rattle.std.specs.Prelude.{◌≡◌, ◌+◌, ◌<◌, ◌≤◌, length, MatchOption, MatchResult, IfOk, IfSome};
ghost use Rattle.arrayvec.specs.ArrayVec.{array_vec_len};
ghost use Rattle.trial.specs.Steps.{GoesOn};

use crate::form::first_word;
use crate::refused::Refused;
use arrayvec::ArrayVec;

const LONGEST_LINE: usize = 4096;

// How many bytes tell that a line is too long.
pub(crate) const TOO_LONG: usize = LONGEST_LINE + 1;

#[derive(Clone, Copy, Default)]
enum Due {
    #[default]
    Value,
    // The value of an `ann`, which is no `ann` itself.
    BareValue,
    // A space and a member of a list or s-expression, or its bracket.
    Member,
    // A space and a field of a struct, or its bracket.
    Field,
    // The bracket of a field or an `ann`.
    Bracket,
}

#[derive(Clone, Copy)]
pub(crate) enum Container {
    List,
    Sexp,
    Struct,
}

// The names of annotations, which are shorter than a line, so that there is room for their sids.
#[derive(Clone, Copy)]
pub(crate) struct Names<'a> {
    pub(crate) text: &'a [u8],
    ghost short: { length text.now < 4096 },
}

// Parts, each with its words, without its brackets.
#[derive(Clone, Copy)]
pub(crate) enum Part<'a> {
    Scalar(&'a [u8]),
    // The bracket and the name of a container.
    Opening(Container),
    // The bracket of a container.
    Closing,
    // The name of the value that comes next.
    Name(&'a [u8]),
    // The annotations of the value that comes next.
    Annotations(Names<'a>),
    // A space, or the bracket of a field or an `ann`.
    Mark,
}

// A line that is not too long.
#[derive(Clone, Copy)]
pub(crate) struct Line<'a> {
    bytes: &'a [u8],
    ghost short: { length bytes.now ≤ 4096 },
}

impl<'a> Line<'a> {
    pub(crate) fn of(bytes: &'a [u8]) -> Option<Line<'a>> {
        if LONGEST_LINE < bytes.len() {
            None
        } else {
            Some(Line { bytes })
        }
    }
}

// What is left of a line, and what is due there, the next last: no more than the bytes passed, and one.
#[derive(Drop)]
pub(crate) struct Walk<'a> {
    rest: &'a [u8],
    due: ArrayVec<Due, TOO_LONG>,
    ghost deep: { array_vec_len due + length rest.now ≤ 4097 },
}

impl<'a> Walk<'a> {
    pub(crate) fn new() -> Walk<'a> {
        Walk {
            rest: &[],
            due: ArrayVec::new(),
        }
    }

    pub(crate) fn start(&mut self, line: Line<'a>) {
        self.due.clear();
        self.rest = line.bytes;
        self.due.push(Due::Value);
    }

    fn pass(&mut self, byte: u8) -> Result<(), Refused>
        ensures depth { array_vec_len self.new.due ≡ array_vec_len self.old.due }
        ensures rest { MatchResult result (λ _. length self.new.rest.now + 1 ≡ length self.old.rest.now) (λ _. length self.new.rest.now ≡ length self.old.rest.now) }
    {
        match self.rest {
            [first, rest @ ..] if *first == byte => {
                self.rest = rest;
                Ok(())
            }
            _ => Err(Refused::Form),
        }
    }

    // The text up to a byte, which has to be there.
    fn text_to(&self, byte: u8) -> Result<&'a [u8], Refused>
        ensures { IfOk result (λ text. length text.now < length self.now.rest.now) }
    {
        match self.rest.iter().position(|here| *here == byte) {
            Some(end) => Ok(&self.rest[..end]),
            None => Err(Refused::Form),
        }
    }

    // Passes so many bytes.
    fn skip(&mut self, count: usize)
        requires { count ≤ length self.old.rest.now }
        ensures depth { array_vec_len self.new.due ≡ array_vec_len self.old.due }
        ensures rest { length self.new.rest.now + count ≡ length self.old.rest.now }
    {
        self.rest = &self.rest[count..];
    }

    // A bracket that ends a container, a field or an `ann`.
    fn bracket(&mut self, part: Part<'a>) -> Result<Part<'a>, Refused>
        ensures { GoesOn result self.old.rest.now self.new.rest.now }
    {
        self.pass(b')')?;
        Ok(part)
    }

    // A space before a member of a list or s-expression, or its bracket.
    fn member(&mut self) -> Result<Part<'a>, Refused>
        requires { array_vec_len self.old.due + length self.old.rest.now ≤ 4096 }
        ensures { GoesOn result self.old.rest.now self.new.rest.now }
    {
        if self.pass(b' ').is_err() {
            return self.bracket(Part::Closing);
        }
        self.due.push(Due::Member);
        self.due.push(Due::Value);
        Ok(Part::Mark)
    }

    // A field of a struct, which is a space, a bracket, the name and a space, or the bracket of the struct.
    fn field(&mut self) -> Result<Part<'a>, Refused>
        ensures { GoesOn result self.old.rest.now self.new.rest.now }
    {
        if self.pass(b' ').is_err() {
            return self.bracket(Part::Closing);
        }
        self.pass(b'(')?;
        let name = self.text_to(b' ')?;
        self.skip(name.len() + 1);
        self.due.push(Due::Field);
        self.due.push(Due::Bracket);
        self.due.push(Due::Value);
        Ok(Part::Name(name))
    }

    // The annotations of an `ann`: a space, a bracket, the names, the bracket and a space.
    fn annotations(&mut self) -> Result<Part<'a>, Refused>
        ensures { GoesOn result self.old.rest.now self.new.rest.now }
    {
        self.pass(b' ')?;
        self.pass(b'(')?;
        let text = self.text_to(b')')?;
        self.skip(text.len() + 1);
        self.pass(b' ')?;
        self.due.push(Due::Bracket);
        self.due.push(Due::BareValue);
        Ok(Part::Annotations(Names { text }))
    }

    // A container, up to its name, behind which `due` is due.
    fn opening(&mut self, name: &[u8], container: Container, due: Due) -> Part<'a>
        requires name { length name.now ≤ length self.old.rest.now }
        requires room { array_vec_len self.old.due + length self.old.rest.now ≤ 4096 }
        ensures { length self.new.rest.now ≤ length self.old.rest.now }
    {
        self.skip(name.len());
        self.due.push(due);
        Part::Opening(container)
    }

    // A value, of which a scalar ends at the next bracket that closes. `due` is a value that may be annotated, or a bare one.
    fn value(&mut self, due: Due) -> Result<Part<'a>, Refused>
        ensures { GoesOn result self.old.rest.now self.new.rest.now }
    {
        self.pass(b'(')?;
        let text = self.text_to(b')')?;
        let name = first_word(text);
        match name {
            b"list" => Ok(self.opening(name, Container::List, Due::Member)),
            b"sexp" => Ok(self.opening(name, Container::Sexp, Due::Member)),
            b"struct" => Ok(self.opening(name, Container::Struct, Due::Field)),
            b"ann" => {
                if let Due::BareValue = due {
                    return Err(Refused::Form);
                }
                self.skip(name.len());
                self.annotations()
            }
            _ => {
                self.skip(text.len() + 1);
                Ok(Part::Scalar(text))
            }
        }
    }

    // The next part, or none where the line ends and nothing is due.
    pub(crate) fn next(&mut self) -> Result<Option<Part<'a>>, Refused>
        ensures { IfOk result (λ part. IfSome part (λ _. length self.new.rest.now < length self.old.rest.now)) }
    {
        let Some(due) = self.due.pop() else {
            return if self.rest.is_empty() {
                Ok(None)
            } else {
                Err(Refused::Form)
            };
        };
        let part = match due {
            Due::Value | Due::BareValue => self.value(due)?,
            Due::Member => self.member()?,
            Due::Field => self.field()?,
            Due::Bracket => self.bracket(Part::Mark)?,
        };
        Ok(Some(part))
    }
}
