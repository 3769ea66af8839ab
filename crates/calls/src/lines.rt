// The lines of a list, and what a call answers.
use machine::{Closed, Container, Refused};
use std::fmt;
use words::{hex, numbers, word};

// The number that a line's word at index `n` is.
fn number(line: &[u8], n: usize) -> usize {
    numbers::natural(word(line, n), u64::MAX).unwrap_or(0) as usize
}

fn code(word: &[u8]) -> u8 {
    (hex::bits(word) % 256) as u8
}

// What a closing answers of the container, as a line has it. Any other call answers zeros, and so does one that is refused.
#[derive(Clone, Copy, Default, PartialEq, Eq)]
struct Figures {
    size: usize,
    members: usize,
    moved: usize,
}

// What a call answers, 0 or the refusal's number, and the state behind it: the numbers as a line has them, so that the two are compared and shown alike.
#[derive(Clone, Copy, PartialEq, Eq)]
pub(crate) struct Got {
    answer: usize,
    used: usize,
    depth: usize,
    waiting: bool,
    figures: Figures,
}

impl From<Result<Closed, Refused>> for Got {
    fn from(answer: Result<Closed, Refused>) -> Self {
        let (number, state, figures) = match answer {
            Ok(closed) => {
                let figures = Figures {
                    size: closed.size,
                    members: closed.members,
                    moved: closed.moved,
                };
                (0, closed.state, figures)
            }
            Err(refused) => (u8::from(refused.why), refused.state, Figures::default()),
        };
        Got {
            answer: usize::from(number),
            used: state.used,
            depth: state.depth,
            waiting: state.waiting,
            figures,
        }
    }
}

impl Got {
    // What is compared where `close` is not the first word of the call: of the container of a closing behind `ann` a line says nothing.
    pub(crate) fn without_figures(self) -> Got {
        Got {
            figures: Figures::default(),
            ..self
        }
    }
}

impl fmt::Display for Got {
    fn fmt<W: fmt::Write>(&self, f: &mut fmt::Formatter<W>) -> fmt::Result {
        write!(f, "{} {} {} ", self.answer, self.used, self.depth)?;
        let Figures {
            size,
            members,
            moved,
        } = self.figures;
        write!(f, "{} {size} {members} {moved}", u8::from(self.waiting))
    }
}

// What a line says that its call answers.
fn expected(line: &[u8]) -> Got {
    let figures = match word(line, 5) {
        b"close" => Figures {
            size: number(line, 6),
            members: number(line, 7),
            moved: number(line, 8),
        },
        _ => Figures::default(),
    };
    Got {
        answer: number(line, 1),
        used: number(line, 2),
        depth: number(line, 3),
        waiting: number(line, 4) == 1,
        figures,
    }
}

#[derive(Clone, Copy)]
pub(crate) enum Line<'a> {
    Nothing,
    Fresh,
    Set {
        used: usize,
        depth: usize,
        waiting: bool,
    },
    Record {
        index: usize,
        record: Container,
    },
    Open {
        index: usize,
        record: Container,
    },
    Take {
        room: usize,
        length: usize,
    },
    All {
        from: usize,
        to: usize,
        byte: u8,
    },
    Bytes {
        from: usize,
        hex: &'a [u8],
    },
    Call {
        room: usize,
        expected: Got,
        words: &'a [u8],
    },
}

fn record(line: &[u8]) -> Container {
    Container {
        start: number(line, 2),
        header: number(line, 3),
        code: code(word(line, 4)),
        members: number(line, 5),
    }
}

impl<'a> From<&'a [u8]> for Line<'a> {
    fn from(line: &'a [u8]) -> Self {
        match word(line, 0) {
            b"" => Line::Nothing,
            b"fresh" => Line::Fresh,
            b"set" => Line::Set {
                used: number(line, 1),
                depth: number(line, 2),
                waiting: number(line, 3) == 1,
            },
            b"record" => Line::Record {
                index: number(line, 1),
                record: record(line),
            },
            b"open" => Line::Open {
                index: number(line, 1),
                record: record(line),
            },
            b"take" => Line::Take {
                room: number(line, 1),
                length: number(line, 2),
            },
            b"all" => Line::All {
                from: number(line, 1),
                to: number(line, 2),
                byte: code(word(line, 3)),
            },
            b"bytes" => Line::Bytes {
                from: number(line, 1),
                hex: word(line, 2),
            },
            _ => Line::Call {
                room: number(line, 0),
                expected: expected(line),
                words: words::from_word(line, 5),
            },
        }
    }
}
