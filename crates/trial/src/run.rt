// The calls of a line that has the form.
ghost use Rattle.std.specs.Prelude.{◌≡◌, ◌++◌, ◌≤◌, length, IfOk};
ghost use Rattle.std.specs.Int.{w64, to_le_bytes};

use crate::form::{Fraction, Scalar, Timestamp, check};
use crate::names::Name;
use crate::refused::{Refused, answered};
use crate::walk::{Container, Line, Names, Part, Walk};
use goatminute::STATE_SIZE;
use words::filled::Filled;
use words::numbers::has_minus;

const ROOM: usize = 16384;

// Eight bytes for each of the sids of a line.
const MOST_SIDS: usize = 32768;

// A line has at most 4,096 hex digits.
const MOST_SPELLED: usize = 2048;

// What the calls of a line are lent. Nothing allocates, so the state and the buffer are arrays. The state is empty where a line starts, and of the arrays only the part that this line has put is read.
#[derive(Drop)]
pub(crate) struct Writer {
    state: [u8; STATE_SIZE],
    buf: [u8; ROOM],
    // The annotations of the value that comes next.
    annotations: Filled<MOST_SIDS>,
    // What a word spells in hex.
    spelled: Filled<MOST_SPELLED>,
}

impl Writer {
    pub(crate) fn new() -> Writer {
        Writer {
            state: [0; STATE_SIZE],
            buf: [0; ROOM],
            annotations: Filled::new(),
            spelled: Filled::new(),
        }
    }

    fn write_timestamp(&mut self, value: Timestamp) -> u8 {
        let fraction = value.fraction.unwrap_or(Fraction {
            digits: 0,
            coefficient: 0,
        });
        goatminute::gm_write_timestamp(
            &mut self.state,
            &mut self.buf,
            self.annotations.used(),
            value.precision as u8,
            value.year,
            value.month,
            value.day,
            value.hour,
            value.minute,
            value.second,
            u8::from(value.offset.is_some()),
            value.offset.unwrap_or(0),
            u8::from(value.fraction.is_some()),
            fraction.digits,
            fraction.coefficient,
        )
    }

    // The call of a scalar.
    fn write(&mut self, value: Scalar) -> Result<(), Refused> {
        if let Scalar::Int(word)
        | Scalar::Decimal(word, _)
        | Scalar::String(word)
        | Scalar::Clob(word)
        | Scalar::Blob(word) = value
        {
            self.spelled.read_hex(word);
        }
        let state = &mut self.state;
        let buf = &mut self.buf;
        let annotations = self.annotations.used();
        let bytes = self.spelled.used();
        answered(match value {
            Scalar::Null(of) => goatminute::gm_write_null(state, buf, annotations, of as u8),
            Scalar::Bool(value) => goatminute::gm_write_bool(
                state,
                buf,
                annotations,
                u8::from(value),
            ),
            Scalar::I64(value) => goatminute::gm_write_i64(state, buf, annotations, value),
            Scalar::Int(word) => goatminute::gm_write_int(
                state,
                buf,
                annotations,
                u8::from(has_minus(word)),
                bytes,
            ),
            Scalar::F32(bits) => goatminute::gm_write_f32(state, buf, annotations, bits),
            Scalar::F64(bits) => goatminute::gm_write_f64(state, buf, annotations, bits),
            Scalar::Decimal(word, exponent) => goatminute::gm_write_decimal(
                state,
                buf,
                annotations,
                u8::from(has_minus(word)),
                bytes,
                exponent,
            ),
            Scalar::Timestamp(text) => self.write_timestamp(Timestamp::try_from(text)?),
            Scalar::Symbol(name) => goatminute::gm_write_symbol(
                state,
                buf,
                annotations,
                name.sid()?,
            ),
            Scalar::String(_) => goatminute::gm_write_string(state, buf, annotations, bytes),
            Scalar::Clob(_) => goatminute::gm_write_clob(state, buf, annotations, bytes),
            Scalar::Blob(_) => goatminute::gm_write_blob(state, buf, annotations, bytes),
        })
    }

    fn open(&mut self, container: Container) -> Result<(), Refused> {
        let state = &mut self.state;
        let buf = &mut self.buf;
        let annotations = self.annotations.used();
        answered(match container {
            Container::List => goatminute::gm_open_list(state, buf, annotations),
            Container::Sexp => goatminute::gm_open_sexp(state, buf, annotations),
            Container::Struct => goatminute::gm_open_struct(state, buf, annotations),
        })
    }

    // A line says nothing of what a closing answers, so nothing is lent for it.
    fn close(&mut self) -> Result<(), Refused> {
        answered(goatminute::gm_close(&mut self.state, &mut self.buf, &mut []))
    }

    fn name(&mut self, word: &[u8]) -> Result<(), Refused> {
        let sid = Name::try_from(word)?.sid()?;
        answered(goatminute::gm_field_name(&mut self.state, &mut self.buf, sid))
    }

    // Puts a sid behind those of the annotations before it, eight bytes from the lowest on.
    fn put_sid(&mut self, sid: u64)
        requires { length self.old.annotations ≤ 32760 }
        ensures { self.new.annotations ≡ self.old.annotations ++ to_le_bytes w64 sid }
    {
        self.annotations.append_array(sid.to_le_bytes());
    }

    // Puts the sids of annotations.
    fn annotate(&mut self, names: Names<'_>) -> Result<(), Refused> {
        self.annotations.clear();
        if names.text.is_empty() {
            return Ok(());
        }
        for word in names.text.split(|byte| *byte == b' ') {
            let sid = Name::try_from(word)?.sid()?;
            self.put_sid(sid);
        }
        Ok(())
    }

    // The call of a part, if it has one.
    fn put(&mut self, part: Part) -> Result<(), Refused> {
        match part {
            Part::Scalar(text) => self.write(Scalar::try_from(text)?)?,
            Part::Opening(container) => self.open(container)?,
            Part::Closing => self.close()?,
            Part::Name(word) => self.name(word)?,
            Part::Annotations(names) => return self.annotate(names),
            Part::Mark => (),
        }
        self.annotations.clear();
        Ok(())
    }

    fn put_line<'a>(&mut self, walk: &mut Walk<'a>, line: Line<'a>) -> Result<(), Refused> {
        self.state = [0; STATE_SIZE];
        self.annotations.clear();
        walk.start(line);
        while let Some(part) = walk.next()? {
            self.put(part)?;
        }
        Ok(())
    }

    // The bytes of a line, which is held to the form before the first call.
    pub(crate) fn bytes_of<'a>(
        &mut self,
        walk: &mut Walk<'a>,
        line: &'a [u8],
    ) -> Result<&[u8], Refused>
        ensures { IfOk result (λ bytes. length bytes.now ≤ 16384) }
    {
        let line = Line::of(line).ok_or(Refused::Form)?;
        hold_to_form(walk, line)?;
        self.put_line(walk, line)?;
        let bytes = goatminute::gm_finished(&self.state, &self.buf).min(ROOM);
        Ok(&self.buf[..bytes])
    }
}

// Walks along a line, and reads the words of each part.
fn hold_to_form<'a>(walk: &mut Walk<'a>, line: Line<'a>) -> Result<(), Refused> {
    walk.start(line);
    while let Some(part) = walk.next()? {
        check(part)?;
    }
    Ok(())
}
