// How many bytes a string has.
ghost use Rattle.std.specs.Prelude.{◌≤◌};

#[derive(Clone, Copy)]
pub(crate) struct Size {
    pub(crate) bytes: usize,
    ghost small: { bytes ≤ 3 },
}

impl Size {
    pub(crate) const LONGEST: Size = Size { bytes: 3 };
}

// A byte that is no digit from 1 to 3.
#[derive(Clone, Copy)]
pub(crate) struct NoSize;

impl TryFrom<u8> for Size {
    type Error = NoSize;

    fn try_from(digit: u8) -> Result<Self, NoSize> {
        match digit {
            b'1'..=b'3' => Ok(Size {
                bytes: usize::from(digit - b'0'),
            }),
            _ => Err(NoSize),
        }
    }
}
