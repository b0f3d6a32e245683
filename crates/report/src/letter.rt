// What a line of a report tells: that a row of events was recognised as a chronicle, or that it can no longer become one.
ghost use Rattle.std.specs.Prelude.{◌≡◌};
ghost use Rattle.report.specs.Letters.{letter_byte};

#[derive(Clone, Copy, Debug, PartialEq, Eq)]
pub enum Letter {
    Recognised,
    Deadline,
}

impl From<Letter> for u8 {
    ghost from_gives = { λ letter byte. byte ≡ letter_byte letter };

    fn from(letter: Letter) -> u8 {
        match letter {
            Letter::Recognised => b'R',
            Letter::Deadline => b'D',
        }
    }
}
