// The script, byte by byte, and what its lines are made of: names, decimal numbers, the bits of a float.
//
// One byte is read at a time, so that nothing but the byte that comes next has to be kept and a line may be
// of any length. Each reader starts at its first byte and stops at the byte that comes after it.
use crate::Fault;
use arrayvec::ArrayString;
use std::io::Read;

const NEWLINE: u8 = b'\n';

// A name, of at most ten letters: as many as the longest has.
pub type Name = ArrayString<10>;

// What is read from, and the byte that comes next, which is none at the end.
#[derive(Drop)]
pub struct Script<R> {
    input: R,
    next: Option<u8>,
}

impl<R: Read> Script<R> {
    // Nothing is read yet: the script is where a line ends, before its first one.
    pub fn new(input: R) -> Self {
        Script {
            input,
            next: Some(NEWLINE),
        }
    }

    // One byte on. After the end nothing is asked for.
    pub fn step(&mut self) -> Result<(), Fault> {
        if self.next.is_none() {
            return Ok(());
        }
        let mut byte = [0u8; 1];
        self.next = match self.input.read(&mut byte) {
            Ok(0) => None,
            Ok(_) => Some(byte[0]),
            Err(_) => return Err(Fault::Unreadable),
        };
        Ok(())
    }

    // The byte that comes next.
    pub fn peek(&self) -> Option<u8> {
        self.next
    }

    // Whether the line ends here, by its newline or with the script.
    pub fn at_line_end(&self) -> bool {
        matches!(self.next, None | Some(NEWLINE))
    }

    // To the line's end. Nothing says that a line ends, so the turns are counted, here and wherever one is read,
    // up to a number that no run uses up.
    pub fn skip_line(&mut self) -> Result<(), Fault> {
        for _ in 0..u64::MAX {
            if self.at_line_end() {
                break;
            }
            self.step()?;
        }
        Ok(())
    }

    // The line's next byte, and past it.
    pub fn take(&mut self) -> Result<u8, Fault> {
        match self.next {
            None | Some(NEWLINE) => Err(Fault::BadLine),
            Some(byte) => {
                self.step()?;
                Ok(byte)
            }
        }
    }

    // Past a byte that has to be there.
    pub fn expect_byte(&mut self, byte: u8) -> Result<(), Fault> {
        if self.next != Some(byte) {
            return Err(Fault::BadLine);
        }
        self.step()
    }

    // The line has to end here.
    pub fn expect_line_end(&self) -> Result<(), Fault> {
        if self.at_line_end() {
            Ok(())
        } else {
            Err(Fault::Unplayable)
        }
    }

    // From the end of a word to the start of the next, or to the line's end. One space stands between, and a
    // word follows it.
    pub fn next_word(&mut self) -> Result<(), Fault> {
        if self.at_line_end() {
            return Ok(());
        }
        self.expect_byte(b' ')?;
        if self.at_line_end() {
            return Err(Fault::BadLine);
        }
        Ok(())
    }

    // As many letters as there are, also none, and no more than a name has.
    pub fn name(&mut self) -> Result<Name, Fault> {
        let mut name = Name::new();
        for _ in 0..u64::MAX {
            let Some(letter @ b'a'..=b'z') = self.next else {
                break;
            };
            if name.try_push(letter as char).is_err() {
                break;
            }
            self.step()?;
        }
        Ok(name)
    }

    // A decimal number with no sign, up to 4294967295. Zeros may stand before it. One that is too large is
    // read to its end.
    pub fn decimal(&mut self) -> Result<u32, Fault> {
        if self.digit(10).is_none() {
            return Err(Fault::BadLine);
        }
        let mut number: u64 = 0;
        for _ in 0..u64::MAX {
            let Some(digit) = self.digit(10) else {
                break;
            };
            number = number.saturating_mul(10).saturating_add(u64::from(digit));
            self.step()?;
        }
        u32::try_from(number).map_err(|_| Fault::BadLine)
    }

    // A decimal number, and on to the next word.
    pub fn argument(&mut self) -> Result<u32, Fault> {
        let number = self.decimal()?;
        self.next_word()?;
        Ok(number)
    }

    // The bits of a float: eight hex digits in lower case.
    pub fn pattern(&mut self) -> Result<u32, Fault> {
        let mut pattern = 0;
        for _ in 0..8 {
            let digit = self.digit(16).ok_or(Fault::BadLine)?;
            pattern = (pattern << 4) | u32::from(digit);
            self.step()?;
        }
        Ok(pattern)
    }

    // The bits of a float that may also be given as `nan`.
    pub fn entry(&mut self) -> Result<u32, Fault> {
        if self.next != Some(b'n') {
            return self.pattern();
        }
        match self.name()?.as_str() {
            "nan" => Ok(0x7fc0_0000),
            _ => Err(Fault::BadLine),
        }
    }

    // The value of the digit that comes next, if it is one in this base.
    fn digit(&self, base: u8) -> Option<u8> {
        let digit = match self.next? {
            byte @ b'0'..=b'9' => byte - b'0',
            byte @ b'a'..=b'f' => byte - b'a' + 10,
            _ => return None,
        };
        (digit < base).then_some(digit)
    }
}
