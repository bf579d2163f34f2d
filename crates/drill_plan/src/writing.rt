//! The writing of a text into a chunk.
ghost use Rattle.std.specs.Prelude.{◌≡◌, ◌++◌, ◌+◌, ◌≤◌, [], length};
ghost use Rattle.std.specs.Fmt.{decimal};
ghost use Rattle.drill_plan.specs.Drill.{receiver, three_digits, two_digits};

use aprs_base::Chunk;
use arrayvec::ArrayVec;
use itoa::Buffer;

const BLANKS: [u8; 8] = [b' '; 8];

pub(crate) fn empty() -> Chunk
    ensures { result ≡ [] }
{
    Chunk {
        text: ArrayVec::new(),
    }
}

pub(crate) fn append(text: &mut Chunk, bytes: &[u8])
    requires { length text.old + length bytes.now ≤ 1460 }
    ensures { text.new ≡ text.old ++ bytes.now }
{
    text.text.try_extend_from_slice(bytes).unwrap();
}

/// A number in digits, of which there are ten at most.
pub(crate) fn append_number(text: &mut Chunk, number: u32)
    requires { length text.old ≤ 1450 }
    ensures text { text.new ≡ text.old ++ decimal number }
    ensures short { length text.new ≤ length text.old + 10 }
{
    let mut digits = Buffer::new();
    append(text, digits.format(number).as_bytes());
}

/// The last two digits of a number.
pub(crate) fn append_two_digits(text: &mut Chunk, number: u32)
    requires { length text.old ≤ 1450 }
    ensures { text.new ≡ text.old ++ two_digits number }
{
    let tens = b'0' + (number / 10 % 10) as u8;
    let ones = b'0' + (number % 10) as u8;
    append(text, &[tens, ones]);
}

/// The last three digits of a number.
pub(crate) fn append_three_digits(text: &mut Chunk, number: u32)
    requires { length text.old ≤ 1440 }
    ensures { text.new ≡ text.old ++ three_digits number }
{
    let hundreds = b'0' + (number / 100 % 10) as u8;
    append(text, &[hundreds]);
    append_two_digits(text, number);
}

/// A station as the receiver of a message.
pub(crate) fn append_receiver(text: &mut Chunk, number: u32)
    requires { length text.old ≤ 1430 }
    ensures text { text.new ≡ text.old ++ receiver number }
    ensures short { length text.new ≤ length text.old + 20 }
{
    let mut buffer = Buffer::new();
    let digits = buffer.format(number).as_bytes();
    append(text, b"S");
    append(text, digits);
    append(text, &BLANKS[digits.len().min(8)..]);
}
