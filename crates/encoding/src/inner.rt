// Numbers as bytes, high byte first.
ghost use Rattle.std.specs.Prelude.{◌≡◌};
ghost use Rattle.std.specs.Int.{w32, cast_signed};
ghost use Rattle.meaning.specs.Encoding.{number};

pub mod cursor;

// The number that four bytes stand for in two's complement.
pub fn signed(bytes: [u8; 4]) -> i32
    ensures { result ≡ cast_signed w32 (number bytes) }
{
    i32::from_be_bytes(bytes)
}
