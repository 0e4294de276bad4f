// Numbers as text.
ghost use Rattle.encoding.specs.Append.{Wrote, Room};

use encoding::inner::cursor::Cursor;
use itoa::Integer;

// A number in decimal, with a sign where it is negative.
pub fn put_decimal<I: Integer>(out: &mut Cursor, n: I)
    requires { Room out.old (I.text n) }
    ensures { Wrote out.old (I.text n) out.new }
{
    out.put_bytes(itoa::Buffer::new().format(n).as_bytes());
}
