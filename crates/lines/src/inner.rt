// The program's lines.
ghost use Rattle.std.specs.Prelude.{[], ◌∷◌, ◌++◌};
ghost use Rattle.meaning.specs.Program.{first_line, result_lines};
ghost use Rattle.encoding.specs.Append.{Wrote, Room};
ghost use Rattle.plan.specs.Structs.{refused};

use encoding::inner::cursor::Cursor;
use itoa::Integer;
use plan::Refusal;

// The first line of a job that is done: 0, divisor and sample count.
pub fn done_line(out: &mut Cursor, divisor: u64, count: u64)
    requires { Room out.old (first_line 0 divisor count) }
    ensures { Wrote out.old (first_line 0 divisor count) out.new }
{
    first_line(out, 0, divisor, count);
}

// The one line of a refusal: its number, its position and 0.
pub fn refused_line(out: &mut Cursor, refusal: Refusal)
    requires { Room out.old (first_line (refused refusal).number (refused refusal).position 0) }
    ensures { Wrote out.old (first_line (refused refusal).number (refused refusal).position 0) out.new }
{
    first_line(out, refusal.number(), refusal.position() as u64, 0);
}

// Name and three numbers.
fn first_line(out: &mut Cursor, number: u64, second: u64, third: u64)
    requires { Room out.old (first_line number second third) }
    ensures { Wrote out.old (first_line number second third) out.new }
{
    out.put_bytes(b"smooth ");
    put_word(out, number, b' ');
    put_word(out, second, b' ');
    put_word(out, third, b'\n');
}

// A line for each result, the first of index 0.
pub fn result_lines(out: &mut Cursor, results: &[i64])
    requires { Room out.old (result_lines 0 results.now) }
    ensures { Wrote out.old (result_lines 0 results.now) out.new }
{
    for (i, &res) in results.iter().enumerate() {
        result_line(out, i, res);
    }
}

fn result_line(out: &mut Cursor, index: usize, res: i64)
    requires { Room out.old (result_lines index (res ∷ [])) }
    ensures { Wrote out.old (result_lines index (res ∷ [])) out.new }
{
    put_word(out, index, b' ');
    put_word(out, res, b'\n');
}

// A number, and the byte that ends it.
fn put_word<I: Integer>(out: &mut Cursor, n: I, last: u8)
    requires { Room out.old (I.text n ++ last ∷ []) }
    ensures { Wrote out.old (I.text n ++ last ∷ []) out.new }
{
    text::inner::put_decimal(out, n);
    out.put_byte(last);
}
