// One job in, its text out.
ghost use Rattle.std.specs.Prelude.{◌≤◌, length};
ghost use Rattle.meaning.specs.Program.{program};
ghost use Rattle.encoding.specs.Append.{Appended, Wrote, rest};
ghost use Rattle.job.specs.Text.{most_text};

use encoding::inner::cursor::Cursor;
use plan::{Plan, Refusal};

// A longer input is no job.
pub const MOST_BYTES: usize = 4123;

// What the program prints for its input. A slice and no `Vec`: a report is of limited size, and no memory can run out.
pub fn report(input: &[u8], out: &mut [u8]) -> usize
    requires { most_text ≤ length out.old }
    ensures { Appended out.old 0 (program input.now) out.new result }
{
    let mut text = Cursor::new(out);
    report_into(input, &mut text);
    text.len()
}

fn report_into(input: &[u8], text: &mut Cursor)
    requires { most_text ≤ length (rest text.old) }
    ensures { Wrote text.old (program input.now) text.new }
{
    if input.len() > MOST_BYTES {
        return lines::inner::refused_line(text, Refusal::Record);
    }
    match reader::read_record(input) {
        Ok(job) => {
            let stretch = record::stretch(input, job.start, job.size);
            let bound = u64::from(job.fields.bound);
            job::inner::smooth(Plan::from(job.fields), bound, stretch, text);
        }
        Err(refusal) => lines::inner::refused_line(text, refusal),
    }
}
