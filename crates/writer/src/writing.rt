// The fields of a record, put one behind the other.
ghost use Rattle.std.specs.Prelude.{◌≡◌, ◌≤◌, ◌<◌, ◌^◌, length};
ghost use Rattle.meaning.specs.Limits.{max_samples};
ghost use Rattle.meaning.specs.Refusals.{first_of};
ghost use Rattle.meaning.specs.Record as M;
ghost use Rattle.plan.specs.Structs.{answer_of};
ghost use Rattle.encoding.specs.Append.{Wrote, Room};

use encoding::inner::cursor::Cursor;
use plan::Refusal;
use plan::inner::{outside, row};
use record::{Fields, Job};

// Rows 7 and 8, of so many samples and a slice of so many bytes.
// Not one function with `lengths_allowed` of `exact`: two rows each, and it would take five numbers.
pub(crate) fn allowed(samples: usize, room: usize) -> Result<(), Refusal>
    ensures { answer_of result ≡ first_of (M.write_rows samples room (M.record_size samples)) }
{
    let bad_size = outside(1, Job::MAX_SAMPLES, samples as u64);
    row(bad_size, Refusal::Size)?;
    row(room != 27 + 4 * samples, Refusal::Length)
}

fn put_field(out: &mut Cursor, tag: u8, value: &[u8])
    requires { Room out.old (M.field tag value.now) × (length value.now < 2 ^ 16) }
    ensures { Wrote out.old (M.field tag value.now) out.new }
{
    out.put_byte(tag);
    out.put_u16(value.len() as u16);
    out.put_bytes(value);
}

fn put_values(out: &mut Cursor, samples: &[i32])
    requires { Room out.old (M.sample_bytes samples.now) }
    ensures { Wrote out.old (M.sample_bytes samples.now) out.new }
{
    for &sample in samples {
        out.put_bytes(&sample.to_be_bytes());
    }
}

// The field with the samples.
fn put_samples(out: &mut Cursor, samples: &[i32])
    requires { Room out.old (M.field 6 (M.sample_bytes samples.now)) × (length samples.now ≤ max_samples) }
    ensures { Wrote out.old (M.field 6 (M.sample_bytes samples.now)) out.new }
{
    out.put_byte(6);
    out.put_u16(4 * samples.len() as u16);
    put_values(out, samples);
}

// The whole record.
fn put_fields(out: &mut Cursor, fields: Fields, samples: &[i32])
    requires { Room out.old (M.record_of fields.radius fields.inner fields.edge fields.passes fields.bound samples.now) × (length samples.now ≤ max_samples) }
    ensures { Wrote out.old (M.record_of fields.radius fields.inner fields.edge fields.passes fields.bound samples.now) out.new }
{
    put_field(out, 1, &fields.radius.to_be_bytes());
    put_field(out, 2, &[fields.inner]);
    put_field(out, 3, &[fields.edge]);
    put_field(out, 4, &[fields.passes]);
    put_field(out, 5, &fields.bound.to_be_bytes());
    put_samples(out, samples);
}

// The same, into a slice of its length.
pub(crate) fn put_record(fields: Fields, samples: &[i32], bytes: &mut [u8])
    requires { (length bytes.old ≡ M.record_size (length samples.now)) × (length samples.now ≤ max_samples) }
    ensures { bytes.new ≡ M.record_of fields.radius fields.inner fields.edge fields.passes fields.bound samples.now }
{
    put_fields(&mut Cursor::new(bytes), fields, samples);
}
