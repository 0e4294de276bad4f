// The job record.
use calls_stream::inner::stream::{Ended, Stream};
use record::Fields;
use std::io::{Read, Write};

// Call 13.
pub fn read_record<R: Read, W: Write>(stream: &mut Stream<R, W>) -> Result<(), Ended> {
    let bytes = stream.slice::<u8>()?;
    match reader::read_record(&bytes) {
        Ok(job) => {
            stream.first(0)?;
            stream.number(u64::from(job.fields.radius))?;
            stream.number(job.fields.inner)?;
            stream.number(job.fields.edge)?;
            stream.number(job.fields.passes)?;
            stream.number(u64::from(job.fields.bound))?;
            stream.number(job.start as u64)?;
            stream.number(job.size as u64)?;
        }
        Err(refusal) => {
            stream.first(refusal.number())?;
            stream.print(&[0u64; 7])?;
        }
    }
    stream.end_line()
}

// Call 14.
pub fn write_record<R: Read, W: Write>(stream: &mut Stream<R, W>) -> Result<(), Ended> {
    let fields = Fields {
        radius: (stream.word()? % 65536) as u16,
        inner: stream.element()?,
        edge: stream.element()?,
        passes: stream.element()?,
        bound: (stream.word()? % 4294967296) as u32,
    };
    let samples = stream.slice::<i32>()?;
    let mut bytes = stream.slice::<u8>()?;
    let answer = writer::write_record(fields, &samples, &mut bytes);
    stream.answer(&answer)?;
    stream.print(&bytes)?;
    stream.end_line()
}

// Call 101: a stretch of bytes, and one of its samples.
pub fn stretch_and_sample<R: Read, W: Write>(stream: &mut Stream<R, W>) -> Result<(), Ended> {
    let bytes = stream.slice::<u8>()?;
    let start = stream.word()? as usize;
    let size = stream.word()? as usize;
    let index = stream.word()? as usize;
    let stretch = record::stretch(&bytes, start, size);
    stream.first(stretch.len() as u64)?;
    stream.number(record::sample(stretch, index))?;
    stream.print(stretch)?;
    stream.end_line()
}
