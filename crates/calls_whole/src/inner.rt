// Whole numbers out.
use calls_stream::inner::stream::{Ended, Stream};
use plan::Refusal;
use std::io::{Read, Write};

// Call 7.
pub fn whole_series_by<R: Read, W: Write>(stream: &mut Stream<R, W>) -> Result<(), Ended> {
    let plan = stream.plan()?;
    let bound = stream.word()?;
    let mode = stream.word()?;
    rounded(stream, |results, cells| {
        whole::whole_series_by(plan, bound, mode, results, cells)
    })
}

// Call 10.
pub fn whole_picture_by<R: Read, W: Write>(stream: &mut Stream<R, W>) -> Result<(), Ended> {
    let raster = stream.raster()?;
    let mode = stream.word()?;
    rounded(stream, |results, cells| {
        whole::whole_picture_by(raster, mode, results, cells)
    })
}

// Call 107.
pub fn whole_series<R: Read, W: Write>(stream: &mut Stream<R, W>) -> Result<(), Ended> {
    let plan = stream.plan()?;
    let bound = stream.word()?;
    rounded(stream, |results, cells| {
        whole::whole_series(plan, bound, results, cells)
    })
}

// Call 110.
pub fn whole_picture<R: Read, W: Write>(stream: &mut Stream<R, W>) -> Result<(), Ended> {
    let raster = stream.raster()?;
    rounded(stream, |results, cells| {
        whole::whole_picture(raster, results, cells)
    })
}

// Results and cells are read, and what the call makes of them is printed.
fn rounded<R, W, F>(stream: &mut Stream<R, W>, call: F) -> Result<(), Ended>
where
    R: Read,
    W: Write,
    F: FnOnce(&[i64], &mut [i32]) -> Result<(), Refusal>,
    requires { F.IsAlwaysCallable call }
{
    let results = stream.slice::<i64>()?;
    let mut cells = stream.slice::<i32>()?;
    let answer = call(&results, &mut cells);
    stream.answer(&answer)?;
    stream.print(&cells)?;
    stream.end_line()
}

// Call 15.
pub fn carry_series<R: Read, W: Write>(stream: &mut Stream<R, W>) -> Result<(), Ended> {
    let plan = stream.plan()?;
    let bound = stream.word()?;
    carried(stream, |results, cells| {
        carry::carry_series(plan, bound, results, cells)
    })
}

// Call 16.
pub fn carry_picture<R: Read, W: Write>(stream: &mut Stream<R, W>) -> Result<(), Ended> {
    let raster = stream.raster()?;
    carried(stream, |results, cells| {
        carry::carry_picture(raster, results, cells)
    })
}

// The same, with what is carried out of the last cell. A closure to print that one word too is no plainer.
fn carried<R, W, F>(stream: &mut Stream<R, W>, call: F) -> Result<(), Ended>
where
    R: Read,
    W: Write,
    F: FnOnce(&[i64], &mut [i32]) -> Result<u64, Refusal>,
    requires { F.IsAlwaysCallable call }
{
    let results = stream.slice::<i64>()?;
    let mut cells = stream.slice::<i32>()?;
    let answer = call(&results, &mut cells);
    stream.answer(&answer)?;
    stream.number(answer.unwrap_or(0))?;
    stream.print(&cells)?;
    stream.end_line()
}
