// Smoothed series, pictures and points.
use calls_stream::inner::stream::{Ended, Stream};
use plan::Refusal;
use std::io::{Read, Write};

// Call 1.
pub fn smooth_series<R: Read, W: Write>(stream: &mut Stream<R, W>) -> Result<(), Ended> {
    let plan = stream.plan()?;
    let bound = stream.word()?;
    smoothed(stream, |samples, results, work| {
        series::smooth_series(plan, bound, samples, results, work)
    })
}

// Call 2.
pub fn smooth_picture<R: Read, W: Write>(stream: &mut Stream<R, W>) -> Result<(), Ended> {
    let raster = stream.raster()?;
    smoothed(stream, |samples, results, work| {
        picture::smooth_picture(raster, samples, results, work)
    })
}

// Samples, results and work are read, and what the call makes of them is printed.
fn smoothed<R, W, F>(stream: &mut Stream<R, W>, call: F) -> Result<(), Ended>
where
    R: Read,
    W: Write,
    F: FnOnce(&[i32], &mut [i64], &mut [i64]) -> Result<(), Refusal>,
    requires { F.IsAlwaysCallable call }
{
    let samples = stream.slice::<i32>()?;
    let mut results = stream.slice::<i64>()?;
    let mut work = stream.slice::<i64>()?;
    let answer = call(&samples, &mut results, &mut work);
    stream.answer(&answer)?;
    stream.bad(&answer)?;
    stream.print(&results)?;
    stream.print(&work)?;
    stream.end_line()
}

// Call 4.
pub fn point<R: Read, W: Write>(stream: &mut Stream<R, W>) -> Result<(), Ended> {
    let plan = stream.plan()?;
    let bound = stream.word()?;
    let position = stream.word()? as usize;
    let samples = stream.slice::<i32>()?;
    let mut work = stream.slice::<i64>()?;
    let answer = point::point(plan, bound, position, &samples, &mut work);
    stream.answer(&answer)?;
    stream.bad(&answer)?;
    stream.double(answer.unwrap_or(0.0))?;
    stream.print(&work)?;
    stream.end_line()
}
