// Doubles in, doubles and summaries out, and results as doubles and back.
use calls_stream::inner::element::Element;
use calls_stream::inner::stream::{Ended, Stream};
use plan::Refusal;
use std::io::{Read, Write};
use summary::Summary;

// Call 6.
pub fn doubles_in<R: Read, W: Write>(stream: &mut Stream<R, W>) -> Result<(), Ended> {
    let bound = stream.word()?;
    taken(stream, |doubles, samples| {
        samples::doubles_in(bound, doubles, samples)
    })
}

// Call 8.
pub fn doubles_series<R: Read, W: Write>(stream: &mut Stream<R, W>) -> Result<(), Ended> {
    let plan = stream.plan()?;
    let bound = stream.word()?;
    doubled(stream, |results, cells| {
        doubles::doubles_series(plan, bound, results, cells)
    })
}

// Call 11.
pub fn doubles_picture<R: Read, W: Write>(stream: &mut Stream<R, W>) -> Result<(), Ended> {
    let raster = stream.raster()?;
    doubled(stream, |results, cells| {
        doubles::doubles_picture(raster, results, cells)
    })
}

// Call 25.
pub fn results_to_doubles<R: Read, W: Write>(stream: &mut Stream<R, W>) -> Result<(), Ended> {
    doubled(stream, exact::results_to_doubles)
}

// Results and doubles are read, and what the call makes of them is printed.
fn doubled<R, W, F>(stream: &mut Stream<R, W>, call: F) -> Result<(), Ended>
where
    R: Read,
    W: Write,
    F: FnOnce(&[i64], &mut [f64]) -> Result<(), Refusal>,
    requires { F.IsAlwaysCallable call }
{
    let results = stream.slice::<i64>()?;
    let mut cells = stream.doubles()?;
    let answer = call(&results, &mut cells.values);
    stream.answer(&answer)?;
    stream.print_doubles(&cells)?;
    stream.end_line()
}

// Call 26.
pub fn doubles_to_results<R: Read, W: Write>(stream: &mut Stream<R, W>) -> Result<(), Ended> {
    taken(stream, exact::doubles_to_results)
}

// Doubles and a slice are read, and what the call makes of them is printed.
fn taken<R, W, T, F>(stream: &mut Stream<R, W>, call: F) -> Result<(), Ended>
where
    R: Read,
    W: Write,
    T: Element,
    F: FnOnce(&[f64], &mut [T]) -> Result<(), Refusal>,
    requires { F.IsAlwaysCallable call }
{
    let doubles = stream.doubles()?.values;
    let mut cells = stream.slice::<T>()?;
    let answer = call(&doubles, &mut cells);
    stream.answer(&answer)?;
    stream.bad(&answer)?;
    stream.print(&cells)?;
    stream.end_line()
}

// Call 9.
pub fn summary_series<R: Read, W: Write>(stream: &mut Stream<R, W>) -> Result<(), Ended> {
    let plan = stream.plan()?;
    let bound = stream.word()?;
    let results = stream.slice::<i64>()?;
    summarised(stream, summary::summary_series(plan, bound, &results))
}

// Call 12.
pub fn summary_picture<R: Read, W: Write>(stream: &mut Stream<R, W>) -> Result<(), Ended> {
    let raster = stream.raster()?;
    let results = stream.slice::<i64>()?;
    summarised(stream, summary::summary_picture(raster, &results))
}

fn summarised<R, W>(
    stream: &mut Stream<R, W>,
    summary: Result<Summary, Refusal>,
) -> Result<(), Ended>
where
    R: Read,
    W: Write,
{
    stream.answer(&summary)?;
    match summary {
        Ok(summary) => {
            stream.double(summary.lowest)?;
            stream.double(summary.highest)?;
            stream.number(summary.lowest_at as u64)?;
            stream.number(summary.highest_at as u64)?;
        }
        Err(_) => stream.print(&[0u64; 4])?,
    }
    stream.end_line()
}
