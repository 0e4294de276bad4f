// An edit.
use calls_stream::inner::stream::{Ended, Stream};
use std::io::{Read, Write};

// Call 3.
pub(crate) fn edit_series<R: Read, W: Write>(stream: &mut Stream<R, W>) -> Result<(), Ended> {
    let plan = stream.plan()?;
    let bound = stream.word()?;
    let position = stream.word()? as usize;
    let value = stream.element()?;
    let mut samples = stream.slice::<i32>()?;
    let mut results = stream.slice::<i64>()?;
    let mut work = stream.slice::<i64>()?;
    let answer = edit::edit_series(
        plan,
        bound,
        position,
        value,
        &mut samples,
        &mut results,
        &mut work,
    );
    stream.answer(&answer)?;
    stream.number(answer.unwrap_or(0) as u64)?;
    stream.bad(&answer)?;
    stream.print(&samples)?;
    stream.print(&results)?;
    stream.print(&work)?;
    stream.end_line()
}
