// A plan by itself, and the planner.
use calls_stream::inner::stream::{Ended, Stream};
use plan::Refusal;
use planner::Planned;
use std::io::{Read, Write};

// Call 5.
pub fn plan_for<R: Read, W: Write>(stream: &mut Stream<R, W>) -> Result<(), Ended> {
    let sigma = stream.word()?;
    let passes = stream.word()?;
    let inner = stream.word()?;
    let [number, radius, edge] = words_of(planner::plan_for(sigma, passes, inner));
    stream.first(number)?;
    stream.print(&[radius, edge])?;
    stream.end_line()
}

// Number, radius and edge weight.
fn words_of(planned: Result<Planned, Refusal>) -> [u64; 3] {
    match planned {
        Ok(planned) => [0, planned.radius, planned.edge],
        Err(refusal) => [refusal.number(), 0, 0],
    }
}

// Call 100.
pub fn divisor_and_reach<R: Read, W: Write>(stream: &mut Stream<R, W>) -> Result<(), Ended> {
    let plan = stream.plan()?;
    stream.first(plan.divisor())?;
    stream.number(plan.reach())?;
    stream.end_line()
}

// Call 102: number, radius and edge weight of every sigma from 1 on, one after the other.
pub fn plans_for_all<R: Read, W: Write>(stream: &mut Stream<R, W>) -> Result<(), Ended> {
    let passes = stream.word()?;
    let inner = stream.word()?;
    let mut words = Vec::new(stream.alloc);
    for sigma in 1..=Planned::MAX_SIGMA {
        words.extend_from_slice(&words_of(planner::plan_for(sigma, passes, inner)))?;
    }
    stream.first(Planned::MAX_SIGMA)?;
    stream.print(&words)?;
    stream.end_line()
}

#[cfg(test)]
mod tests {
    use super::*;
    use std::test::Fail;

    // One pass, and inner weight 1.
    const WORDS: [u8; 16] = [0, 0, 0, 0, 0, 0, 0, 1, 0, 0, 0, 0, 0, 0, 0, 1];

    #[test]
    fn plans_of_every_sigma_are_printed(rt: HostRuntime) -> Result<(), Fail> {
        let alloc = rt.alloc();
        let mut stream = Stream::new(alloc, WORDS.as_slice(), Vec::new(alloc));
        assert!(rt; plans_for_all(&mut stream).is_ok());
        Ok(())
    }
}
