// Runs test vectors through the public calls: a stream of words in, a line a call out.
#![tactic(auto)]

use call::Call;
use calls_jobs::inner::{plans, records};
use calls_stream::inner::stream::{Ended, Stream};
use std::io;
use std::io::{BufReader, BufWriter, Read, Write};

mod call;
mod edits;

// So many bytes are read at once.
const MOST_HELD: usize = 65536;

// As many bytes as the slices of a call take together.
const MOST_LENT: usize = 4194304;

// A proved loop has to end, and nothing says that the input does.
const MOST_CALLS: u64 = 1000000;

fn main(rt: HostRuntime) -> io::Result<()> {
    let alloc = rt.alloc();
    // Taken and given back once, so that the C library keeps what the calls give back: else each call would get fresh pages. Without it nothing fails.
    let _ = Vec::<u8>::with_capacity(alloc, MOST_LENT);
    let from = BufReader::with_capacity(alloc, MOST_HELD, rt.reader())?;
    let to = BufWriter::new(alloc, io::writer(&rt))?;
    let mut stream = Stream::new(alloc, from, to);
    let ran = run(&mut stream);
    stream.end(ran)
}

fn run<R: Read, W: Write>(stream: &mut Stream<R, W>) -> Result<(), Ended> {
    for _ in 0..MOST_CALLS {
        one_call(stream)?;
    }
    Ok(())
}

fn one_call<R: Read, W: Write>(stream: &mut Stream<R, W>) -> Result<(), Ended> {
    match Call::try_from(stream.word()?)? {
        Call::SmoothSeries => calls_smoothing::inner::smooth_series(stream),
        Call::SmoothPicture => calls_smoothing::inner::smooth_picture(stream),
        Call::EditSeries => edits::edit_series(stream),
        Call::Point => calls_smoothing::inner::point(stream),
        Call::PlanFor => plans::plan_for(stream),
        Call::DoublesIn => calls_outputs::inner::doubles_in(stream),
        Call::WholeSeriesBy => calls_whole::inner::whole_series_by(stream),
        Call::DoublesSeries => calls_outputs::inner::doubles_series(stream),
        Call::SummarySeries => calls_outputs::inner::summary_series(stream),
        Call::WholePictureBy => calls_whole::inner::whole_picture_by(stream),
        Call::DoublesPicture => calls_outputs::inner::doubles_picture(stream),
        Call::SummaryPicture => calls_outputs::inner::summary_picture(stream),
        Call::ReadRecord => records::read_record(stream),
        Call::WriteRecord => records::write_record(stream),
        Call::CarrySeries => calls_whole::inner::carry_series(stream),
        Call::CarryPicture => calls_whole::inner::carry_picture(stream),
        Call::ResultsToDoubles => calls_outputs::inner::results_to_doubles(stream),
        Call::DoublesToResults => calls_outputs::inner::doubles_to_results(stream),
        Call::DivisorAndReach => plans::divisor_and_reach(stream),
        Call::StretchAndSample => records::stretch_and_sample(stream),
        Call::PlansForAll => plans::plans_for_all(stream),
        Call::WholeSeries => calls_whole::inner::whole_series(stream),
        Call::WholePicture => calls_whole::inner::whole_picture(stream),
    }
}
