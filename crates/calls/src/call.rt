// The calls by their numbers.
ghost use Rattle.calls.specs.Numbers.{Decodes};

use calls_stream::inner::stream::Ended;

#[derive(Clone, Copy)]
pub(crate) enum Call {
    SmoothSeries,
    SmoothPicture,
    EditSeries,
    Point,
    PlanFor,
    DoublesIn,
    WholeSeriesBy,
    DoublesSeries,
    SummarySeries,
    WholePictureBy,
    DoublesPicture,
    SummaryPicture,
    ReadRecord,
    WriteRecord,
    CarrySeries,
    CarryPicture,
    ResultsToDoubles,
    DoublesToResults,
    DivisorAndReach,
    StretchAndSample,
    PlansForAll,
    WholeSeries,
    WholePicture,
}

// A number of no call ends the stream.
impl TryFrom<u64> for Call {
    type Error = Ended;

    ghost try_from_gives = { Decodes };

    fn try_from(number: u64) -> Result<Call, Ended> {
        match number {
            1 => Ok(Call::SmoothSeries),
            2 => Ok(Call::SmoothPicture),
            3 => Ok(Call::EditSeries),
            4 => Ok(Call::Point),
            5 => Ok(Call::PlanFor),
            6 => Ok(Call::DoublesIn),
            7 => Ok(Call::WholeSeriesBy),
            8 => Ok(Call::DoublesSeries),
            9 => Ok(Call::SummarySeries),
            10 => Ok(Call::WholePictureBy),
            11 => Ok(Call::DoublesPicture),
            12 => Ok(Call::SummaryPicture),
            13 => Ok(Call::ReadRecord),
            14 => Ok(Call::WriteRecord),
            15 => Ok(Call::CarrySeries),
            16 => Ok(Call::CarryPicture),
            25 => Ok(Call::ResultsToDoubles),
            26 => Ok(Call::DoublesToResults),
            100 => Ok(Call::DivisorAndReach),
            101 => Ok(Call::StretchAndSample),
            102 => Ok(Call::PlansForAll),
            107 => Ok(Call::WholeSeries),
            110 => Ok(Call::WholePicture),
            _ => Err(Ended::Closed),
        }
    }
}
