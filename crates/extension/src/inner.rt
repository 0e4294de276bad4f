// Walking a series continued beyond its ends. The extension of len cells repeats after 2 len. Where a whole number stands in that period is its
// place, one of 0 to 2 len - 1: the first half of them goes forward through the cells, the second half back.
ghost use Rattle.std.specs.Prelude.{◌≡◌, ◌+◌, ◌*◌, ◌^◌, ◌≤◌, ◌<◌, length, pos};
ghost use Rattle.meaning.specs.Extension.{at, fold, ext};
ghost use Rattle.theory.specs.Walk.{Stands};
ghost use Rattle.extension.specs.Source.{source};

// A whole number from 0 on: so many whole periods, and its place.
#[derive(Clone, Copy)]
pub struct Periods {
    pub whole: usize,
    pub rest: usize,
}

// How many whole periods lie before i, and where it stands in its own. The one division that reading beyond the ends takes.
pub fn periods_before(i: usize, len: usize) -> Periods
    requires le_len { 1 ≤ len }
    requires len_bound { 2 * len < 2 ^ 64 }
    ensures i_value { i ≡ result.whole * (2 * len) + result.rest }
    ensures rest_bound { result.rest < 2 * len }
{
    let period = 2 * len;
    // spares the division
    if i < period {
        return Periods { whole: 0, rest: i };
    }
    Periods {
        whole: i / period,
        rest: i % period,
    }
}

// The next place; behind the last the walk begins again.
// Place and length are two numbers: docs/PROMISES.md names `next` and `reflect`, and a type that holds place < 2 len would ask more.
pub fn next(place: usize, len: usize) -> usize
    requires place_bound { place < 2 * len }
    requires len_bound { 2 * len < 2 ^ 64 }
    ensures { Stands len (pos (place + 1)) result }
{
    let on = place + 1;
    if on == 2 * len { 0 } else { on }
}

// Which of len cells stands at a place.
#[tactic(auto, using(theory::specs::HalfSample::fold_small, theory::specs::HalfSample::reflect_low, theory::specs::HalfSample::reflect_high))]
pub fn reflect(place: usize, len: usize) -> usize
    requires place_bound { place < 2 * len }
    requires len_bound { 2 * len < 2 ^ 64 }
    ensures value { result ≡ fold len (pos place) }
    ensures bound { result < len }
{
    if place < len {
        place
    } else {
        2 * len - 1 - place
    }
}

// ---- what is read: samples where any are lent, else cells
// No enum: `source_len` and `source_at` are public functions, and a caller gives them two slices.

// How many that are.
#[tactic(auto, using(crate::specs::Source::source_samples, crate::specs::Source::source_cells))]
pub fn source_len(samples: &[i32], cells: &[i64]) -> usize
    ensures { result ≡ length (source samples.now cells.now) }
{
    if samples.is_empty() {
        cells.len()
    } else {
        samples.len()
    }
}

// The number at i of them.
#[tactic(auto, using(crate::specs::Source::source_samples, crate::specs::Source::source_cells))]
pub fn source_at(samples: &[i32], cells: &[i64], i: usize) -> i64
    requires { i < length (source samples.now cells.now) }
    ensures { result ≡ at (source samples.now cells.now) i }
{
    if samples.is_empty() {
        cells[i]
    } else {
        i64::from(samples[i])
    }
}

// What stands at a place.
#[tactic(auto, unfolding(meaning::specs::Extension::ext))]
pub fn read(src: &[i64], place: usize) -> i64
    requires { place < 2 * length src.now }
    ensures { result ≡ ext fold src.now (pos place) }
{
    src[reflect(place, src.len())]
}
