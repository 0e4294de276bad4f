// The cells of both conversions. Every number is below 2^53 in size, so that neither loses anything.
ghost use Rattle.std.specs.Prelude.{◌≡◌, map, ◌≤◌, length, nat_abs};
ghost use Rattle.std.specs.Float.{binary64};
ghost use Rattle.std.specs.Float.Ieee.{of_int, to_signed};
ghost use Rattle.meaning.specs.Limits.{max_result};
ghost use Rattle.exact.specs.Converting.{Held, Takable};

fn double_of(res: i64) -> f64
    requires { nat_abs res ≤ max_result }
    ensures { result ≡ of_int binary64 res }
{
    res as f64
}

pub(crate) fn doubles_into(results: &[i64], cells: &mut [f64])
    requires { Held results.now (length cells.old) }
    ensures { cells.new ≡ map (of_int binary64) results.now }
{
    cells::inner::map_into(results, cells, double_of);
}

pub(crate) fn results_into(doubles: &[f64], results: &mut [i64])
    requires { Takable doubles.now (length results.old) }
    ensures { results.new ≡ map (to_signed 63) doubles.now }
{
    cells::inner::map_into(doubles, results, samples::inner::whole_of);
}
