// What programs over the record share.
ghost use Rattle.std.specs.Prelude.{◌≡◌, length};
ghost use Rattle.meaning.specs.Smoothing.{list_of};
ghost use Rattle.meaning.specs.Record.{sample_at};

// Every cell gets its sample of the stretch.
pub fn load(stretch: &[u8], samples: &mut [i32])
    ensures { samples.new ≡ list_of (length samples.old) (sample_at stretch.now) }
{
    for (i, sample) in samples.iter_mut().enumerate() {
        *sample = crate::sample(stretch, i);
    }
}
