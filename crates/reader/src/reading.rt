// The fields of a record, taken off its front one by one.
ghost use Rattle.std.specs.Prelude.{◌≡◌, ◌≤◌, false, true, length, drop, MatchOption};
ghost use Rattle.meaning.specs.Record as M;
ghost use Rattle.reader.specs.Reading.{Taken};

use record::Job;

// What follows the head of a field of this tag and so many bytes, where they begin with one.
fn after_head(bytes: &[u8], tag: u8, size: usize) -> Option<&[u8]>
    ensures { MatchOption result (M.begins tag size bytes.now ≡ false) (λ rest. (M.begins tag size bytes.now ≡ true) × (rest.now ≡ drop 3 bytes.now)) }
{
    let (&[first, high, low], rest) = bytes.split_first_chunk::<3>()?;
    if rest.len() < size {
        return None;
    }
    if first != tag {
        return None;
    }
    if usize::from(u16::from_be_bytes([high, low])) != size {
        return None;
    }
    Some(rest)
}

// The bytes in a field of this tag, and what follows the field.
pub(crate) fn field<const N: usize>(bytes: &[u8], tag: u8) -> Option<(&[u8; N], &[u8])>
    ensures { MatchOption result (M.begins tag N bytes.now ≡ false) (λ p. Taken tag N bytes.now p.0.now p.1.now) }
{
    after_head(bytes, tag, N)?.split_first_chunk::<N>()
}

// The bytes of the samples. They take all that is left, so nothing can trail them.
pub(crate) fn samples_field(bytes: &[u8]) -> Option<&[u8]>
    ensures { MatchOption result (M.holds_samples bytes.now ≡ false) (λ samples. (M.holds_samples bytes.now ≡ true) × (samples.now ≡ drop 3 bytes.now)) }
{
    let samples = after_head(bytes, 6, bytes.len().saturating_sub(3))?;
    if samples.len() % 4 != 0 {
        return None;
    }
    if plan::inner::outside(1, Job::MAX_SAMPLES, (samples.len() / 4) as u64) {
        return None;
    }
    Some(samples)
}
