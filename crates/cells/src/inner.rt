// A slice written cell by cell from another.
ghost use Rattle.std.specs.Prelude.{◌≡◌, length};
ghost use Rattle.std.specs.List.{All, AllZip};

// Every cell of `to` becomes what `f` makes of the same cell of `from`. No zip: of cells that a zip has lent a proof knows nothing afterwards.
pub fn map_into<A: Copy, B: Copy, F: Fn(A) -> B>(from: &[A], to: &mut [B], f: F)
    requires same { length to.old ≡ length from.now }
    requires callable { All (F.pre f) from.now }
    ensures { AllZip (F.post f) from.now to.new }
{
    for (i, cell) in to.iter_mut().enumerate() {
        *cell = f(from[i]);
    }
}
