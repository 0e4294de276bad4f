// The rule: with Q = 10,000 K, the largest radius whose box is no wider than asked, and there the edge weight nearest the survey's.
ghost use Rattle.std.specs.Prelude.{◌≡◌, ◌*◌};
ghost use Rattle.meaning.specs.Planner as meant;
ghost use Rattle.planner.specs.Ready.{Sigma, Found};

// The largest r with r(r+1)Q <= 3s². It is at most 442, and found by counting up.
pub(crate) fn radius(sigma: u64, passes: u64) -> u64
    requires { Sigma sigma passes }
    ensures { result ≡ meant.radius_for sigma (10000 * passes) }
{
    let most = 3 * sigma * sigma;
    let q = 10000 * passes;
    let mut r: u64 = 0;
    // a `while`: where it stops is the answer
    while (r + 1) * (r + 2) * q <= most {
        r += 1;
    }
    r
}

// The whole number nearest b(2r+1)(3s² - r(r+1)Q) / (6((r+1)²Q - s²)), a half going down.
pub(crate) fn edge(sigma: u64, passes: u64, inner: u64, radius: u64) -> u64
    requires { Found sigma passes inner radius }
    ensures { result ≡ meant.edge_for sigma (10000 * passes) inner radius }
{
    let q = 10000 * passes;
    let square = sigma * sigma;
    let next = radius + 1;
    let numerator = inner * (2 * radius + 1) * (3 * square - radius * next * q);
    let denominator = 6 * (next * next * q - square);
    (2 * numerator + denominator - 1) / (2 * denominator)
}
