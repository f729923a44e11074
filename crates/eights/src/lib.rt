// The cosines of the transform, eight at a time, and a running sum that is fed with them.
#![tactic(auto)]

ghost use Rattle.std.specs.Prelude.{◌≡◌, ◌⊎◌, ◌+◌, ◌-◌, ◌%◌, ◌≤◌, ◌<◌, get_or};
ghost use Rattle.std.specs.Float.{nan};
ghost use Rattle.numbers.specs.Arith.{◌⊗◌};
ghost use Rattle.dequantize.specs.Coefficients.{table};
ghost use Rattle.eights.specs.Eights.{dct_multiplier, cosine_at, sum_of};

// k times the f32 number π/32.
const DCT_MULTIPLIERS: [f32; 32] = [
    0.0, 0.09817477, 0.19634955, 0.2945243, 0.3926991, 0.49087387, 0.5890486, 0.68722343,
    0.7853982, 0.88357294, 0.98174775, 1.0799226, 1.1780972, 1.276272, 1.3744469, 1.4726216,
    1.5707964, 1.6689712, 1.7671459, 1.8653207, 1.9634955, 2.0616703, 2.159845, 2.2580197,
    2.3561945, 2.4543693, 2.552544, 2.650719, 2.7488937, 2.8470683, 2.9452431, 3.043418,
];

// Eight entries of the table, those from 0, 8, 16 or 24 on, at literal indices: so no copy of the table is made.
fn dct_multipliers(from: usize) -> [f32; 8]
    requires { (from % 8 ≡ 0) × (from < 32) }
    ensures { result ≡ table (λ j. dct_multiplier (from + j)) 8 }
{
    let m = DCT_MULTIPLIERS;
    match from {
        0 => [m[0], m[1], m[2], m[3], m[4], m[5], m[6], m[7]],
        8 => [m[8], m[9], m[10], m[11], m[12], m[13], m[14], m[15]],
        16 => [m[16], m[17], m[18], m[19], m[20], m[21], m[22], m[23]],
        _ => [m[24], m[25], m[26], m[27], m[28], m[29], m[30], m[31]],
    }
}

// Eight cosines.
pub fn cosines(from: usize, t: f32) -> [f32; 8]
    requires { (from % 8 ≡ 0) × (from < 32) }
    ensures { result ≡ table (λ j. cosine_at t (from + j)) 8 }
{
    let multipliers = dct_multipliers(from);
    let tandhalf = t + 0.5;
    let mut eight = [0.0; 8];
    for j in 0..8 {
        eight[j] = approximations::fast_cos(multipliers[j] * tandhalf);
    }
    eight
}

// A running sum of a row gets eight products more, one after another. The first product of all begins it.
pub fn fed(sum: f32, row: &[f32; 32], eight: [f32; 8], from: usize, t: f32) -> f32
    requires { (from + 8 ≤ 32) × (eight ≡ table (λ j. cosine_at t (from + j)) 8) × ((from ≡ 0) ⊎ (sum ≡ sum_of (λ i. get_or row.now i nan ⊗ get_or (table (cosine_at t) 32) i nan) (from - 1))) }
    ensures { result ≡ sum_of (λ i. get_or row.now i nan ⊗ get_or (table (cosine_at t) 32) i nan) (from + 7) }
{
    let first = row[from] * eight[0];
    let mut s = if from == 0 { first } else { sum + first };
    for j in 1..8 {
        s = s + row[from + j] * eight[j];
    }
    s
}
