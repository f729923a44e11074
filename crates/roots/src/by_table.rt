// The root for drawing: a guess from a lent table, an exact test of it, and `root` for what the test turns down.
// What `root_by` answers does not depend on the table. With ROOTS the test turns no normal number down.
ghost use Rattle.std.specs.Prelude.{◌≡◌, ◌⊎◌, ◌*◌, ◌≤◌, ◌<◌};
ghost use Rattle.std.specs.Float.{binary32};
ghost use Rattle.roots.specs.Root.{sqrt_of};
ghost use Rattle.roots.specs.RootBy.{root_bits};

use super::root;

// One number for each of 128 pieces: piece i is the patterns whose low 24 digits (the field's last digit and the 23 digits) begin with i.
// There, at the fraction u of the piece, sixteen times the root's 24 digits is nearly a + b u - c u², the parabola through that root at the
// three Chebyshev points of the piece, 1/2 and 1/2 ± √3/4. The number is A * 2^36 + (B - 2^14) * 2^14 + C, with A, B and C the whole numbers
// nearest to a - 0.64, b and c. Nothing is proved of it.
pub const ROOTS: [u64; 128] = [
    13043817901002413661,
    13145327769228596699,
    13246059664262927709,
    13346031384449717476,
    13445259697341158511,
    13543761095611503615,
    13641551247301301138,
    13738645408134288170,
    13835058077919924932,
    13930803619028701795,
    14025895500477977092,
    14120347053846122921,
    14214170992236237137,
    14307379616434540795,
    14399985021068857512,
    14491998613572243544,
    14583431732658262026,
    14674295098565218239,
    14764599294092431222,
    14854354489722392367,
    14943570649779179242,
    15032257326269943463,
    15120423796324028007,
    15208079199631740456,
    15295232194847100394,
    15381891440624111023,
    15468065183299947893,
    15553761463053323581,
    15638988182623997190,
    15723752969873837264,
    15808063246506314908,
    15891926228066405482,
    15975348992660180025,
    16058338412235279369,
    16140901083861421018,
    16223043604608322476,
    16304772296667827072,
    16386093344792791892,
    16467012796297120554,
    16547536561055795969,
    16627670411504831192,
    16707419913921809073,
    16786790497145342603,
    16865787590014077541,
    16944416415208213056,
    17022681989249534492,
    17100589466098747897,
    17178143518680271319,
    17255349026076903862,
    17332210661213047189,
    17408732959574133109,
    17484920319206672725,
    17560777138157127991,
    17636307745752533273,
    17711516196441983227,
    17786406682113542366,
    17860983119777351874,
    17935249495163062439,
    18009209587841861771,
    18082867246104430705,
    18156225974644066391,
    18229289553031989310,
    18302061485961463845,
    18374545209406326796,
    9223372053765918673,
    9295150371717746548,
    9366378590261317403,
    9437069285060775622,
    9507234344585481843,
    9576885313707429412,
    9646033393701227991,
    9714689304805166477,
    9782863423660133701,
    9850565645870697728,
    9917805798321949885,
    9984593158143167613,
    10050936658866277438,
    10116845165303680002,
    10182327061231504327,
    10247390524267400079,
    10312043457151126360,
    10376293556464028450,
    10440148243909528303,
    10503614803752127165,
    10566700107939433100,
    10629411097138563677,
    10691754162260773423,
    10753735900375828994,
    10815362358797617623,
    10876639722278996397,
    10937573763255978372,
    10998170185445116252,
    11058434555123960117,
    11118372369850616080,
    11177988714866346219,
    11237288812851333319,
    11296277611607885988,
    11354959921499342978,
    11413340621608503393,
    11471424109981878337,
    11529215059543836706,
    11586717730901919747,
    11643936453383129061,
    11700875350156068808,
    11757538475669800875,
    11813929884373469071,
    11870053355838261108,
    11925912738354825050,
    11981511742774921024,
    12036853873791829798,
    12091942773537801997,
    12146781740547688181,
    12201374348234278622,
    12255723688973993670,
    12309833130021177008,
    12363705695032805018,
    12417344613824251524,
    12470752772613523055,
    12523933195057595994,
    12576888767374476869,
    12629622307062679089,
    12682136562901272094,
    12734434214949832203,
    12786518011987428856,
    12838390496634668518,
    12890054280231667156,
    12941511767960077762,
    12992765502440555953,
];

// a * b, as one product of 64 bits.
fn mul(a: u32, b: u32) -> u64
    ensures { result ≡ a * b }
{
    u64::from(a) * u64::from(b)
}

// The root's 24 digits or one less, if w is the table's number for the piece and f the 17 digits within it. Nothing rests on it: each remainder
// only keeps the next step safe for any w.
fn guess(w: u64, f: u32) -> u32
    ensures { result < 33554432 }
{
    let c: u32 = (w % 16384) as u32;
    let b: u32 = ((w / 16384) % 4194304) as u32 + 16384;
    let d: u32 = ((mul(c, f) / 131072) % 16384) as u32;
    let g: u64 = w / 68719476736 + mul(b - d, f) / 131072;
    ((g / 16) % 33554432) as u32
}

// g, or the next number where n lies nearer to that one's square.
fn nearer(g: u32, n: u64) -> u32
    requires { g < 33554432 }
    ensures { result ≤ 33554432 }
{
    if n > mul(g, g) + u64::from(g) {
        g + 1
    } else {
        g
    }
}

// The pattern of the root of the normal number with the pattern `bits`; 0 if the guess was no good, and for an infinity, a NaN or a sign.
fn pattern(bits: u32, w: u64) -> u32
    ensures { (result ≡ 0) ⊎ ((bits < 2139095040) × (result ≡ root_bits bits)) }
{
    if bits < 2139095040 {
        let g: u32 = guess(w, bits % 131072);
        // the 24 digits, doubled where the field is even: n has 47 or 48, and its root 24
        let t: u32 = bits % 16777216;
        let m: u32 = if t < 8388608 { t + t + 16777216 } else { t };
        let n: u64 = u64::from(m) * 8388608;
        let r: u32 = nearer(g, n);
        // n from r² - r + 1 up to r² + r: r is the number nearest to its root
        let q: u64 = mul(r, r);
        if n <= q + u64::from(r) {
            if q < n + u64::from(r) {
                // half the field, and the digits: 2^24 of them carry into the field
                let e: u32 = (bits + 1065353216) / 16777216;
                return e * 8388608 + r - 8388608;
            }
        }
    }
    0
}

// The `f32` nearest to the root of x, as `root`, whatever the table holds; fast for the normal numbers where it is ROOTS.
pub fn root_by(x: f32, table: &[u64; 128]) -> f32
    ensures { result ≡ sqrt_of binary32 x }
{
    if x >= 1.1754943508222875e-38 {
        if x <= 3.4028234663852886e38 {
            let bits: u32 = f32::to_bits(x);
            let i: usize = ((bits / 131072) % 128) as usize;
            let p: u32 = pattern(bits, table[i]);
            if p > 0 {
                return f32::from_bits(p);
            }
        }
    }
    root(x)
}
