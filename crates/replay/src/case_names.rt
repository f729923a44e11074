// The names of the kinds of case, as vectors/README.md lists them.

pub const KINDS: u32 = 23;

pub fn name_of(kind: u32) -> &'static str {
    match kind {
        1 => "floor",
        2 => "ceil",
        3 => "round",
        4 => "f32 to i64",
        5 => "f32 to u64",
        6 => "u64 to f32",
        7 => "f64 to f32",
        8 => "root",
        9 => "length",
        10 => "fast_cos",
        11 => "fast_erff",
        12 => "ln",
        13 => "greater magnitude",
        14 => "read",
        15 => "write",
        16 => "dequantize",
        17 => "curve",
        18 => "walk",
        19 => "transform",
        20 => "segment",
        21 => "build",
        22 => "draw",
        _ => "of no known kind",
    }
}
