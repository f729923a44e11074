// The number leaves of the port against stored answers.

// The leaves from f32 to f32, by kind.
fn leaf(kind: u32, x: f32) -> f32 {
    match kind {
        1 => wholes::floor(x),
        2 => wholes::ceil(x),
        3 => wholes::round(x),
        8 => roots::root(x),
        10 => approximations::fast_cos(x),
        11 => approximations::fast_erff(x),
        12 => approximations::ln(x),
        _ => x,
    }
}

// A leaf of one word.
fn agrees_one(kind: u32, bits: u32, output: &[u32]) -> bool {
    let x = stored::float(bits);
    match kind {
        4 => stored::is_signed(kinds::saturating_f32_to_i64(x), output),
        5 => stored::is_long(kinds::saturating_f32_to_u64(x), output),
        _ => stored::is_only_float(leaf(kind, x), output),
    }
}

// A leaf of two words.
fn agrees_two(kind: u32, low: u32, high: u32, output: &[u32]) -> bool {
    match kind {
        6 => stored::is_only_float(to_f32::nearest_u64_to_f32(stored::long(low, high)), output),
        7 => stored::is_only_float(
            to_f32::nearest_f64_to_f32(stored::double(stored::long(low, high))),
            output,
        ),
        9 => stored::is_only_float(
            roots::length(stored::signed_word(low), stored::signed_word(high)),
            output,
        ),
        13 => stored::is_only_float(
            numbers::top(
                numbers::abs(stored::float(low)),
                numbers::abs(stored::float(high)),
            ),
            output,
        ),
        _ => false,
    }
}

pub fn agrees(kind: u32, input: &[u32], output: &[u32]) -> bool {
    match input {
        [bits] => agrees_one(kind, *bits, output),
        [low, high] => agrees_two(kind, *low, *high, output),
        _ => false,
    }
}
