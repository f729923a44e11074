// How many stored cases of a kind the port agrees with. A layer's comparison is a module of its own, and has its line in `agrees`.
ghost use Rattle.std.specs.Prelude.{◌≤◌, length, get_or};
ghost use Rattle.frame.specs.Frame.{case_end, IsWhole};

use crate::{lists, number_leaves};

// Whether cases of a kind are compared.
pub fn compared(kind: u32) -> bool {
    matches!(kind, 1..=22)
}

fn layer_agrees(kind: u32, input: &[u32], output: &[u32]) -> bool {
    match kind {
        16 => replay_splines::dequantize(input, output),
        17 => replay_splines::curve(input, output),
        18 => replay_layers::walk(input, output),
        19 => replay_layers::transform(input, output),
        20 => replay_layers::segment(input, output),
        21 => replay_build::build(input, output),
        22 => replay_layers::draw(input, output),
        _ => false,
    }
}

fn agrees(kind: u32, input: &[u32], output: &[u32]) -> bool {
    if kind < 14 {
        number_leaves::agrees(kind, input, output)
    } else if kind < 16 {
        lists::agrees(kind, input, output)
    } else {
        layer_agrees(kind, input, output)
    }
}

// Whether the case at a place is of a kind and the port agrees with it.
fn agrees_at(words: &[u32], at: usize, kind: u32) -> bool
    requires { case_end words.now at ≤ length words.now }
{
    let first = at + 3;
    let middle = first + frame::count(words[at + 1]);
    let end = middle + frame::count(words[at + 2]);
    words[at] == kind && agrees(kind, &words[first..middle], &words[middle..end])
}

pub fn agreed(words: &[u32], kind: u32) -> u32
    requires { IsWhole words.now }
    ensures { result ≤ get_or words.now 2 0 }
{
    let mut at = 3;
    let mut found = 0;
    for _i in 0..words[2] {
        if agrees_at(words, at, kind) {
            found += 1;
        }
        at += frame::size_of_case(words, at);
    }
    found
}
