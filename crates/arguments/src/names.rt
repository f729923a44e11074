// What a file's name says.
use crate::words;
use std::rt::Env;

// What a file's name says of its kind: a picture of either kind, a trace file, a line drawing, or another.
#[derive(Clone, Copy, Debug, PartialEq, Eq)]
pub enum Kind {
    Tones,
    Floats,
    Trace,
    Drawing,
    Other,
}

pub fn kind_of(path: &[u8]) -> Kind
    ensures { Unit {0} }
{
    if path.ends_with(b".ppm") {
        Kind::Tones
    } else if path.ends_with(b".pfm") {
        Kind::Floats
    } else if path.ends_with(b".trace") {
        Kind::Trace
    } else if path.ends_with(b".svg") {
        Kind::Drawing
    } else {
        Kind::Other
    }
}

// What the name that argument i is says.
pub fn kind_at(rt: &impl Env, i: usize) -> Kind
    ensures { Unit {0} }
{
    let mut held = io::buffer();
    let n = words::fill(rt, i, &mut held);
    kind_of(&held[..n])
}
