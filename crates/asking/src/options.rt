// The words that stand before a command: whether progress is told, the precision, what is hidden and for which desk, by which edition of the profile, and which edition a trace file holds.
ghost use Rattle.std.specs.Prelude.{◌+◌, ◌≤◌, IfSome};

use std::rt::Env;

// `at` is the argument of the next word, `hide` that with the numbers of the hidden traces; `profile` and `edition` are editions, that of the profile and that of a trace file, each where one is asked for.
#[derive(Clone, Copy)]
pub struct Options {
    pub at: u8,
    pub progress: bool,
    pub high: bool,
    pub hide: Option<u8>,
    pub desk: u32,
    pub profile: Option<u32>,
    pub edition: Option<u32>,
}

// An edition that is no number, or 0, is none that there is.
pub fn edition_at(rt: &impl Env, i: usize) -> u32
    ensures { 1 ≤ result }
{
    match arguments::argument(rt, i) {
        Some(edition) if 0 < edition => edition,
        _ => 3,
    }
}

// What the next word adds, where it is an option; nothing is asked for where one stands twice that may stand once.
fn with_word(rt: &impl Env, o: Options) -> Option<Options>
    requires { o.at ≤ 40 }
    ensures { IfSome result (λ with. with.at ≤ o.at + 2) }
{
    let at = usize::from(o.at);
    if arguments::is_argument(rt, at, b"--progress") {
        return Some(Options {
            at: o.at + 1,
            progress: true,
            ..o
        });
    }
    if arguments::is_argument(rt, at, b"--high") {
        return (!o.high).then_some(Options {
            at: o.at + 1,
            high: true,
            ..o
        });
    }
    if arguments::is_argument(rt, at, b"--hide") {
        return o.hide.is_none().then_some(Options {
            at: o.at + 2,
            hide: Some(o.at + 1),
            ..o
        });
    }
    if arguments::is_argument(rt, at, b"--desk") {
        return Some(Options {
            at: o.at + 2,
            desk: arguments::argument(rt, at + 1).unwrap_or(2),
            ..o
        });
    }
    if arguments::is_argument(rt, at, b"--profile") {
        return o.profile.is_none().then_some(Options {
            at: o.at + 2,
            profile: Some(edition_at(rt, at + 1)),
            ..o
        });
    }
    if arguments::is_argument(rt, at, b"--edition") {
        return o.edition.is_none().then_some(Options {
            at: o.at + 2,
            edition: Some(edition_at(rt, at + 1)),
            ..o
        });
    }
    Some(o)
}

// The options that stand from argument `at` on, unless one stands twice. Progress is told where it is asked for, or where standard error is a terminal.
pub fn options_from(rt: &impl Env, at: u8, terminal: bool) -> Option<Options>
    requires { at ≤ 2 }
    ensures { IfSome result (λ options. options.at ≤ 20) }
{
    let mut options = Options {
        at,
        progress: terminal,
        high: false,
        hide: None,
        desk: 0,
        profile: None,
        edition: None,
    };
    for _i in 0..6u8 {
        options = with_word(rt, options)?;
    }
    Some(options)
}
