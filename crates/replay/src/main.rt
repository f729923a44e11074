// Reads the stored answers of the oracle from the files beside it, checks each file's frame, and says how many cases of each kind it holds
// and whether the port agrees with them.
#![tactic(auto)]

mod agree;
mod case_names;
mod lists;
mod number_leaves;

ghost use Rattle.frame.specs.Frame.{IsWhole};

use frame::Verdict;
use std::fs::File;
use std::os::fd::AsRawFd;
use std::rt::Files;

const BYTES: usize = 524288;

const WORDS: usize = 131072;

// How many cases of a kind a whole file holds, if any, and what the port makes of them.
fn report_kind(rt: &impl Print, words: &[u32], kind: u32)
    requires { IsWhole words.now }
{
    let held = frame::held(words, kind);
    if held == 0 {
        return;
    }
    let name = case_names::name_of(kind);
    let _ = print!(rt; "  {name:<17} {held} cases");
    let agreed = agree::agreed(words, kind);
    let _ = if !agree::compared(kind) {
        println!(rt; ", not compared yet")
    } else if agreed == held {
        println!(rt; ", all agree")
    } else {
        println!(rt; ", THE PORT AGREES WITH {agreed}")
    };
}

fn what_of(verdict: Verdict) -> &'static str {
    match verdict {
        Verdict::Whole => "whole",
        Verdict::Short => "cut short",
        Verdict::Stranger => "no file of vectors",
        Verdict::Version => "of another version",
        Verdict::Long => "longer than its cases",
        Verdict::Damaged => "damaged",
    }
}

fn report_words(rt: &impl Print, path: &str, words: &[u32]) {
    let verdict = frame::judge(words);
    let what = what_of(verdict);
    let _ = println!(rt; "{path}: {what}");
    if let Verdict::Whole = verdict {
        for kind in 0..case_names::KINDS {
            report_kind(rt, words, kind);
        }
    }
}

fn report_bytes(rt: &impl Print, path: &str, bytes: &[u8]) {
    if bytes.len() == BYTES {
        let _ = println!(rt; "{path}: longer than this program can hold");
        return;
    }
    if bytes.len() % 4 != 0 {
        let _ = println!(rt; "{path}: cut short");
        return;
    }
    let mut words = [0u32; WORDS];
    let n = frame::words_of(bytes, &mut words);
    report_words(rt, path, &words[..n]);
}

// A file whose bytes go to a room. It is lent as an array: its length is then known by its type, and no proof counts its cells.
fn report_in(rt: &impl Print, path: &str, fd: i32, bytes: &mut [u8; BYTES]) {
    let n = io::read_full(fd, bytes);
    report_bytes(rt, path, &bytes[..n]);
}

fn report<R: Files<File = File> + Print>(rt: &R, path: &str) {
    let Ok(file) = std::fs::open(rt, path) else {
        let _ = println!(rt; "{path}: it cannot be opened");
        return;
    };
    let mut bytes = [0u8; BYTES];
    report_in(rt, path, file.as_raw_fd(), &mut bytes);
}

fn main(rt: HostRuntime) {
    for path in [
        "numbers.words",
        "list.words",
        "splines.words",
        "segments.words",
        "tables.words",
    ]
    .iter()
    {
        report(&rt, path);
    }
}
