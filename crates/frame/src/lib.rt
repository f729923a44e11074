// The frame of a file of vectors: its words, where its cases end, its checksum.
#![tactic(auto)]

ghost use Rattle.std.specs.Prelude.{◌≡◌, ◌+◌, ◌<◌, ◌≤◌, length, get_or};
ghost use Rattle.io.specs.Counts.{IsPrefixLen};
ghost use Rattle.frame.specs.Frame.{word_at, Words, sum_of, end_of, settled_of, frame_says, IsWhole, held_of};

const MAGIC: u32 = 1448364865;

const VERSION: u32 = 1;

// What is right or wrong with a file.
#[derive(Clone, Copy, Debug, PartialEq, Eq)]
pub enum Verdict {
    Whole,
    Short,
    Stranger,
    Version,
    Long,
    Damaged,
}

// A word as a number of words, and what holds of every word.
pub fn count(x: u32) -> usize
    ensures { (result ≡ x) × (result < 4294967296) }
{
    x as usize
}

// Four bytes, the lowest first.
fn word(bytes: &[u8], at: usize) -> u32
    requires { at + 4 ≤ length bytes.now }
    ensures { result ≡ word_at bytes.now at }
{
    u32::from(bytes[at])
        + 256 * u32::from(bytes[at + 1])
        + 65536 * u32::from(bytes[at + 2])
        + 16777216 * u32::from(bytes[at + 3])
}

// The words of a file, as many as there is room for.
pub fn words_of(bytes: &[u8], words: &mut [u32]) -> usize
    ensures words { Words bytes.now (length words.old) result words.new }
    ensures prefix_len { IsPrefixLen result words.new }
{
    let n = (bytes.len() / 4).min(words.len());
    for i in 0..n {
        words[i] = word(bytes, 4 * i);
    }
    n
}

fn checksum(words: &[u32]) -> u32
    ensures { result ≡ sum_of words.now }
{
    let mut sum: u64 = 2166136261;
    for word in words {
        sum = (sum * 16777619 + u64::from(*word)) % 4294967296;
    }
    sum as u32
}

// The words of a case that begins at a place: its three numbers, then what they say.
pub fn size_of_case(words: &[u32], at: usize) -> usize
    requires { at + 3 ≤ length words.now }
    ensures { result ≡ 3 + get_or words.now (at + 1) 0 + get_or words.now (at + 2) 0 }
{
    3 + count(words[at + 1]) + count(words[at + 2])
}

// Where the cases end, if that is before the last word.
fn end_of_cases(words: &[u32]) -> Option<usize>
    requires { 4 ≤ length words.now }
    ensures { result ≡ end_of words.now }
{
    let last = words.len() - 1;
    let mut at = 3;
    for _i in 0..words[2] {
        if last - at < 3 {
            return None;
        }
        let size = size_of_case(words, at);
        if last - at < size {
            return None;
        }
        at += size;
    }
    Some(at)
}

// What is right or wrong with a file of these words.
pub fn judge(words: &[u32]) -> Verdict
    ensures { result ≡ frame_says words.now }
{
    if words.len() < 4 {
        return Verdict::Short;
    }
    if words[0] != MAGIC {
        return Verdict::Stranger;
    }
    if words[1] != VERSION {
        return Verdict::Version;
    }
    match end_of_cases(words) {
        None => Verdict::Short,
        Some(end) => settled(words, end),
    }
}

fn settled(words: &[u32], end: usize) -> Verdict
    requires { 4 ≤ length words.now }
    ensures { result ≡ settled_of words.now end }
{
    let last = words.len() - 1;
    if end < last {
        return Verdict::Long;
    }
    let sum = checksum(&words[..last]);
    if sum == words[last] {
        Verdict::Whole
    } else {
        Verdict::Damaged
    }
}

// How many cases of a kind a whole file holds.
pub fn held(words: &[u32], kind: u32) -> u32
    requires { IsWhole words.now }
    ensures { result ≡ held_of words.now kind }
{
    let mut at = 3;
    let mut found = 0;
    for _i in 0..words[2] {
        if words[at] == kind {
            found += 1;
        }
        at += size_of_case(words, at);
    }
    found
}
