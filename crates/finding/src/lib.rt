// What stands where in a drawing.
#![tactic(auto)]

ghost use Rattle.std.specs.Prelude.{◌≡◌, ◌+◌, ◌≤◌, ◌<◌, IfSome, length, unwrap_or};
ghost use Rattle.finding.specs.Finding.{stands_at, FirstFrom};

// Whether a word stands at a place, byte by byte: of what every byte of a drawing is asked, std's `starts_with` takes a hundred steps before it compares.
fn stands(bytes: &[u8], at: usize, word: &[u8]) -> bool
    requires { at ≤ length bytes.now }
    ensures { result ≡ stands_at bytes.now at word.now }
{
    if bytes.len() - at < word.len() {
        return false;
    }
    for k in 0..word.len() {
        if bytes[at + k] != word[k] {
            return false;
        }
    }
    true
}

// The first place from one on where a word stands.
pub fn find(bytes: &[u8], from: usize, word: &[u8]) -> Option<usize>
    requires { from ≤ length bytes.now }
    ensures within { IfSome result (λ at. (from ≤ at) × (at < length bytes.now)) }
    ensures first { FirstFrom bytes.now from word.now (unwrap_or result (length bytes.now)) }
{
    for at in from..bytes.len() {
        if stands(bytes, at, word) {
            return Some(at);
        }
    }
    None
}

// Whether a name ends at a place: there is white space, or the end of its element.
fn name_ends(bytes: &[u8], at: usize) -> bool {
    match bytes.get(at) {
        None => true,
        Some(&b) => b == b'/' || b == b'>' || text::is_space(b),
    }
}

// Whether a polyline begins at a place.
fn is_line(bytes: &[u8], at: usize) -> bool
    requires { at ≤ length bytes.now }
{
    stands(bytes, at, b"<polyline") && name_ends(bytes, at + 9)
}

// The place behind what begins at one: the end of a comment, or the next byte.
fn after(bytes: &[u8], at: usize) -> usize
    requires { at < length bytes.now }
    ensures { (at < result) × (result ≤ length bytes.now) }
{
    if stands(bytes, at, b"<!--") {
        find(bytes, at + 1, b"-->").unwrap_or(bytes.len())
    } else {
        at + 1
    }
}

// Where the next polyline begins from a place on, but for those in comments. A comment is passed in one step, so the places form no range.
pub fn next_line(bytes: &[u8], from: usize) -> Option<usize>
    requires { from ≤ length bytes.now }
    ensures { IfSome result (λ at. (from ≤ at) × (at < length bytes.now)) }
{
    let mut at = from;
    while at < bytes.len() {
        if is_line(bytes, at) {
            return Some(at);
        }
        at = after(bytes, at);
    }
    None
}

// The mark within which the next byte stands, if it stands in one: one mark ends what the same mark began.
fn mark_after(mark: Option<u8>, b: u8) -> Option<u8> {
    match mark {
        Some(begun) => if b == begun { None } else { mark },
        None => if b == b'"' || b == b'\'' {
            Some(b)
        } else {
            None
        },
    }
}

// Where the element that begins at a place ends, by a `>` outside of quotation marks.
pub fn end_of(bytes: &[u8], from: usize) -> Option<usize>
    requires { from ≤ length bytes.now }
    ensures { IfSome result (λ at. (from ≤ at) × (at < length bytes.now)) }
{
    let mut mark = None;
    for at in from..bytes.len() {
        if mark.is_none() && bytes[at] == b'>' {
            return Some(at);
        }
        mark = mark_after(mark, bytes[at]);
    }
    None
}

// Whether this name of an attribute stands at a place, with its `="`, behind white space.
fn is_attribute(element: &[u8], at: usize, name: &[u8]) -> bool {
    0 < at && at < element.len() && text::is_space(element[at - 1]) && stands(element, at, name)
}

// Where the attribute of this name, with its `="`, stands in an element outside of quotation marks.
pub fn attribute(element: &[u8], name: &[u8]) -> Option<usize>
    ensures { IfSome result (λ at. at < length element.now) }
{
    let mut mark = None;
    for (at, &b) in element.iter().enumerate() {
        if mark.is_none() && is_attribute(element, at, name) {
            return Some(at);
        }
        mark = mark_after(mark, b);
    }
    None
}
