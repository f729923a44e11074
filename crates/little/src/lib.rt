// Numbers of four bytes, the least byte first: the number at an index of a slice of bytes, as it is or as a signed one, and a number put there.
#![tactic(auto)]

ghost use Rattle.std.specs.Prelude.{◌≡◌, ◌+◌, ◌*◌, ◌≤◌, ◌<◌, length, get_or};
ghost use Rattle.std.proofs.lemmas.List.Edits.{sets};
ghost use Rattle.little.specs.Little.{four_of, numbers_in, unsigned_of, signed_in};

// The number of index i: its bytes begin at 4 * i.
pub fn number_at(bytes: &[u8], i: usize) -> u32
    requires { 4 * i + 4 ≤ length bytes.now }
    ensures { result ≡ get_or (numbers_in bytes.now) i 0 }
{
    let at = 4 * i;
    u32::from_le_bytes([bytes[at], bytes[at + 1], bytes[at + 2], bytes[at + 3]])
}

// A number as a signed one: from 2^31 on it stands for itself less 2^32.
pub fn signed(number: u32) -> i32
    ensures { result ≡ signed_in number }
{
    number.cast_signed()
}

// A signed number as the number that stands for it.
pub fn unsigned(signed: i32) -> u32
    ensures { result ≡ unsigned_of signed }
{
    signed.cast_unsigned()
}

pub fn put_number(bytes: &mut [u8], i: usize, number: u32)
    requires { 4 * i + 4 ≤ length bytes.old }
    ensures { bytes.new ≡ sets bytes.old (4 * i) (four_of number) }
{
    let at = 4 * i;
    bytes[at..at + 4].copy_from_slice(&number.to_le_bytes());
}
