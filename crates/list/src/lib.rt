// The value list: signed values, and the limit.
#![tactic(auto)]

ghost use Rattle.std.specs.Prelude.{◌≡◌};
ghost use Rattle.list.specs.List.{unpack_signed, pack_signed, limit_of};

pub fn unpack_signed(unsigned: u32) -> i32
    ensures { result ≡ unpack_signed unsigned }
{
    let half = (unsigned / 2) as i32;
    if unsigned % 2 == 0 { half } else { -1 - half }
}

pub fn pack_signed(signed: i32) -> u32
    ensures { result ≡ pack_signed signed }
{
    if signed < 0 {
        let m = -1 - signed;
        2 * (m as u32) + 1
    } else {
        2 * (signed as u32)
    }
}

// L of the list: at most the configured limit, and at most half the pixels.
pub fn limit(configured: u32, pixels: u32) -> u32
    ensures { result ≡ limit_of configured pixels }
{
    configured.min(pixels / 2)
}
