// Laws on the contracts of `trace_read` and `trace_write`, and functions that do nothing: what their contracts say of a lent slice holds of every one.
#![tactic(auto)]

ghost use Rattle.std.specs.Prelude.{◌<◌, ◌^◌};
ghost use Rattle.std.specs.Int.Signed.{mag};
ghost use Rattle.little.specs.Little.{Bytes, Numbers, Signeds};

fn nothing() {}

// Every slice of bytes that can be lent holds numbers below 256.
pub fn lend_bytes(bytes: &[u8])
    ensures { Bytes bytes.now }
{
    nothing();
}

// Every slice of u32 that can be lent holds numbers below 2^32.
pub fn lend_numbers(numbers: &[u32])
    ensures { Numbers numbers.now }
{
    nothing();
}

// Every i32 is a signed number of 32 bits.
pub fn take_signed(number: i32)
    ensures { mag number < 2 ^ 31 }
{
    nothing();
}

// And so is every number of a slice of i32 that can be lent.
pub fn lend_signed(numbers: &[i32])
    ensures { Signeds numbers.now }
{
    for (i, number) in numbers.iter().enumerate() {
        take_signed(*number);
    }
}
