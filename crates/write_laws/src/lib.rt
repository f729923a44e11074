// Laws on the contract of `write`, and one function that does nothing: what its contract says of a lent slice holds of every one.
#![tactic(auto)]

ghost use Rattle.write_laws.specs.Floats.{Floats};

fn nothing() {}

// Every slice of f32 that can be lent holds numbers of f32.
pub fn lend(numbers: &[f32])
    ensures { Floats numbers.now }
{
    nothing();
}
