#![tactic(auto)]

ghost use Rattle.std.specs.Prelude.{◌≡◌, length};
ghost use Rattle.broadcast.specs.Theorems.{theorems, AllHold};

// How many theorems of one slot the table has; all of them hold. Crates `runs` and `samples` have a function of the same form
// for theorems of their own, which no table below them can name.
pub fn slot_theorems() -> u32
    ensures number { result ≡ length theorems }
    ensures hold { AllHold theorems }
{
    4
}
