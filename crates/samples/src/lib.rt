#![tactic(auto)]

ghost use Rattle.std.specs.Prelude.{◌≡◌};
ghost use Rattle.samples.specs.Samples.{Samples, sample_total};

// How many worked samples stand in the table, each of them proved of the definitions. As `slot_theorems` of broadcast.
pub fn sample_count() -> u32
    ensures table { Samples }
    ensures total { result ≡ sample_total }
{
    12
}
