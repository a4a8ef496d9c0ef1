ghost use Rattle.std.specs.Prelude.{◌≡◌};
ghost use Rattle.runs.specs.Values.{Values};

// A kind of value, by what its values mean.
pub trait ValueKind {
    ghost values: { Values Self };

    // Two values mean the same. Not `PartialEq`: a host's kind may hold more than it means.
    fn same(&self, other: &Self) -> bool
        ensures { result ≡ values.same (values.meaning self.now) (values.meaning other.now) };

    // The value may be proposed and forged.
    fn fit(&self) -> bool
        ensures { result ≡ values.fit (values.meaning self.now) };

    // Two values make the same claim.
    fn same_claim(&self, other: &Self) -> bool
        ensures { result ≡ values.same_claim (values.claim (values.meaning self.now)) (values.claim (values.meaning other.now)) };

    fn account(&self) -> u16
        ensures { result ≡ values.account (values.meaning self.now) };
}
