// The worked examples, proved against the definitions.
#![tactic(auto)]

ghost use Rattle.std.specs.Prelude.{◌≡◌};
ghost use Rattle.worked.specs.Worked.{WorkedExamples};

// How many worked examples there are.
pub fn examples() -> u32
    ensures value { result ≡ 7 }
    ensures proved { WorkedExamples }
{
    7
}
