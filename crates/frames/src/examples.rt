// Worked examples, on one contract.
ghost use Rattle.frames.specs.Examples.{WorkedExamples};
ghost use Rattle.frames.specs.MoreExamples.{MoreExamples};

// That the definitions give the worked examples; the answer itself says nothing.
#[tactic(auto, unfolding(identities::specs::Identities::imsi_when, identities::specs::Identities::signature_when, identities::specs::Identities::tmsi_when, vocabulary::specs::Places::plmn_when, vocabulary::specs::Places::lai_when, crate::specs::Elements::walk))]
pub fn worked_examples_hold() -> bool
    ensures examples { WorkedExamples }
    ensures more { MoreExamples }
{
    true
}
