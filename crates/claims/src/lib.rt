// Claims about whole lists of calls, and those of document 02's requests, over the definitions that the code's contracts name. Each
// function does nothing: its contract is the claim, so that the check lists it. The statements stand in specs/, their proofs in
// proofs/. Assumes nothing.

#![tactic(auto)]

ghost use Rattle.std.specs.Prelude.{◌≡◌, true};
ghost use Rattle.lists.specs.Tests.{all_of};
ghost use Rattle.model.specs.Examples.{checks};
ghost use Rattle.claims.specs.ThirdDemand.{ThirdDemand};
ghost use Rattle.claims.specs.Witness.{Witness};
ghost use Rattle.claims.specs.RoundTrip.{RoundTrip};
ghost use Rattle.claims.specs.Sums.{FiguresAddUp, JoinsAddUp, Check2Exact};
ghost use Rattle.claims.specs.Struck.{HeightsLow, Struck, EveryAnswerKept};
ghost use Rattle.claims.specs.Document.{DocumentTableKept};
ghost use Rattle.claims.specs.FourthBlock.{FourthSchedule};

// Two units, one create event, two lists of calls whose counted events make one set: equal answers, defined from the set.
pub fn third_demand()
    ensures { ThirdDemand }
{}

// The premises of the third demand can be met, and then both units show a map with a cord.
#[tactic(auto, using(crate::proofs::Case::witness))]
pub fn premises_can_be_met()
    ensures { Witness }
{}

// A written bundle in a fresh unit gives the same events and, written again, the same bytes.
pub fn round_trip()
    ensures { RoundTrip }
{}

// New + repeats + refused of a bundle = its count.
#[tactic(auto, using(crate::proofs::Sums::figures_add_up))]
pub fn figures_add_up()
    ensures { FiguresAddUp }
{}

// Joins run = links standing + ended.
#[tactic(auto, using(crate::proofs::Sums::joins_add_up))]
pub fn joins_add_up()
    ensures { JoinsAddUp }
{}

// Check 2 passes what lists of calls leave, and nothing else.
#[tactic(auto, using(crate::proofs::Sums::check_2_exact))]
pub fn check_2_exact()
    ensures { Check2Exact }
{}

// No event held in a store that passes check 2 has a height above 255.
#[tactic(auto, using(crate::proofs::Struck::heights_low_lem))]
pub fn heights_low()
    ensures { HeightsLow }
{}

// No refusal has the number 11.
#[tactic(auto, using(event::specs::Answers::number_not_11))]
pub fn number_11_struck()
    ensures { Struck }
{}

// Order, verdict, map and write-out answer what they answered with a test for 11.
#[tactic(auto, using(crate::proofs::Struck::every_answer_kept))]
pub fn answers_kept()
    ensures { EveryAnswerKept }
{}

// Lent document 01's cord table, each call answers what the constant table makes it answer.
#[tactic(auto, using(crate::proofs::Document::document_table_kept))]
pub fn document_table_kept()
    ensures { DocumentTableKept }
{}

// The constant schedule of an event's fourth block has the words of FIPS 180-4.
pub fn fourth_schedule()
    ensures { FourthSchedule }
{}

// The drawn examples 1 to 9, in one list.
#[tactic(auto, using(model::proofs::Examples::examples))]
pub fn examples()
    ensures { all_of (λ passed. passed) checks ≡ true }
{}
