//! Stops and suspends that became pending, over every list of events, each by the number of its
//! event. The functions do nothing when they run: their contracts are the laws.
ghost use Rattle.ocp_core.specs.Outbox.{EachStandsOnce, IsReportedOnceAtMost, EachGivesOneReport, PlacesSuffice};

/// Each stop or suspend that became pending is in exactly one of four states, once: it is pending,
/// its completion waits in the outbox, a drain has sent the report of its completion, or the end of
/// a step matched it while its completion flag was off. At most 64 of them are pending or wait.
#[tactic(auto, using(crate::proofs::Completions::each_stands_once, crate::proofs::Completions::places_suffice))]
pub fn each_completion_stands_in_one_place()
    ensures place { EachStandsOnce }
    ensures room { PlacesSuffice }
{}

/// At most one completion report is sent for a stop or suspend that became pending. Each completion
/// that waits gives one report, whenever a drain comes.
pub fn completions_are_reported_once_at_most()
    ensures report { IsReportedOnceAtMost }
    ensures drain { EachGivesOneReport }
{}
