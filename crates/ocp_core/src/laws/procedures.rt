//! One procedure by itself, over every list of events. The functions do nothing when they run:
//! their contracts are the laws.
ghost use Rattle.ocp_core.specs.Alone.{IsFactored};
ghost use Rattle.ocp_core.specs.Possible.{ImagesStay, OwnEventsArePossible, StartsAreOfOctets, FaultsOfMachine, FaultsAreAnswered};
ghost use Rattle.ocp_core.specs.Pool.{PoolIsOfOperations, CallsAreAnswered, CallsAnswerWords, FaultsOutside};
ghost use Rattle.ocp_core.specs.Mailbox.{WordsComeInOrder, NoneIsLeft};
ghost use Rattle.ocp_core.specs.Exchange.{MayBeExchanged, MayBeExchangedInLists};

/// A procedure's machine is the one that its image and its own events make: its starts, its
/// instructions, and the answers to its engine calls.
#[tactic(auto, using(crate::proofs::Factorisation::factorisation))]
pub fn machines_follow_from_their_own_events()
    ensures { IsFactored }
{}

/// A procedure's image is that of its last load, and its own events since then are events that this
/// image brings about: each start has at most 256 octets of arguments, each instruction is the one
/// at the machine's place, and so is each engine call, which is answered as its number is.
pub fn own_events_are_those_of_the_image()
    ensures image { ImagesStay }
    ensures events { OwnEventsArePossible }
    ensures octets { StartsAreOfOctets }
{}

/// An instruction event is fault 1, 2 or 3 exactly if the image's instruction at the machine's
/// place can't be done. An answer with the number of a fault is that of such an event.
pub fn the_machine_faults_by_its_image()
    ensures fault { FaultsOfMachine }
    ensures answer { FaultsAreAnswered }
{}

/// The pool is what the operations of all procedures and the writes from outside make, in order.
#[tactic(auto, using(crate::proofs::Pools::pool_is))]
pub fn the_pool_follows_from_its_operations()
    ensures { PoolIsOfOperations }
{}

/// An engine call is answered by the table of engine calls, with words of the pool that the
/// operations before it left. It is fault 4 exactly if it names a word that this pool does not
/// have.
pub fn engine_calls_answer_from_the_pool()
    ensures table { CallsAreAnswered }
    ensures words { CallsAnswerWords }
    ensures fault { FaultsOutside }
{}

/// A procedure takes the words that it was sent since its last start in the order in which they
/// were sent, and finds none exactly if it has taken all of them.
pub fn words_are_taken_in_the_order_sent()
    ensures word { WordsComeInOrder }
    ensures none { NoneIsLeft }
{}

/// Two instructions of two procedures, one after the other, may be exchanged if at most one of them
/// is an engine call, an end or a fault: each event keeps its answer, and the worlds left are the
/// same, but for the order of the trace records of these two.
#[tactic(auto, using(crate::proofs::Exchanges::may_be_exchanged, crate::proofs::Exchanges::may_be_exchanged_in_lists))]
pub fn instructions_of_two_procedures_change_places()
    ensures adjacent { MayBeExchanged }
    ensures list { MayBeExchangedInLists }
{}
