//! Laws of the ownership machine and of the rule of shuffle queues.
ghost use Rattle.std.specs.Prelude.{◌≡◌, ◌≢◌, ℕ, ◌<◌, List, [], ◌∷◌, length};
ghost use Rattle.zy_shuffle.specs.Ownership.{Owners, no_requests, happens, IsSound, Runs, idle};
ghost use Rattle.zy_shuffle.specs.declared.ring.view.Event.{Event};
ghost use Rattle.zy_shuffle.specs.ShuffleRule.{RingState, ShuffleRule};
ghost use Rattle.core_laws.specs.OnePlace.{IsBounded, HasOneHand, IsOnceQueued, HandsApart, QueueApart, IsOpen};
ghost use Rattle.core_laws.specs.OnePlace.{NoneIsLost};
ghost use Rattle.core_laws.specs.OneStep.{Ruled, run_of, owners_of, KnowsHeld, HaveNoEvents, IsNoEvent, IsEvent};
ghost use Rattle.core_laws.specs.OneStep.{GrowsBy, LeadsBy, IsGiven, IsJoined, AreEvents, GrowsByAll, LeadsByAll};
ghost use Rattle.core_laws.specs.OneStep.{HasOneRequest, IsPublication, ArrivesIdle, WasPublished, BecomesReady};
ghost use Rattle.core_laws.specs.OneStep.{idling_of};
ghost use Rattle.zy_shuffle.specs.Run.{was_idle, was_held};
ghost use Rattle.zy_shuffle.specs.declared.ring.view.Event.TheVariants.{Arrive, Settle};

use zy_shuffle::Marked;

/// Each event leads from a sound state to a sound state.
#[tactic(auto, using(zy_shuffle::proofs::OwnerLemmas::keeps_sound))]
pub fn each_event_keeps_owners_sound()
    ensures value { (home : ℕ) (s t : Owners) (e : Event) → IsSound s → happens home s e t → IsSound t }
{}

/// Every state that a run reaches from the start is sound.
#[tactic(auto, using(zy_shuffle::proofs::OwnerLemmas::runs_sound))]
pub fn runs_reach_sound_states()
    ensures value { (home : ℕ) (t : Owners) (events : List Event) → Runs home no_requests events t → IsSound t }
{}

/// A connection with an unfinished request is never idle: it is in the queue, once, or busy at its one place.
#[tactic(auto, using(crate::proofs::OwnerRunLemmas::not_idle))]
pub fn unfinished_requests_are_not_idle()
    ensures value { (s : Owners) (c : ℕ) → IsSound s → s.finished c < s.arrived c → s.places c ≢ idle }
{}

/// The head is at most the tail, and the tail is at most the head plus the number of places.
pub fn the_queue_is_bounded<T: Marked>()
    ensures value { (s : RingState T) (r : ShuffleRule T.mark T.label s) → IsBounded r.head r.tail (length s.homes) }
{}

/// No place is in the hands of two seats.
pub fn no_place_is_in_two_hands<T: Marked>()
    ensures value { (s : RingState T) → ShuffleRule T.mark T.label s → HasOneHand s }
{}

/// No place is in the queue twice.
pub fn no_place_is_twice_in_the_queue<T: Marked>()
    ensures value { (s : RingState T) (r : ShuffleRule T.mark T.label s) → IsOnceQueued s r.head r.tail }
{}

/// A place in a hand is neither in the queue nor at its doorbell, and a place in the queue is not
/// at its doorbell.
pub fn no_place_is_at_two_places<T: Marked>()
    ensures hand { (s : RingState T) (r : ShuffleRule T.mark T.label s) → HandsApart s r.head r.tail }
    ensures queue { (s : RingState T) (r : ShuffleRule T.mark T.label s) → QueueApart s r.head r.tail }
{}

/// No place of an open ring is lost: each is in the hand of a seat, in the queue, or at its doorbell.
pub fn no_place_is_lost<T: Marked>()
    ensures value { (s : RingState T) (r : ShuffleRule T.mark T.label s) → IsOpen s → NoneIsLost s r.head r.tail }
{}

/// The state that the table shows is one that a run of the ownership machine reaches, and so a
/// sound one.
pub fn the_table_shows_a_sound_state<T: Marked>()
    ensures value { (s : RingState T) (r : ShuffleRule T.mark T.label s) → IsSound r.follows.owners }
{}

/// The views of a ring determine the run that its table follows, and the state that it shows.
pub fn the_views_know_one_run<T: Marked>()
    ensures run { (s : RingState T) (r q : ShuffleRule T.mark T.label s) → r.follows.events ≡ q.follows.events }
    ensures state { (s : RingState T) (r q : ShuffleRule T.mark T.label s) → r.follows.owners ≡ q.follows.owners }
{}

/// As long as no view has an event, the run has none.
pub fn the_first_run_is_empty<T: Marked>()
    ensures value { (s : Ruled T.mark T.label) → HaveNoEvents s → run_of s ≡ [] }
{}

/// A step in which no event was made leaves the run and the state of the machine as they were.
pub fn a_step_without_an_event_leaves_the_machine<T: Marked>()
    ensures run { (s t : Ruled T.mark T.label) (id : ℕ) → IsNoEvent id s t → run_of t ≡ run_of s }
    ensures state { (s t : Ruled T.mark T.label) (id : ℕ) → IsNoEvent id s t → owners_of t ≡ owners_of s }
{}

/// A step in which a seat made an event is this event: the run grows only by it, and it leads from
/// the state that the table showed to the one that it shows.
pub fn a_step_with_an_event_is_that_event<T: Marked>()
    ensures run { (s t : Ruled T.mark T.label) (id : ℕ) (e : ℕ → Event) → IsEvent id e s t → GrowsBy (e id) s t }
    ensures state { (s t : Ruled T.mark T.label) (id : ℕ) (e : ℕ → Event) → IsEvent id e s t → LeadsBy (e id) s t }
{}

/// A step in which a seat made several events is these events: the run grows only by them, in their
/// order, and they lead from the state that the table showed to the one that it shows.
pub fn a_step_with_events_is_these_events<T: Marked>()
    ensures run { (s t : Ruled T.mark T.label) (id : ℕ) (acts : ℕ → List Event) → AreEvents id acts s t
        → GrowsByAll (acts id) s t }
    ensures state { (s t : Ruled T.mark T.label) (id : ℕ) (acts : ℕ → List Event) → AreEvents id acts s t
        → LeadsByAll (acts id) s t }
{}

/// A publication of a connection that was idle is its arrival: the run grows by the events with which
/// it became idle, if it was ever published, and by the arrival of one request while it is idle.
pub fn a_publication_of_an_idle_connection_is_its_arrival<T: Marked>()
    ensures run { (s t : Ruled T.mark T.label) (place : ℕ) → IsPublication was_idle place s t
        → GrowsByAll (Arrive place 1 ∷ idling_of place s) s t }
    ensures state { (s t : Ruled T.mark T.label) (place : ℕ) → place < length s.0.homes
        → IsPublication was_idle place s t → ArrivesIdle place s t }
{}

/// A publication of a connection that was held settles it, if it was published before: the home held
/// it, and then it is ready.
pub fn a_publication_of_a_held_connection_settles_it<T: Marked>()
    ensures run { (s t : Ruled T.mark T.label) (place : ℕ) → WasPublished place s
        → IsPublication was_held place s t → GrowsBy (Settle place) s t }
    ensures state { (s t : Ruled T.mark T.label) (place : ℕ) → place < length s.0.homes → WasPublished place s
        → IsPublication was_held place s t → BecomesReady place s t }
{}

/// A connection that is not idle has one unfinished request.
pub fn a_busy_connection_has_one_request<T: Marked>()
    ensures value { (s : Ruled T.mark T.label) (place : ℕ) → place < length s.0.homes → HasOneRequest place s }
{}

/// Giving a pass, or joining one, is no event.
pub fn giving_or_joining_a_pass_is_no_event<T: Marked>()
    ensures given { (s t : Ruled T.mark T.label) (id : ℕ) → IsGiven id s t → run_of t ≡ run_of s }
    ensures joined { (s t : Ruled T.mark T.label) (id : ℕ) → IsJoined id s t → run_of t ≡ run_of s }
{}

/// What a pass knows of a connection that it holds, by the run that it knows, still holds: the pass
/// holds it, the same number of its requests is finished, and no fewer have arrived.
pub fn what_a_pass_knows_of_its_hand_stays<T: Marked>()
    ensures value { (s : Ruled T.mark T.label) (id c : ℕ) → KnowsHeld id c s }
{}
