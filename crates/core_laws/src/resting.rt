//! The law of tokens.
ghost use Rattle.std.specs.Prelude.{◌≤◌, ◌<◌, Bool, true, List};
ghost use Rattle.zy_park.specs.declared.view.View.{View};
ghost use Rattle.zy_park.specs.Token.{rung_in, taken_in, TokenRule};

/// The seats at a token never took it more often than they put it, so a core that rested was rung.
#[tactic(auto, using(crate::proofs::RestTokenLemmas::taken_at_most, crate::proofs::RestTokenLemmas::taken_below))]
pub fn no_more_tokens_are_taken_than_were_put()
    ensures most { (token : Bool) (vs : List View) → TokenRule token vs → taken_in vs ≤ rung_in vs }
    ensures there { (vs : List View) → TokenRule true vs → taken_in vs < rung_in vs }
{}
