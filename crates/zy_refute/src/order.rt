//! Which calls surely come before others.
ghost use Rattle.std.specs.Prelude.{◌≡◌};
ghost use Rattle.zy_refute.specs.Observed as Orders;

use crate::observed::Observed;
use mc_allows::CallName;

/// Checks whether a call is surely before another one: it had ended when that was sent, or it is
/// earlier in the same session.
pub fn is_surely_before(one: &Observed, other: &Observed) -> bool
    ensures value { result ≡ Orders.is_surely_before one.now other.now }
{
    !is_same_name(&one.name, &other.name)
        && (had_ended(one.ended, other.sent) || is_earlier_in_session(&one.name, &other.name))
}

fn had_ended(ended: Option<u64>, sent: u64) -> bool
    ensures value { result ≡ Orders.had_ended ended sent }
{
    match ended {
        Some(ended) => ended < sent,
        None => false,
    }
}

fn is_same_name(one: &CallName, other: &CallName) -> bool
    ensures value { result ≡ Orders.is_same_name one.now other.now }
{
    is_one_session(one, other) && (one.index == other.index && one.part == other.part)
}

fn is_one_session(one: &CallName, other: &CallName) -> bool
    ensures value { result ≡ Orders.is_one_session one.now other.now }
{
    one.conn == other.conn && one.session == other.session
}

fn is_earlier_in_session(one: &CallName, other: &CallName) -> bool
    ensures value { result ≡ Orders.is_earlier_in_session one.now other.now }
{
    is_one_session(one, other)
        && (one.index < other.index || (one.index == other.index && one.part < other.part))
}
