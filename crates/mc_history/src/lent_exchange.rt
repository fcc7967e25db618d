//! Calls with their replies that are lent, or made from lent parts.
ghost use Rattle.std.specs.Prelude.{◌≡◌, IfOk};

use crate::entry_ref::{EntryRef, ExchangeRef};
use crate::exchange::Exchange;
use mc_calls::{Call, CallReply};
use std::marker::Model;
use zy_base::NoMemory;

/// The call of an entry with its reply. Contracts see it as the two.
#[derive(Drop)]
pub struct LentExchange<'a> {
    kept: Kept<'a>,
}

// Where the call and its reply are.
#[derive(Drop)]
enum Kept<'a> {
    // Where they were, whole.
    Lent(&'a Call, &'a CallReply),
    // Here, made from their parts.
    Made(Exchange),
}

impl<'a> Model for LentExchange<'a> {
    ghost use Rattle.mc_history.specs.declared.exchange.Exchange.{Exchange};
    ghost use Rattle.mc_history.specs.Lent.{exchange_in};

    ghost Value = { Exchange };

    ghost view = { λ e. exchange_in e.kept };
}

impl<'a> LentExchange<'a> {
    /// Returns the call.
    pub fn call(&self) -> &Call
        ensures value { result.now ≡ self.now.call }
    {
        match &self.kept {
            Kept::Lent(call, _) => call,
            Kept::Made(made) => &made.call,
        }
    }

    /// Returns the reply.
    pub fn reply(&self) -> &CallReply
        ensures value { result.now ≡ self.now.reply }
    {
        match &self.kept {
            Kept::Lent(_, reply) => reply,
            Kept::Made(made) => &made.reply,
        }
    }
}

impl<'a> EntryRef<'a> {
    /// Returns the call and the reply. If they are kept whole, they are lent and nothing is copied;
    /// otherwise they are made of copied parts.
    pub fn exchange(&self) -> Result<LentExchange<'a>, NoMemory>
        ensures call { IfOk result (λ lent. lent.call ≡ self.now.call) }
        ensures reply { IfOk result (λ lent. lent.reply ≡ self.now.reply) }
    {
        if let ExchangeRef::Other(call, reply) = self.exchange {
            return Ok(LentExchange {
                kept: Kept::Lent(call, reply),
            });
        }
        match self.copied() {
            Ok(made) => Ok(LentExchange {
                kept: Kept::Made(made),
            }),
            Err(refused) => Err(refused),
        }
    }
}
