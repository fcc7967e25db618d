//! The keys of a retrieval.
ghost use Rattle.std.specs.Prelude.{◌≡◌, ◌≢◌, ℕ, Bool, true, false, List, [], ◌∷◌, IfOk, IfSome, IfNone};
ghost use Rattle.std.specs.Prelude.{◌<◌, vec_len, vec_capacity};
ghost use Rattle.zy_base.specs.Rest.{IsRestOf};
ghost use Rattle.mc_parse.specs.declared.command.Command.TheVariants.{Get};
ghost use Rattle.mc_parse.specs.declared.need.Need.{Need};
ghost use Rattle.mc_parse.specs.Words.{words};
ghost use Rattle.mc_parse.specs.Need.{need};
ghost use Rattle.mc_parse.specs.Form.{is_key, form_after};
ghost use Rattle.mc_parse.specs.Parsed.{IsParsed};
ghost use Rattle.mc_parse.specs.Meaning.{command_for, line_command};
ghost use Rattle.mc_parse.specs.Calls.{calls_of, get_calls};

use crate::command::{Command, Keys};
use crate::name::Name;
use crate::parse::word_in;
use crate::parsed::Parsed;
use crate::word::next_word;
use mc_meta::is_key;
use zy_base::{Blob, NoMemory};

/// Returns the keys of a `get` or a `gets`, whose calls are the gets of these keys; `None` for any
/// other command.
pub fn got_keys(command: &Command) -> Option<&[Blob]>
    ensures some { IfSome result (λ keys. (shards : ℕ) → calls_of shards command.now ≡ get_calls shards keys.now) }
    ensures none { IfNone result ((keys : List (List ℕ)) (unique : Bool) → command.now ≢ Get keys unique) }
{
    match command {
        Command::Get { keys, .. } => Some(keys.items()),
        _ => None,
    }
}

/// A retrieval of one key: the key, and whether its unique is asked for.
#[derive(Drop)]
pub struct OneKey {
    pub key: Blob,
    pub unique: bool,
}

impl OneKey {
    /// Makes its command, with a list that has room for the key. Takes no memory.
    pub fn into_command(self, mut room: Vec<Blob>) -> Command
        requires empty { room.items ≡ [] }
        requires room { vec_len room < vec_capacity room }
        ensures value { result ≡ Get (self.key ∷ []) self.unique }
    {
        let OneKey { key, unique } = self;
        room.push_reserved(key);
        Command::Get {
            keys: Keys::from_vec(room),
            unique,
        }
    }
}

/// Returns the key of a line that is a retrieval of one key, from what was read of the line; `None`
/// for any other line that needs nothing. The key is a part of the line.
#[tactic(auto, unfolding(crate::specs::Meaning::line_command, crate::specs::Parsed::IsParsed), using(zy_base::proofs::RestLemmas::rest_after))]
pub fn one_key(line: &Blob, parsed: &Parsed) -> Result<Option<OneKey>, NoMemory>
    requires parsed { IsParsed line.now parsed.now }
    requires alone { need line.now ≡ Need.Nothing }
    ensures some { IfOk result (λ found. IfSome found (λ one. line_command line.now
        ≡ Get (one.key ∷ []) one.unique)) }
    ensures none { IfOk result (λ found. IfNone found ((key : List ℕ) (unique : Bool)
        → line_command line.now ≢ Get (key ∷ []) unique)) }
{
    match parsed.name {
        Some(name) => named_key(line, name, parsed.text(line.bytes())),
        None => Ok(None),
    }
}

// Returns the key of a line with this name, if it is a retrieval of one key.
fn named_key(line: &Blob, name: Name, text: &[u8]) -> Result<Option<OneKey>, NoMemory>
    requires rest { IsRestOf text.now line.now }
    ensures some { IfOk result (λ found. IfSome found (λ one. command_for (form_after name (words text.now))
        ≡ Get (one.key ∷ []) one.unique)) }
    ensures none { IfOk result (λ found. IfNone found ((key : List ℕ) (unique : Bool)
        → command_for (form_after name (words text.now)) ≢ Get (key ∷ []) unique)) }
{
    match name {
        Name::Get { unique } => match only_key(line, text)? {
            Some(key) => Ok(Some(OneKey { key, unique })),
            None => Ok(None),
        },
        _ => Ok(None),
    }
}

// Returns the only word of the text that ends a line, if it can be a key.
#[tactic(auto, using(crate::proofs::ParsedLemmas::parts_rest))]
fn only_key(line: &Blob, text: &[u8]) -> Result<Option<Blob>, NoMemory>
    requires rest { IsRestOf text.now line.now }
    ensures some { IfOk result (λ found. IfSome found (λ key. (words text.now ≡ key ∷ [])
        × (is_key key ≡ true))) }
    ensures none { IfOk result (λ found. IfNone found ((key : List ℕ)
        → words text.now ≡ key ∷ [] → is_key key ≡ false)) }
{
    let Some(split) = next_word(text) else {
        return Ok(None);
    };
    if let Some(_) = next_word(split.rest) {
        return Ok(None);
    }
    if !is_key(split.word) {
        return Ok(None);
    }
    let key = word_in(line, split)?;
    Ok(Some(key))
}
