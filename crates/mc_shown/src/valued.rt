//! The value that the answer to `mg` shows.
ghost use Rattle.std.specs.Prelude.{◌≡◌, IfOk, IfSome};
ghost use Rattle.mc_allows.specs.Needs.{Suits};
ghost use Rattle.mc_allows.specs.declared.said.Said.{Said};
ghost use Rattle.mc_allows.specs.declared.shown.Shown.TheVariants as Shows;
ghost use Rattle.mc_shown.specs.Marked.{IsMetaText, EndsWithValue};

use crate::marked::marked_shown;
use mc_allows::Shown;
use mc_answered::{line_length, text_from};
use mc_kind::is_word;
use mc_parse::Meta;
use std::alloc::Global;
use zy_base::{Blob, NoMemory};

/// Returns what the answer to a meta command shows: a hit with its value, if it shows one. May answer `NoMemory`.
pub(crate) fn meta_shown(alloc: Global, meta: &Meta, text: &[u8]) -> Result<Shown, NoMemory>
    ensures value { IfOk result (λ shown. (said : Said) → IsMetaText meta.now text.now said → Suits shown said) }
{
    let Meta::Get { key, .. } = meta else {
        return Ok(coded_shown(meta, text));
    };
    if !text.starts_with(b"VA ") || !is_word(key.bytes()) {
        return Ok(coded_shown(meta, text));
    }
    match value_in(text) {
        Some(value) => hit_with(alloc, value),
        None => Ok(coded_shown(meta, text)),
    }
}

// Returns what an answer shows by the code with which it begins.
fn coded_shown(meta: &Meta, text: &[u8]) -> Shown
    ensures value { (said : Said) → IsMetaText meta.now text.now said → Suits result said }
{
    marked_shown(meta, text)
}

// Returns the value after the first line, before the end of its own.
fn value_in(text: &[u8]) -> Option<&[u8]>
    ensures value { IfSome result (λ value. EndsWithValue text.now value.now) }
{
    let Some(length) = line_length(text) else {
        return None;
    };
    text_from(text, length).strip_suffix(b"\r\n")
}

// Makes what shows a hit with this value. May answer `NoMemory`.
fn hit_with(alloc: Global, value: &[u8]) -> Result<Shown, NoMemory>
    ensures value { IfOk result (λ shown. shown ≡ Shows.HitWith value.now) }
{
    let value = Blob::copy_of(alloc, value)?;
    Ok(Shown::HitWith { value })
}
