//! The answers of a session's commands, as far as they are known.
ghost use Rattle.std.specs.Prelude.{◌≡◌, Some, slice_get};
ghost use Rattle.mc_kind.specs.Cutting.{AreTexts};
ghost use Rattle.mc_parse.specs.declared.command.Command.{Command};
ghost use Rattle.zy_outputs.specs.Texts.{AreWithin, known_bytes, may_have_bytes, IsSureBelow};

use mc_kind::Text;

/// Returns the bytes of the answer to a command, or none if they are not known.
pub(crate) fn known_bytes<'a>(output: &'a [u8], texts: &[Text], index: usize) -> &'a [u8]
    requires within { AreWithin output.now texts.now }
    ensures value { result.now ≡ known_bytes output.now texts.now index }
{
    match text_at(texts, index) {
        Some(text) => &output[text.from..text.to],
        None => &[],
    }
}

/// Checks whether a command may be answered; `all` says that no command has an answer that is not known.
pub(crate) fn may_be_answered(texts: &[Text], all: bool, index: usize) -> bool
    ensures value { result ≡ may_have_bytes texts.now all index }
{
    match text_at(texts, index) {
        Some(text) => text.from < text.to,
        None => !all,
    }
}

/// Returns the number of commands up to the last one that is known to be answered.
pub(crate) fn sure_below(texts: &[Text]) -> usize
    ensures value { IsSureBelow texts.now result }
{
    let mut sure = 0;
    for index in 0..texts.len() {
        let text = texts[index];
        if text.from < text.to {
            sure = index + 1;
        }
    }
    sure
}

// Returns the text at an offset, if there is one.
fn text_at(texts: &[Text], index: usize) -> Option<Text>
    ensures value { result ≡ slice_get texts.now index }
{
    if index < texts.len() {
        Some(texts[index])
    } else {
        None
    }
}
