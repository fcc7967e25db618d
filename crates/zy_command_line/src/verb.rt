//! The commands of the program, and the options that each takes.
ghost use Rattle.std.specs.Prelude.{◌≡◌, map};
ghost use Rattle.zy_command_line.specs.Request.{verb_named, reader_named, names_of};

/// A command of the program.
#[derive(Clone, Copy)]
pub(crate) enum Verb {
    Run,
    Check,
    Gen,
    SelfTest,
    Pcap,
    Report,
}

/// Returns the command that a word names.
pub(crate) fn verb_named(word: &[u8]) -> Option<Verb>
    ensures value { result ≡ verb_named word.now }
{
    match word {
        b"run" => Some(Verb::Run),
        b"check" => Some(Verb::Check),
        b"gen" => Some(Verb::Gen),
        b"self" => Some(Verb::SelfTest),
        _ => reader_named(word),
    }
}

// Returns the command that a word names, among those that read recorded packets or a journal.
fn reader_named(word: &[u8]) -> Option<Verb>
    ensures value { result ≡ reader_named word.now }
{
    if word == b"pcap".as_slice() {
        Some(Verb::Pcap)
    } else if word == b"report".as_slice() {
        Some(Verb::Report)
    } else {
        None
    }
}

/// Returns the names of the options that a command takes.
pub(crate) fn names_of(verb: Verb) -> &'static [&'static str]
    ensures value { map (λ name. name.now) result.now ≡ names_of verb }
{
    match verb {
        Verb::Run => &["cores", "threads", "order", "out", "shards", "rest"],
        Verb::Check => &["shards"],
        Verb::Gen => &["number", "conns", "commands"],
        Verb::SelfTest => &[
            "number", "conns", "commands", "cores", "threads", "order", "shards", "rest",
        ],
        Verb::Pcap => &["port"],
        Verb::Report => &[],
    }
}
