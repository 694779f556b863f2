// The words that begin a command.
ghost use Rattle.commands.specs.Verbs.{verb_named};
ghost use Rattle.std.specs.Prelude.{◌≡◌};

#[derive(Clone, Copy, PartialEq, Eq, Debug)]
pub enum Verb {
    New,
    Manual,
    Notice,
    Plan,
    Ask,
    Orders,
    Journal,
    Open,
    Level,
    Code,
    Late,
    Close,
    Certificate,
    Audit,
    Dump,
    Read,
    Bytes,
    Write,
}

// The command that a word begins, if it does. Those that a verification makes most often are asked first.
pub fn name_verb(word: &[u8]) -> Option<Verb>
    ensures { result ≡ verb_named word.now }
{
    match word {
        b"code" => Some(Verb::Code),
        b"level" => Some(Verb::Level),
        b"open" => Some(Verb::Open),
        b"close" => Some(Verb::Close),
        b"late" => Some(Verb::Late),
        b"new" => Some(Verb::New),
        b"manual" => Some(Verb::Manual),
        b"notice" => Some(Verb::Notice),
        b"plan" => Some(Verb::Plan),
        b"ask" => Some(Verb::Ask),
        b"orders" => Some(Verb::Orders),
        b"certificate" => Some(Verb::Certificate),
        b"audit" => Some(Verb::Audit),
        b"journal" => Some(Verb::Journal),
        b"dump" => Some(Verb::Dump),
        b"read" => Some(Verb::Read),
        b"bytes" => Some(Verb::Bytes),
        b"write" => Some(Verb::Write),
        _ => None,
    }
}
