// The command words.
ghost use Rattle.std.specs.Prelude.{◌≡◌};
ghost use Rattle.ap_words.specs.Names as spec;

/// The first word of a command.
#[derive(Clone, Copy, Debug, PartialEq, Eq)]
pub enum Word {
    Link,
    Load,
    Map,
    Script,
    Assimilate,
    Inspect,
    Trial,
    Bind,
    Bundle,
    Stack,
    Audit,
}

/// The text of a command word.
pub fn name_of(word: Word) -> &'static str
    ensures { result.now ≡ spec.name_of word }
{
    match word {
        Word::Link => "link",
        Word::Load => "load",
        Word::Map => "map",
        Word::Script => "script",
        Word::Assimilate => "assimilate",
        Word::Inspect => "inspect",
        Word::Trial => "trial",
        Word::Bind => "bind",
        Word::Bundle => "bundle",
        Word::Stack => "stack",
        Word::Audit => "audit",
    }
}

/// The command word of a text.
pub fn word_named(name: &str) -> Option<Word>
    ensures { result ≡ spec.word_named name.now }
{
    if name == "link" {
        Some(Word::Link)
    } else if name == "load" {
        Some(Word::Load)
    } else if name == "map" {
        Some(Word::Map)
    } else if name == "script" {
        Some(Word::Script)
    } else if name == "assimilate" {
        Some(Word::Assimilate)
    } else if name == "inspect" {
        Some(Word::Inspect)
    } else {
        later_named(name)
    }
}

fn later_named(name: &str) -> Option<Word>
    ensures { result ≡ spec.later_named name.now }
{
    if name == "trial" {
        Some(Word::Trial)
    } else if name == "bind" {
        Some(Word::Bind)
    } else if name == "bundle" {
        Some(Word::Bundle)
    } else if name == "stack" {
        Some(Word::Stack)
    } else if name == "audit" {
        Some(Word::Audit)
    } else {
        None
    }
}
