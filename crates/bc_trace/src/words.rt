//! The 25 words that a line may begin with, of which version 1 has 24.
ghost use Rattle.std.specs.Prelude.{◌≡◌};
ghost use Rattle.bc_trace.specs.Words.{setting_name, verb_name, name};
ghost use Rattle.bc_trace.specs.Reading.{all_verbs, all_settings, all_others, later_words, named, word_of};

/// A line of the header below the first one.
#[derive(Clone, Copy, Debug, PartialEq, Eq)]
pub enum Setting {
    Lanes,
    Domains,
    Slots,
    Superpages,
    Nursery,
    Buffer,
    Frames,
}

/// The first word of an operation's line.
#[derive(Clone, Copy, Debug)]
pub enum Verb {
    New,
    Who,
    Len,
    Set,
    Cut,
    Link,
    Load,
    Copy,
    Clear,
    Same,
}

/// The first word of a line.
#[derive(Clone, Copy, Debug)]
pub enum Keyword {
    /// `bc-trace`
    Version,
    Setting(Setting),
    Phase,
    Turn,
    Lane,
    Give,
    /// From version 2 on.
    Freeze,
    End,
    Done,
    Op(Verb),
}

/// The operation's word that is written so.
#[tactic(auto, unfolding(crate::specs::Words::verb_name))]
fn verb_of(word: &[u8]) -> Option<Verb>
    ensures { result ≡ named verb_name all_verbs word.now }
{
    if word == b"new".as_slice() {
        Some(Verb::New)
    } else if word == b"link".as_slice() {
        Some(Verb::Link)
    } else if word == b"load".as_slice() {
        Some(Verb::Load)
    } else if word == b"copy".as_slice() {
        Some(Verb::Copy)
    } else if word == b"set".as_slice() {
        Some(Verb::Set)
    } else if word == b"clear".as_slice() {
        Some(Verb::Clear)
    } else if word == b"who".as_slice() {
        Some(Verb::Who)
    } else if word == b"len".as_slice() {
        Some(Verb::Len)
    } else if word == b"cut".as_slice() {
        Some(Verb::Cut)
    } else if word == b"same".as_slice() {
        Some(Verb::Same)
    } else {
        None
    }
}

/// The word of the header that is written so.
#[tactic(auto, unfolding(crate::specs::Words::setting_name))]
fn setting_of(word: &[u8]) -> Option<Setting>
    ensures { result ≡ named setting_name all_settings word.now }
{
    if word == b"lanes".as_slice() {
        Some(Setting::Lanes)
    } else if word == b"domains".as_slice() {
        Some(Setting::Domains)
    } else if word == b"slots".as_slice() {
        Some(Setting::Slots)
    } else if word == b"superpages".as_slice() {
        Some(Setting::Superpages)
    } else if word == b"nursery".as_slice() {
        Some(Setting::Nursery)
    } else if word == b"buffer".as_slice() {
        Some(Setting::Buffer)
    } else if word == b"frames".as_slice() {
        Some(Setting::Frames)
    } else {
        None
    }
}

/// The other word of every version that is written so.
#[tactic(auto, unfolding(crate::specs::Words::name))]
fn other_of(word: &[u8]) -> Option<Keyword>
    ensures { result ≡ named name all_others word.now }
{
    if word == b"turn".as_slice() {
        Some(Keyword::Turn)
    } else if word == b"lane".as_slice() {
        Some(Keyword::Lane)
    } else if word == b"give".as_slice() {
        Some(Keyword::Give)
    } else if word == b"phase".as_slice() {
        Some(Keyword::Phase)
    } else if word == b"end".as_slice() {
        Some(Keyword::End)
    } else if word == b"done".as_slice() {
        Some(Keyword::Done)
    } else if word == b"bc-trace".as_slice() {
        Some(Keyword::Version)
    } else {
        None
    }
}

/// The word that later versions have, and that is written so.
#[tactic(auto, unfolding(crate::specs::Words::name))]
fn later_of(version: u32, word: &[u8]) -> Option<Keyword>
    ensures { result ≡ named name (later_words version) word.now }
{
    if version >= 2 && word == b"freeze".as_slice() {
        Some(Keyword::Freeze)
    } else {
        None
    }
}

/// The word of this version of the language that is written so.
#[tactic(auto, unfolding(crate::specs::Reading::word_of))]
pub fn word_of(version: u32, word: &[u8]) -> Option<Keyword>
    ensures { result ≡ word_of version word.now }
{
    if let Some(verb) = verb_of(word) {
        return Some(Keyword::Op(verb));
    }
    if let Some(other) = other_of(word) {
        return Some(other);
    }
    if let Some(setting) = setting_of(word) {
        return Some(Keyword::Setting(setting));
    }
    later_of(version, word)
}

impl Verb {
    /// How the word is written.
    #[tactic(auto, unfolding(crate::specs::Words::verb_name))]
    fn name(self) -> &'static [u8]
        ensures { result.now ≡ verb_name self }
    {
        match self {
            Verb::New => b"new",
            Verb::Who => b"who",
            Verb::Len => b"len",
            Verb::Set => b"set",
            Verb::Cut => b"cut",
            Verb::Link => b"link",
            Verb::Load => b"load",
            Verb::Copy => b"copy",
            Verb::Clear => b"clear",
            Verb::Same => b"same",
        }
    }
}

impl Setting {
    /// How the word is written.
    #[tactic(auto, unfolding(crate::specs::Words::setting_name))]
    fn name(self) -> &'static [u8]
        ensures { result.now ≡ setting_name self }
    {
        match self {
            Setting::Lanes => b"lanes",
            Setting::Domains => b"domains",
            Setting::Slots => b"slots",
            Setting::Superpages => b"superpages",
            Setting::Nursery => b"nursery",
            Setting::Buffer => b"buffer",
            Setting::Frames => b"frames",
        }
    }
}

impl Keyword {
    /// How the word is written.
    #[tactic(auto, unfolding(crate::specs::Words::name))]
    pub fn name(self) -> &'static [u8]
        ensures { result.now ≡ name self }
    {
        match self {
            Keyword::Version => b"bc-trace",
            Keyword::Setting(setting) => setting.name(),
            Keyword::Phase => b"phase",
            Keyword::Turn => b"turn",
            Keyword::Lane => b"lane",
            Keyword::Give => b"give",
            Keyword::Freeze => b"freeze",
            Keyword::End => b"end",
            Keyword::Done => b"done",
            Keyword::Op(verb) => verb.name(),
        }
    }
}
