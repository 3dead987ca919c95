// A record of a tape, and what it says of a partition.
ghost use Rattle.std.specs.Prelude.{◌≡◌};
ghost use Rattle.port.specs.Marks.{is_mark_of};
ghost use Rattle.port.specs.Records.{word_for};

// What stands in a record of a tape. A mark is no missing word, so this is no `Option`.
#[derive(Clone, Copy, PartialEq, Debug)]
pub enum Content {
    Mark,
    Word(u32),
}

// A mark or a word, with its partition.
#[derive(Clone, Copy, PartialEq, Debug)]
pub struct Record {
    pub partition: u32,
    pub content: Content,
}

impl Record {
    // Whether this marks partition `s`.
    pub(crate) fn marks(&self, s: u32) -> bool
        ensures { result ≡ is_mark_of s self.now }
    {
        self.content == Content::Mark && self.partition == s
    }

    // The word that this adds to the list of partition `s`, if it does.
    pub(crate) fn word_for(&self, s: u32) -> Option<u32>
        ensures { result ≡ word_for s self.now }
    {
        if self.partition != s {
            return None;
        }
        match self.content {
            Content::Mark => None,
            Content::Word(word) => Some(word),
        }
    }
}
