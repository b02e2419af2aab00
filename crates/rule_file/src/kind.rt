// The two kinds of a list file: `rules`, whose lines have no action, and `acl`, whose lines have it last.
ghost use Rattle.std.specs.Prelude.{◌≡◌};
ghost use Rattle.rule_file.specs.Kinds.{list_word_of, marks_of, most_action, kind_of};

use rules::words::LARGEST_ACTION;
use text::words::{ACL, ACL_MARKS, RULE_MARKS, RULES};

#[derive(Clone, Copy, Debug, PartialEq, Eq)]
pub enum Kind {
    Rules,
    Acl,
}

impl Kind {
    // The word of the first line.
    pub(crate) fn word(self) -> &'static [u8]
        ensures { result.now ≡ list_word_of self }
    {
        match self {
            Kind::Rules => &RULES,
            Kind::Acl => &ACL,
        }
    }

    // The separators of a rule's line.
    pub(crate) fn marks(self) -> &'static [u8]
        ensures { result.now ≡ marks_of self }
    {
        match self {
            Kind::Rules => &RULE_MARKS,
            Kind::Acl => &ACL_MARKS,
        }
    }

    // The largest action of a rule in such a file.
    pub(crate) fn most_action(self) -> u32
        ensures { result ≡ most_action self }
    {
        match self {
            Kind::Rules => 0,
            Kind::Acl => LARGEST_ACTION,
        }
    }
}

// The kind of a text, by its first byte. Its first line is then held against the whole word.
#[tactic(auto, unfolding(crate::specs::Kinds::kind_of))]
pub(crate) fn kind_of(text: &[u8]) -> Kind
    ensures { result ≡ kind_of text.now }
{
    if text.first() == Some(&ACL[0]) {
        return Kind::Acl;
    }
    Kind::Rules
}
