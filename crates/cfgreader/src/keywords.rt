//! Keywords of declarations.

ghost use Rattle.std.specs.Prelude.{map};
ghost use Rattle.cfgreader.specs.Inner.Keywords.{IsKeywordHere, IsSequenceHere, shown_sequence};

use super::lists::{Listed, Marking};
use super::reader::Reader;
use cfgitems::AssocKind;
use cfgkinds::YaccKind;

/// What a keyword declares.
#[derive(Clone, Copy)]
pub(super) enum Declaration {
    /// A list that continues until `%`.
    List(Listed),
    Start,
    PrintedForm,
    /// A list of marked tokens.
    Marked(Marking),
    /// A level of precedences.
    Precedence(AssocKind),
    Expect,
    ExpectReduceReduce,
    ParseParam,
    ParseGenerics,
    ActionType,
}

/// What files of every kind declare. A keyword that is a prefix of another one is tried after it.
const COMMON: [(&str, Declaration); 12] = [
    ("%token", Declaration::List(Listed::Tokens)),
    ("%start", Declaration::Start),
    ("%epp", Declaration::PrintedForm),
    ("%avoid_insert", Declaration::Marked(Marking::AvoidInsert)),
    ("%left", Declaration::Precedence(AssocKind::Left)),
    ("%right", Declaration::Precedence(AssocKind::Right)),
    ("%nonassoc", Declaration::Precedence(AssocKind::Nonassoc)),
    ("%expect-rr", Declaration::ExpectReduceReduce),
    ("%expect-unused", Declaration::List(Listed::Unused)),
    ("%expect", Declaration::Expect),
    ("%parse-param", Declaration::ParseParam),
    ("%parse-generics", Declaration::ParseGenerics),
];

/// What files of only one kind declare.
const ORIGINAL: [(&str, Declaration); 1] = [("%actiontype", Declaration::ActionType)];

const ECO: [(&str, Declaration); 1] = [(
    "%implicit_tokens",
    Declaration::Marked(Marking::ImplicitTokens),
)];

impl<'a> Reader<'a> {
    /// Passes the first of the table's words that the text begins with, and returns the table's value for it.
    fn first_of(&mut self, table: &[(&str, Declaration)]) -> Option<Declaration>
        ensures { IsSequenceHere (map shown_sequence table.now) self.old self.new result }
    {
        for (word, declaration) in table {
            if self.accept(word) {
                return Some(*declaration);
            }
        }
        None
    }

    /// Passes the keyword of a declaration, if there is one here.
    pub(super) fn keyword(&mut self, kind: YaccKind) -> Option<Declaration>
        ensures { IsKeywordHere kind self.old self.new result }
    {
        if let Some(declaration) = self.first_of(&COMMON) {
            return Some(declaration);
        }
        match kind {
            YaccKind::Original(_) => self.first_of(&ORIGINAL),
            YaccKind::Grmtools => None,
            YaccKind::Eco => self.first_of(&ECO),
        }
    }
}
