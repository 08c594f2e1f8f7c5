//! Lists: those that continue until `%`, and lists of tokens that end with their line.

ghost use Rattle.std.specs.Prelude.{◌≡◌, OnOk};
ghost use Rattle.constructs.specs.Construct.{goes_on, repeat, while_test};
ghost use Rattle.cfgitems.specs.Building.{add};
ghost use Rattle.cfgitems.specs.SyntaxView.{syntax_built, word_view};
ghost use Rattle.cfgreader.specs.Declarations.{is_listed, list_declaration, line_token, precedence_declaration};
ghost use Rattle.cfgreader.specs.Declarations.{marking_declaration};
ghost use Rattle.cfgreader.specs.Inner.Lists.{begun, listed_in, marked, said, turn_in};

use super::reader::{ReadFault, Reader};
use cfgitems::{AssocKind, AstBuilder};
use cfgwords::blank::passes_line_end;
use cfgwords::words::Word;
use std::alloc::{AllocError, Global};

/// What a list that continues until `%` holds.
#[derive(Clone, Copy)]
pub(crate) enum Listed {
    /// `%token`.
    Tokens,
    /// `%expect-unused`.
    Unused,
}

/// What a list marks its tokens as.
#[derive(Clone, Copy)]
pub(crate) enum Marking {
    /// `%avoid_insert`.
    AvoidInsert,
    /// `%implicit_tokens`.
    ImplicitTokens,
}

impl Marking {
    /// Notes that such a list begins.
    fn begin(self, tree: &mut AstBuilder, alloc: Global)
        ensures { syntax_built tree.new ≡ add (syntax_built tree.old) (begun self) }
    {
        match self {
            Marking::AvoidInsert => tree.begin_avoid_insert(alloc),
            Marking::ImplicitTokens => tree.begin_implicit_tokens(alloc),
        }
    }
}

/// What a list that ends with its line says of its tokens.
#[derive(Clone, Copy)]
pub(crate) enum LineList {
    /// `%left`, `%right` or `%nonassoc`: each token's precedence.
    Precedence(AssocKind),
    /// Each token's mark.
    Marked(Marking),
}

impl LineList {
    /// Notes what the list says of a token.
    ///
    /// # Errors
    ///
    /// `AllocError` if an allocation fails.
    fn note(self, tree: &mut AstBuilder, alloc: Global, word: Word<'_>) -> Result<(), AllocError>
        ensures { OnOk result (syntax_built tree.new
            ≡ add (syntax_built tree.old) (said self (word_view word.entry))) }
    {
        match self {
            LineList::Precedence(kind) => tree.declare_precedence(alloc, kind, word),
            LineList::Marked(Marking::AvoidInsert) => tree.declare_avoid_insert(alloc, word),
            LineList::Marked(Marking::ImplicitTokens) => tree.declare_implicit_token(alloc, word),
        }
    }
}

impl Reader<'_> {
    ghost use Rattle.cfgreader.specs.Inner.Builds.{Builds};

    /// Whether such a list continues here: it ends at `%` and at the text's end.
    fn is_listed(&self) -> bool
        ensures { result ≡ is_listed self.now.rest.now }
    {
        match self.rest.as_bytes() {
            [] => false,
            [b, ..] => *b != b'%',
        }
    }

    /// Passes an element of the list, and the blank after it.
    fn listed(&mut self, list: Listed) -> Result<(), ReadFault>
        ensures { Builds (λ x. x) self.old self.new result (listed_in self.old.len list) }
    {
        match list {
            Listed::Tokens => self.listed_token(),
            Listed::Unused => self.unused_symbol(),
        }
    }

    /// Passes all elements of the list.
    fn list(&mut self, list: Listed) -> Result<(), ReadFault>
        ensures { Builds (λ x. x) self.old self.new result
            (repeat (while_test is_listed (listed_in self.old.len list))) }
    {
        while self.is_listed() {
            self.listed(list)?;
        }
        Ok(())
    }

    /// Passes what follows `%token` or `%expect-unused`.
    #[tactic(auto, unfolding(crate::specs::Declarations::list_declaration))]
    pub(super) fn list_declaration(&mut self, list: Listed) -> Result<(), ReadFault>
        ensures { Builds (λ x. x) self.old self.new result
            (list_declaration self.old.len (listed_in self.old.len list)) }
    {
        self.blank(false)?;
        self.list(list)
    }

    /// Passes a token of the list and the blank after it, and returns whether the list continues: it does if the blank
    /// stays on its line.
    #[tactic(auto, unfolding(crate::specs::Declarations::line_token, crate::specs::Here::line_blank))]
    fn line_token(&mut self, list: LineList) -> Result<bool, ReadFault>
        ensures { Builds goes_on self.old self.new result (line_token self.old.len (said list)) }
    {
        let token = self.token()?;
        list.note(&mut self.tree, self.alloc, token.word())?;
        let text = self.rest;
        self.blank(true)?;
        Ok(!passes_line_end(text, self.rest))
    }

    /// Passes a token of the list, and returns whether the list continues: the text's end ends a list of precedences
    /// too.
    #[tactic(auto, unfolding(crate::specs::Declarations::level_token))]
    fn line_turn(&mut self, list: LineList) -> Result<bool, ReadFault>
        ensures { Builds goes_on self.old self.new result (turn_in self.old.len list) }
    {
        match list {
            LineList::Precedence(_) if !self.is_open() => Ok(false),
            _ => self.line_token(list),
        }
    }

    /// Passes the tokens of the list.
    fn line_tokens(&mut self, list: LineList) -> Result<(), ReadFault>
        ensures { Builds (λ x. x) self.old self.new result (repeat (turn_in self.old.len list)) }
    {
        while self.line_turn(list)? {}
        Ok(())
    }

    /// Passes what follows `%left`, `%right` or `%nonassoc`.
    #[tactic(auto, unfolding(crate::specs::Declarations::precedence_declaration))]
    pub(super) fn precedence_declaration(&mut self, kind: AssocKind) -> Result<(), ReadFault>
        ensures { Builds (λ x. x) self.old self.new result (precedence_declaration self.old.len kind) }
    {
        self.blank(false)?;
        self.line_tokens(LineList::Precedence(kind))?;
        self.tree.end_level(kind)?;
        Ok(())
    }

    /// Passes what follows `%avoid_insert` or `%implicit_tokens`.
    #[tactic(auto, unfolding(crate::specs::Declarations::marking_declaration))]
    pub(super) fn marking_declaration(&mut self, marking: Marking) -> Result<(), ReadFault>
        ensures { Builds (λ x. x) self.old self.new result
            (marking_declaration self.old.len (begun marking) (marked marking)) }
    {
        if self.is_open() {
            self.blank(false)?;
            marking.begin(&mut self.tree, self.alloc);
            self.line_tokens(LineList::Marked(marking))
        } else {
            marking.begin(&mut self.tree, self.alloc);
            Ok(())
        }
    }
}
