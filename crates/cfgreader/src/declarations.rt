//! Declarations: what precedes the first `%%`.

ghost use Rattle.std.specs.Prelude.{◌≡◌, codes};
ghost use Rattle.std.specs.String.{string_bytes};
ghost use Rattle.constructs.specs.Construct.{expect, goes_on, repeat};
ghost use Rattle.cfgitems.specs.SyntaxView.{word_view};
ghost use Rattle.cfgitems.specs.Items.{ExpectDeclared, ExpectReduceReduceDeclared};
ghost use Rattle.cfgreader.specs.Declarations.{listed_token, start_declaration, action_type_declaration};
ghost use Rattle.cfgreader.specs.Declarations.{printed_token, printed_form, epp_declaration, number_declaration};
ghost use Rattle.cfgreader.specs.Declarations.{unused_symbol, parse_param_declaration, parse_generics_declaration};
ghost use Rattle.cfgreader.specs.Declarations.{declaration, separator_fault};
ghost use Rattle.cfgreader.specs.Inner.Keywords.{declared};

use super::keywords::Declaration;
use super::reader::{ReadFault, Reader};
use cfgbase::Span;
use cfgkinds::YaccKind;
use cfgwords::fault::FaultKind;
use cfgwords::words::Word;

impl<'a> Reader<'a> {
    ghost use Rattle.cfgreader.specs.Inner.Builds.{Builds};

    /// Passes a token of a `%token` list and the blank after it.
    #[tactic(auto, unfolding(crate::specs::Declarations::listed_token))]
    pub(super) fn listed_token(&mut self) -> Result<(), ReadFault>
        ensures { Builds (λ x. x) self.old self.new result (listed_token self.old.len) }
    {
        let token = self.token()?;
        self.tree.declare_token(self.alloc, token.word())?;
        self.blank(true)
    }

    /// Passes what follows `%start`.
    #[tactic(auto, unfolding(crate::specs::Declarations::start_declaration))]
    fn start_declaration(&mut self) -> Result<(), ReadFault>
        ensures { Builds (λ x. x) self.old self.new result (start_declaration self.old.len) }
    {
        self.blank(false)?;
        let name = self.name()?;
        self.tree.declare_start(self.alloc, name)?;
        self.blank(true)
    }

    /// Passes what follows `%actiontype`.
    #[tactic(auto, unfolding(crate::specs::Declarations::action_type_declaration))]
    fn action_type_declaration(&mut self) -> Result<(), ReadFault>
        ensures { Builds (λ x. x) self.old self.new result (action_type_declaration self.old.len) }
    {
        self.blank(false)?;
        let start = self.offset();
        let line = self.line_rest();
        let span = Span::new(start, self.offset());
        self.tree.declare_action_type(self.alloc, line, span)?;
        self.blank(true)
    }

    /// Passes the token of an `%epp`, whose span includes its quotes.
    #[tactic(auto, unfolding(crate::specs::Declarations::printed_token))]
    fn printed_token(&mut self) -> Result<Word<'a>, ReadFault>
        ensures { Builds word_view self.old self.new result (printed_token self.old.len) }
    {
        let start = self.offset();
        let token = self.token()?;
        Ok(Word {
            name: token.name,
            span: Span::new(start, token.end),
        })
    }

    /// Passes the printed form of a token, and returns it with the string's span.
    #[tactic(auto, unfolding(crate::specs::Declarations::printed_form))]
    fn printed_form(&mut self) -> Result<(String, Span), ReadFault>
        ensures { Builds (λ form. (string_bytes form.0, form.1)) self.old self.new result (printed_form self.old.len) }
    {
        let start = self.offset();
        let form = self.epp_string()?;
        Ok((form, Span::new(start, self.offset())))
    }

    /// Passes what follows `%epp`.
    #[tactic(auto, unfolding(crate::specs::Declarations::epp_declaration))]
    fn epp_declaration(&mut self) -> Result<(), ReadFault>
        ensures { Builds (λ x. x) self.old self.new result (epp_declaration self.old.len) }
    {
        self.blank(false)?;
        let token = self.printed_token()?;
        self.blank(false)?;
        let (form, span) = self.printed_form()?;
        self.tree
            .declare_printed_form(self.alloc, token, form, span)?;
        self.blank(true)
    }

    /// Passes what follows `%expect`.
    #[tactic(auto, unfolding(crate::specs::Declarations::number_declaration))]
    fn expect_declaration(&mut self) -> Result<(), ReadFault>
        ensures { Builds (λ x. x) self.old self.new result (number_declaration self.old.len ExpectDeclared) }
    {
        self.blank(false)?;
        let number = self.integer()?;
        self.tree.declare_expect(number)?;
        self.blank(true)
    }

    /// Passes what follows `%expect-rr`.
    #[tactic(auto, unfolding(crate::specs::Declarations::number_declaration))]
    fn expect_rr_declaration(&mut self) -> Result<(), ReadFault>
        ensures { Builds (λ x. x) self.old self.new result
            (number_declaration self.old.len ExpectReduceReduceDeclared) }
    {
        self.blank(false)?;
        let number = self.integer()?;
        self.tree.declare_expect_rr(number)?;
        self.blank(true)
    }

    /// Passes a symbol of an `%expect-unused` list and the blank after it.
    #[tactic(auto, unfolding(crate::specs::Declarations::unused_symbol))]
    pub(super) fn unused_symbol(&mut self) -> Result<(), ReadFault>
        ensures { Builds (λ x. x) self.old self.new result (unused_symbol self.old.len) }
    {
        if let Some(name) = self.next_name() {
            self.tree.expect_unused_rule(self.alloc, name)?;
        } else if let Some(token) = self.next_token() {
            self.tree.expect_unused_token(self.alloc, token.word())?;
        } else {
            return Err(self.fault(FaultKind::UnknownSymbol));
        }
        self.blank(true)
    }

    /// Passes what follows `%parse-param`.
    #[tactic(auto, unfolding(crate::specs::Declarations::parse_param_declaration))]
    fn parse_param_declaration(&mut self) -> Result<(), ReadFault>
        ensures { Builds (λ x. x) self.old self.new result (parse_param_declaration self.old.len) }
    {
        self.blank(false)?;
        let name = self.colon_text()?;
        self.expect(":", FaultKind::ReachedEOL)?;
        self.blank(false)?;
        let kind = self.line_rest();
        self.tree.declare_parse_param(self.alloc, name, kind)?;
        self.blank(true)
    }

    /// Passes what follows `%parse-generics`.
    #[tactic(auto, unfolding(crate::specs::Declarations::parse_generics_declaration))]
    fn parse_generics_declaration(&mut self) -> Result<(), ReadFault>
        ensures { Builds (λ x. x) self.old self.new result (parse_generics_declaration self.old.len) }
    {
        self.blank(false)?;
        let generics = self.line_rest();
        self.tree.declare_generics(self.alloc, generics)?;
        self.blank(true)
    }

    /// Passes what follows a keyword.
    fn declared(&mut self, declaration: Declaration) -> Result<(), ReadFault>
        ensures { Builds (λ x. x) self.old self.new result (declared self.old.len declaration).construct }
    {
        match declaration {
            Declaration::List(list) => self.list_declaration(list),
            Declaration::Start => self.start_declaration(),
            Declaration::PrintedForm => self.epp_declaration(),
            Declaration::Marked(marking) => self.marking_declaration(marking),
            Declaration::Precedence(kind) => self.precedence_declaration(kind),
            Declaration::Expect => self.expect_declaration(),
            Declaration::ExpectReduceReduce => self.expect_rr_declaration(),
            Declaration::ParseParam => self.parse_param_declaration(),
            Declaration::ParseGenerics => self.parse_generics_declaration(),
            Declaration::ActionType => self.action_type_declaration(),
        }
    }

    /// Passes a declaration, and returns whether there was one.
    fn declaration(&mut self, kind: YaccKind) -> Result<bool, ReadFault>
        ensures { Builds goes_on self.old self.new result (declaration self.old.len kind) }
    {
        let Some(declaration) = self.keyword(kind) else {
            return Ok(false);
        };
        self.declared(declaration)?;
        Ok(true)
    }

    /// Passes all declarations.
    pub(super) fn declarations(&mut self, kind: YaccKind) -> Result<(), ReadFault>
        ensures { Builds (λ x. x) self.old self.new result (repeat (declaration self.old.len kind)) }
    {
        while self.declaration(kind)? {}
        Ok(())
    }

    /// Passes the `%%` after the declarations.
    pub(super) fn separator(&mut self) -> Result<(), ReadFault>
        ensures { Builds (λ x. x) self.old self.new result (expect (codes "%%") (separator_fault self.old.len)) }
    {
        if self.accept("%%") {
            Ok(())
        } else if self.rest.is_empty() {
            Err(self.fault(FaultKind::PrematureEnd))
        } else {
            Err(self.fault(FaultKind::UnknownDeclaration))
        }
    }
}
