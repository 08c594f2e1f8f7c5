//! Declarations.

ghost use Rattle.std.specs.Prelude.{◌≡◌, ◌<◌, length, Ok};
ghost use Rattle.constructs.specs.Construct.{again, goes_on, recovers, then};
ghost use Rattle.bison_reader.specs.Declarations.{codes, declaration, declaration_rest, declaration_turn, declared};
ghost use Rattle.bison_reader.specs.Declarations.{declared_by, expected_conflicts, level, named_code, only};
ghost use Rattle.bison_reader.specs.Declarations.{start, start_turn, symbol_or_tag, symbol_or_tag_turn};
ghost use Rattle.bison_reader.specs.Declarations.{symbols_code, variable};
ghost use Rattle.bison_reader.specs.Here.{sort_of};
ghost use Rattle.bison_reader.specs.Items.{ExpectGiven, ExpectReduceReduceGiven};

use crate::group::Group;
use crate::item::{Associativity, Expected, Item};
use crate::lists::Listed;
use crate::reader::{Reader, Stop};
use crate::sort::{Declaration, Sort};
use crate::turns::Turns;

/// Further symbols of a `%start`.
#[derive(Drop)]
struct StartSymbols;

impl Turns for StartSymbols {
    ghost construct = { λ turns words. start_turn words };

    #[tactic(auto, unfolding(crate::specs::Declarations::start_turn))]
    fn turn(&self, reader: &mut Reader<'_>) -> Result<bool, Stop> {
        match reader.take(Group::Symbol) {
            Some(symbol) => {
                reader.note(Item::Start(symbol))?;
                Ok(true)
            }
            None => Ok(false),
        }
    }
}

/// Further symbols and tags of a `%destructor` or `%printer`.
#[derive(Drop)]
struct SymbolsAndTags;

impl Turns for SymbolsAndTags {
    ghost construct = { λ turns words. symbol_or_tag_turn words };

    #[tactic(auto, unfolding(crate::specs::Declarations::symbol_or_tag_turn))]
    fn turn(&self, reader: &mut Reader<'_>) -> Result<bool, Stop> {
        match reader.take(Group::SymbolOrTag) {
            Some(word) => {
                reader.symbol_or_tag(word)?;
                Ok(true)
            }
            None => Ok(false),
        }
    }
}

/// Declarations up to the first `%%` or the end, each or what is left of it after a fault.
#[derive(Drop)]
pub(crate) struct Declarations;

impl Turns for Declarations {
    ghost construct = { λ turns words. declaration_turn words };

    #[tactic(auto, unfolding(crate::specs::Declarations::declaration_turn))]
    fn turn(&self, reader: &mut Reader<'_>) -> Result<bool, Stop> {
        if reader.is_here(Group::Mark) {
            return Ok(false);
        }
        reader.declaration_or_rest()
    }
}

impl Reader<'_> {
    ghost use Rattle.bison_reader.specs.Inner.Builds.{Builds};

    #[tactic(auto, unfolding(crate::specs::Declarations::level))]
    fn level(&mut self, associativity: Associativity) -> Result<(), Stop>
        ensures { Builds (λ x. x) self.old self.new result (level self.old.sorts.now associativity) }
    {
        self.tagged_list(Listed::Precedences(associativity))?;
        self.note(Item::LevelEnd(associativity))
    }

    #[tactic(auto, unfolding(crate::specs::Declarations::start))]
    fn start(&mut self) -> Result<(), Stop>
        ensures { Builds (λ x. x) self.old self.new result (start self.old.sorts.now) }
    {
        let symbol = self.needed(Group::Symbol, Expected::Symbol)?;
        self.note(Item::Start(symbol))?;
        self.repeated(&StartSymbols)
    }

    /// Notes a symbol; a tag says nothing.
    #[tactic(auto, unfolding(crate::specs::Declarations::symbol_or_tag))]
    fn symbol_or_tag(&mut self, word: usize) -> Result<(), Stop>
        requires { word < length self.now.sorts.now }
        ensures { Builds (λ x. x) self.old self.new result (symbol_or_tag self.old.sorts.now word) }
    {
        if self.is_of(Group::Symbol, word) {
            return self.note(Item::Symbol(word));
        }
        Ok(())
    }

    /// Passes what follows `%destructor` or `%printer`.
    #[tactic(auto, unfolding(crate::specs::Declarations::symbols_code))]
    fn symbols_code(&mut self) -> Result<(), Stop>
        ensures { Builds (λ x. x) self.old self.new result (symbols_code self.old.sorts.now) }
    {
        self.needed(Group::Code, Expected::Code)?;
        let word = self.needed(Group::SymbolOrTag, Expected::SymbolOrTag)?;
        self.symbol_or_tag(word)?;
        self.repeated(&SymbolsAndTags)
    }

    /// Passes a word of the group, which must be here, and whose text doesn't matter.
    #[tactic(auto, unfolding(crate::specs::Declarations::only))]
    pub(super) fn only(&mut self, group: Group, expected: Expected) -> Result<(), Stop>
        ensures { Builds (λ x. x) self.old self.new result (only self.old.sorts.now group expected) }
    {
        self.needed(group, expected)?;
        Ok(())
    }

    /// Passes code that may have a name.
    #[tactic(auto, unfolding(crate::specs::Declarations::named_code))]
    fn named_code(&mut self) -> Result<(), Stop>
        ensures { Builds (λ x. x) self.old self.new result (named_code self.old.sorts.now) }
    {
        self.optional(Group::Identifier);
        self.only(Group::Code, Expected::Code)
    }

    /// Passes code, once or more.
    #[tactic(auto, unfolding(crate::specs::Declarations::codes))]
    fn codes(&mut self) -> Result<(), Stop>
        ensures { Builds (λ x. x) self.old self.new result (codes self.old.sorts.now) }
    {
        self.needed(Group::Code, Expected::Code)?;
        self.words_of(Group::Code)
    }

    /// Passes what follows `%define`.
    #[tactic(auto, unfolding(crate::specs::Declarations::variable))]
    fn variable(&mut self) -> Result<(), Stop>
        ensures { Builds (λ x. x) self.old self.new result (variable self.old.sorts.now) }
    {
        self.needed(Group::Identifier, Expected::Identifier)?;
        self.optional(Group::Value);
        Ok(())
    }

    #[tactic(auto, unfolding(crate::specs::Declarations::expected_conflicts))]
    fn expect(&mut self) -> Result<(), Stop>
        ensures { Builds (λ x. x) self.old self.new result (expected_conflicts self.old.sorts.now ExpectGiven) }
    {
        let number = self.needed(Group::Number, Expected::Number)?;
        self.note(Item::Expect(number))
    }

    #[tactic(auto, unfolding(crate::specs::Declarations::expected_conflicts))]
    fn expect_reduce_reduce(&mut self) -> Result<(), Stop>
        ensures { Builds (λ x. x) self.old self.new result
            (expected_conflicts self.old.sorts.now ExpectReduceReduceGiven) }
    {
        let number = self.needed(Group::Number, Expected::Number)?;
        self.note(Item::ExpectReduceReduce(number))
    }

    /// Passes what follows the directive of a declaration.
    fn declared(&mut self, declaration: Declaration) -> Result<(), Stop>
        ensures { Builds (λ x. x) self.old self.new result (declared self.old.sorts.now declaration) }
    {
        match declaration {
            Declaration::Tokens => self.tagged_list(Listed::Tokens),
            Declaration::Rules => self.tagged_list(Listed::Rules),
            Declaration::Symbols => self.tagged_list(Listed::Symbols),
            Declaration::Level(associativity) => self.level(associativity),
            Declaration::Start => self.start(),
            Declaration::NamedCode => self.named_code(),
            Declaration::SymbolsCode => self.symbols_code(),
            Declaration::DefaultPrecedence(holds) => self.note(Item::DefaultPrecedence(holds)),
            Declaration::OnlyCode => self.only(Group::Code, Expected::Code),
            Declaration::Codes => self.codes(),
            Declaration::Variable => self.variable(),
            Declaration::Expect => self.expect(),
            Declaration::ExpectReduceReduce => self.expect_reduce_reduce(),
            Declaration::Text => self.only(Group::String, Expected::String),
            Declaration::OptionalText => {
                self.optional(Group::String);
                Ok(())
            }
            Declaration::Flag => Ok(()),
        }
    }

    /// Passes what follows a word that is a directive.
    pub(super) fn declared_by(&mut self, word: usize) -> Result<(), Stop>
        ensures { Builds (λ x. x) self.old self.new result
            (declared_by self.old.sorts.now (sort_of self.old.sorts.now word)) }
    {
        match self.sort_of(word) {
            Sort::Declaration(declaration) => self.declared(declaration),
            _ => Ok(()),
        }
    }

    /// Passes a declaration, or what declares nothing.
    #[tactic(auto, unfolding(crate::specs::Declarations::declaration))]
    fn declaration(&mut self) -> Result<(), Stop>
        ensures { Builds (λ x. x) self.old self.new result (declaration self.old.sorts.now) }
    {
        if self.take(Group::Ignored).is_some() {
            return Ok(());
        }
        match self.take(Group::Declaration) {
            Some(word) => self.declared_by(word),
            None => {
                self.note_unexpected(Expected::Declaration)?;
                Err(Stop::Unexpected)
            }
        }
    }

    /// Passes what isn't read after a fault, and returns whether this isn't the end.
    #[tactic(auto, unfolding(crate::specs::Declarations::declaration_rest))]
    fn declaration_rest(&mut self) -> Result<bool, Stop>
        ensures { Builds goes_on self.old self.new result (declaration_rest self.old.sorts.now) }
    {
        if self.is_here(Group::End) {
            return Ok(false);
        }
        self.needed(Group::Any, Expected::Declaration)?;
        self.words_of(Group::InDeclaration)?;
        Ok(!self.is_here(Group::End))
    }

    /// Passes a declaration, or what is left of one after a fault, and returns whether another may follow.
    fn declaration_or_rest(&mut self) -> Result<bool, Stop>
        ensures { Builds goes_on self.old self.new result
            (recovers (then (declaration self.old.sorts.now) again)
            (λ fault. declaration_rest self.old.sorts.now)) }
    {
        let (sorts, start) = (self.sorts, self.next);
        match self.another_declaration() {
            Err(Stop::Unexpected) => {
                self.sorts = sorts;
                self.next = start;
                self.declaration_rest()
            }
            read => read,
        }
    }

    /// Passes a declaration; another may follow.
    fn another_declaration(&mut self) -> Result<bool, Stop>
        ensures { Builds goes_on self.old self.new result (then (declaration self.old.sorts.now) again) }
    {
        self.declaration()?;
        Ok(true)
    }
}
