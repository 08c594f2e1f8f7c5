//! What an analysis reads: the productions of a grammar, which are opened one by one.

ghost use Rattle.std.specs.Prelude.{◌≡◌, ℕ, ◌-◌, ◌^◌, ◌<◌, ◌≤◌, All, length, map};
ghost use Rattle.std.specs.Borrow.{sem};
ghost use Rattle.std.specs.Io.BufRead.{Rests};
ghost use Rattle.derivation.specs.Grammar.{Grammar, IsGrammar};
ghost use Rattle.cfgtables.specs.Openings.{nth_production, OpensOne};
ghost use Rattle.cfgtables.specs.NumberedSymbols.{sym_of};

use cfgindex::{PIdx, RIdx, Storage, Symbol, TIdx};

/// The productions of a grammar. Their symbols are only available through [`open`](Productions::open), which counts.
pub trait Productions<S: Storage> {
    // The grammar.
    ghost content: { Self → Grammar };

    // How often a production was opened.
    ghost opened: { Self → ℕ → ℕ };

    // How often productions were opened in total.
    ghost opened_all: { Self → ℕ };

    /// The number of rules. The content is a grammar that `S` can count, including the symbols of each production.
    fn rules_len(&self) -> RIdx<S>
        ensures value { S.number result.0 ≡ (content self.now).rules }
        ensures content { IsGrammar (content self.now) }
        ensures fits { All (λ p. length p.symbols ≤ S.MAX) (content self.now).productions };

    /// The number of tokens, including the end token.
    fn tokens_len(&self) -> TIdx<S>
        ensures { S.number result.0 ≡ (content self.now).tokens };

    /// The number of productions.
    fn prods_len(&self) -> PIdx<S>
        ensures { S.number result.0 ≡ length (content self.now).productions };

    /// The rule that a production belongs to.
    fn rule_of(&self, p: PIdx<S>) -> RIdx<S>
        requires { S.number p.0 < length (content self.now).productions }
        ensures { S.number result.0 ≡ (nth_production (content self.now) (S.number p.0)).rule };

    /// How often a production was opened.
    fn opened(&self, p: PIdx<S>) -> u64
        requires { S.number p.0 < length (content self.now).productions }
        ensures { result ≡ opened self.now (S.number p.0) };

    /// How often productions were opened in total.
    fn opened_all(&self) -> u128
        ensures { result ≡ opened_all self.now };

    /// Opens a production, counts this, and returns the production's symbols.
    fn open(&mut self, p: PIdx<S>) -> &[Symbol<S>]
        requires in_range { S.number p.0 < length (content self.old).productions }
        requires countable { opened self.old (S.number p.0) < 2 ^ 64 - 1 }
        requires all_countable { opened_all self.old < 2 ^ 128 - 1 }
        ensures symbols { map (sym_of S.number) result.now
            ≡ (nth_production (content self.old) (S.number p.0)).symbols }
        ensures* counts { sem 𝓛 (Rests Self.row self.entry (λ new.
            OpensOne (S.number p.0) (content self.old) (content new) (opened self.old) (opened new)
            (opened_all self.old) (opened_all new))) };
}
