//! Laws: functions that do nothing, whose contracts are theorems about the definitions. A caller has a theorem wherever
//! it calls its law.

mod sentences;

// Derivations
pub use derivation::{
    concatenations_derive_in_parts, derivations_hold_inside, paths_are_derivations,
    trees_are_derivations, usable_productions_hold_sentences,
};
pub use sentences::{derivations_are_transitive, nullable_rules_have_the_empty_sentence};

// FIRST and FOLLOW
pub use derivation::{
    closed_sets_hold_before_derivations, closed_sets_hold_first, closed_sets_hold_follow,
    first_is_closed, follow_is_closed, lists_begin_symbol_by_symbol,
};
pub use sentences::first_tokens_begin_sentences;

// Cycles
pub use cfgcycles::laws::{
    cycles_are_derivations, cyclic_rules_are_in_one_group, unit_steps_are_derivations,
};
pub use derivation::{derivations_show_cycles, unit_paths_are_derivations};

// Costs
pub use cfgcosts::laws::{certificates_show_least, sentences_cost_their_length};
pub use cfggreatest::laws::{
    bounded_rules_have_a_greatest_cost, sets_that_grow_are_unbounded,
    unbounded_rules_reach_growing_cycles,
};
pub use derivation::{
    a_greatest_cost_bounds, costliest_sentences_cost_the_greatest, growing_cycles_are_unbounded,
};
pub use sentences::{least_costs_are_shortest_lengths, nullable_rules_cost_nothing};

// Minimal sentences
pub use cfgcosts::laws::{
    first_sentences_make_the_first, minimal_sentences_follow_chains,
    no_minimal_sentence_begins_another,
};
pub use derivation::minimal_sentences_cost_the_least;

// What texts say
pub use cfgast::writing::{syntax_is_well_formed, written_is_tree};
pub use cfgitems::built_is_syntax;
pub use cfgkinds::laws::{kinds_come_back, refusals_have_offsets};
pub use cfgreader::file_is_graph;
pub use cfgrender::laws::{carets_begin_at_column, carets_count_characters, shows_no_controls};
pub use cfgsection::section::{
    entry_is_graph, section_errors_are_at_offsets, section_is_graph, section_returns_its_reading,
};
pub use cfgwords::laws::{
    actions_found, blank_is_graph, colon_text_is_graph, epp_string_is_graph, identifiers_found,
    integers_found, line_rest_is_graph, names_found, prefix_is_graph, quoted_tokens_found,
    section_names_found, texts_found, tokens_found,
};
pub use cfgyacc::laws::texts_are_read_as_the_kind_they_name;

// Lists
pub use sentences::lists_contain_their_elements;

// What `==`, order, `hash` and `clone` of types compare and copy
pub use cfgbase::laws::{
    locations_are_what_they_show, spans_are_their_ends, spans_kinds_are_distinct,
};
pub use cfgcosts::laws::sentence_errors_are_distinct;
pub use cfgcycles::laws::steps_are_copied;
pub use cfgerrors::laws::{
    error_kinds_are_what_they_show, header_error_kinds_are_what_they_show,
    header_errors_are_cloned, warning_kinds_are_distinct,
};
pub use cfgfaults::laws::kind_sources_are_distinct;
pub use cfgheader::laws::parsers_are_cloned;
pub use cfgindex::laws::{
    positions_are_their_numbers, productions_are_their_numbers, rules_are_their_numbers,
    symbols_are_their_indices, tokens_are_their_numbers,
};
pub use cfgitems::laws::{
    precedences_are_what_they_are, productions_are_what_they_show, rules_are_what_they_show,
    symbols_are_what_they_show, unique_are_what_they_show, unique_kinds_are_distinct,
};
pub use cfgkinds::laws::{
    action_kinds_are_distinct, values_are_compared_whole, yacc_kinds_are_distinct,
};
pub use cfgmarks::laws::{merge_behaviors_are_bits, merge_behaviors_are_distinct};
pub use derivation::errors::cost_errors_are_distinct;
