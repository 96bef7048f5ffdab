//! Laws of the definitions of the grammar.
ghost use Rattle.wave_wasm.specs.Types.{TypeTree, HasDistinctNames};
ghost use Rattle.wave_grammar.specs.UnambiguityLaws.{OneReading};
ghost use Rattle.wave_grammar.specs.TreeLaws.{OneTree, HasItsLevels, ReadsByTree, TreeIsRead, ParamsAreByTree};
ghost use Rattle.wave_grammar.specs.DisplayLaws.{DisplayKeepsMeaning, DisplayCallKeepsMeaning};
ghost use Rattle.wave_grammar.specs.EquivalenceLaws.{SameTokensMeanTheSame, SameTreeMeansTheSame, LastCommasMayGo, LastCommasMeanNothing};
ghost use Rattle.wave_grammar.specs.OrderLaws.{FieldsInAnyOrder, FlagsInAnyOrder};
ghost use Rattle.wave_grammar.specs.FaultLaws.{OneFault, AnswersAreFaults, NoAnswerNoFault, OrdersAgree, LoneFaultIsAnswered};
ghost use Rattle.wave_grammar.specs.PrefixLaws.{TreesAreAccepted, AcceptedTokensHaveATree, PrefixesAreViable, ViableTokensBeginATree};
ghost use Rattle.wave_grammar.specs.PrefixLaws.{RefusedTokensBeginNone, UnexpectedTokensBeginNone};
ghost use Rattle.wave_grammar.specs.PrefixLaws.{EmptyTuplesAreEmpty, RepeatedFlagsAreRepeated, DeepValuesAreDeep};
ghost use Rattle.wave_grammar.specs.NodeLaws.{NodesReadAsTokens, KeysAreValues};

/// No tokens spell two values of a type whose names are distinct, nor does a spelling begin another.
pub fn one_reading()
    ensures { (T : TypeTree) → HasDistinctNames T → OneReading T }
{}

/// No tokens begin with two trees, nor with one tree that ends at two places.
pub fn one_tree()
    ensures { OneTree }
{}

/// A tree stands within its own levels and within any more, and within no fewer.
pub fn levels_are_exact()
    ensures { HasItsLevels }
{}

/// Tokens before no `(` spell a value of a type exactly where they are a tree to which the type gives it.
pub fn reading_is_by_tree()
    ensures through { (T : TypeTree) → ReadsByTree T }
    ensures back { (T : TypeTree) → TreeIsRead T }
{}

/// The tokens of a call are parameters exactly where the types in their places give the trees of
/// its items these values.
pub fn params_are_by_tree()
    ensures { ParamsAreByTree }
{}

/// The tokens of a tree lead, within its levels, from where a value is expected to its end.
pub fn trees_are_accepted()
    ensures { TreesAreAccepted }
{}

/// Tokens that lead from where a value is expected to its end are those of a tree, within the same levels.
pub fn accepted_tokens_have_a_tree()
    ensures { AcceptedTokensHaveATree }
{}

/// Every prefix of the tokens of a tree is led, within the tree's levels.
pub fn prefixes_are_viable()
    ensures { PrefixesAreViable }
{}

/// Tokens that are led go on as those of a tree, with one level more at most.
pub fn viable_tokens_begin_a_tree()
    ensures { ViableTokensBeginATree }
{}

/// Tokens that are led, with a token after them that is refused there, begin no tree.
pub fn refused_tokens_begin_none()
    ensures { RefusedTokensBeginNone }
{}

/// Tokens that are led, with an unexpected token after them, begin no tree, whatever else might be refused in it.
pub fn unexpected_tokens_begin_none()
    ensures { UnexpectedTokensBeginNone }
{}

/// A token refused for an empty tuple closes one, one refused as repeated names a flag again, and one
/// refused for its depth stands where a value is expected and no level is left.
pub fn refusal_kinds_sound()
    ensures empty { EmptyTuplesAreEmpty }
    ensures repeated { RepeatedFlagsAreRepeated }
    ensures deep { DeepValuesAreDeep }
{}

/// Texts of the same tokens mean the same at every type, and so do texts that spell one tree.
pub fn same_tokens_mean_the_same()
    ensures tokens { SameTokensMeanTheSame }
    ensures tree { SameTreeMeansTheSame }
{}

/// A comma before a close means nothing: without it tokens spell the same tree, and texts that spell
/// trees and differ only in such commas spell one tree and mean the same at every type.
pub fn last_commas_mean_nothing()
    ensures may_go { LastCommasMayGo }
    ensures meaning { LastCommasMeanNothing }
{}

/// Texts of the same fields mean the same at a record type, and texts of the same flags at a type of
/// flags, in any order and whether a name carries its `%` or not.
pub fn order_means_nothing()
    ensures fields { FieldsInAnyOrder }
    ensures flags { FlagsInAnyOrder }
{}

/// The display of a parsed tree spells a tree of as many levels and of the same display, and means at
/// every type what the text means that was parsed.
pub fn shown_keeps_meaning()
    ensures { DisplayKeepsMeaning }
{}

/// The display of a parsed call is a call of the same name and of the same display, and its tokens are
/// the same parameters at all types.
pub fn shown_call_keeps_meaning()
    ensures { DisplayCallKeepsMeaning }
{}

/// In each order at most one fault is answered: one refusal, at one span.
pub fn one_fault()
    ensures { OneFault }
{}

/// What is answered is one of the faults; and where none is answered there is none, if the names of
/// the type are distinct.
pub fn answered_faults_are_faults()
    ensures answered { AnswersAreFaults }
    ensures none { NoAnswerNoFault }
{}

/// Where one order finds no fault, no order does, if the names of the type are distinct.
pub fn orders_agree()
    ensures { OrdersAgree }
{}

/// Where a tree has one fault alone, no order answers another.
pub fn a_fault_alone_is_answered()
    ensures { LoneFaultIsAnswered }
{}

/// A type gives a node the values that the tokens spell which stand at the node.
pub fn nodes_read_as_their_tokens()
    ensures { NodesReadAsTokens }
{}

/// A key was parsed as a value would be exactly where it is no keyword, so what is said of values holds
/// of it too.
pub fn keys_are_values()
    ensures { KeysAreValues }
{}
