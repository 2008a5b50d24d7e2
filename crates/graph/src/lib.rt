// What a set of cells is, apart from its history: graphs, and what is true of them.
// Each function here stands for a theorem, which is its contract; it computes nothing.
#![tactic(auto)]

ghost use Rattle.graph.specs.Theorems.{AlikeIsAnEquivalence, AlikeKeepsCounts, CanonicalAlikeAreEqual, CanonicalStandsForAlike, CanonicalIsMetAndReached, CanonicalIsDecided};
ghost use Rattle.graph.specs.Examples.{Examples};

use cells::leaves::LeafKind;

// Alike graphs are an equivalence, as far as leaves are accepted by their kind.
pub fn alike_is_an_equivalence<V: LeafKind>()
    ensures { AlikeIsAnEquivalence V.tidied V.alike }
{}

// Alike graphs have as many reachable and as many shared nodes.
pub fn alike_keeps_counts<V: LeafKind>()
    ensures { AlikeKeepsCounts V.alike }
{}

// Canonical hands and cells that are alike are equal.
pub fn canonical_alike_are_equal<V: LeafKind>()
    ensures { CanonicalAlikeAreEqual V.lawful V.alike }
{}

// Canonical hands and cells are equal exactly when the graphs that they are alike to are alike.
pub fn canonical_stands_for_alike<V: LeafKind>()
    ensures { CanonicalStandsForAlike V.lawful V.tidied V.alike }
{}

// In canonical hands and cells the counter counts the addresses met, and every cell is reachable.
pub fn canonical_reaches_every_cell<V: LeafKind>()
    ensures { CanonicalIsMetAndReached V }
{}

// Whether hands and cells are canonical can be computed.
pub fn canonical_is_decided<V: LeafKind>()
    ensures { CanonicalIsDecided V }
{}

// Small hands and cells that are canonical, and some that are not.
pub fn canonical_examples<V: LeafKind>()
    ensures { Examples V }
{}
