//! Laws about the definitions. Each law is the contract of a function that does nothing.

ghost use Rattle.std.specs.Prelude.{◌≢◌, ◌↔◌, ℕ, ◌<◌, Bool, IsTrue, List, ◌++◌, length, map, reverse};
ghost use Rattle.model_graph.specs.Beyond.{AllParted, Beyond, Parted, IsWay, HasOneWay, FirstStep};
ghost use Rattle.model_graph.specs.{Walk.Simple, Walk.Walk, Walk.Reaches, Cycle.Cycle, Cycle.IsCycle, Cycle.NoCycle, Cycle.Polygons, Renaming.IsRenaming};

/// Every cycle is fully linked exactly where each member parts those of its links that are not linked.
/// Trees are a special case: there is no cycle exactly where each member parts all its links.
pub fn polygons_where_parted()
    ensures same { (linked : ℕ → ℕ → Bool) → Simple linked → (Polygons linked ↔ Parted linked) }
    ensures trees { (linked : ℕ → ℕ → Bool) → NoCycle linked → Polygons linked }
    ensures forest { (linked : ℕ → ℕ → Bool) → Simple linked → (NoCycle linked ↔ AllParted linked) }
{}

/// A walk from x to another member gives a link of x and a shorter walk from it. That walk passes
/// neither x nor another link of x. Where links are parted, x lies beyond that link.
pub fn first_step()
    ensures there { (linked : ℕ → ℕ → Bool) → Simple linked →
        (f x : ℕ) (rest : List ℕ) → x ≢ f → Walk linked x rest f →
        (step : ℕ) × (part : List ℕ) × FirstStep linked f x step part × (length part < length rest) }
    ensures beyond { (linked : ℕ → ℕ → Bool) → Simple linked → Parted linked →
        (f x step : ℕ) (part : List ℕ) → FirstStep linked f x step part → Beyond linked step f x }
{}

/// Where links are parted, each member y that reaches another member f has one link u on all its
/// walks to f. The other links of y that lie beyond y are those that are no links of u.
pub fn one_way()
    ensures there { (linked : ℕ → ℕ → Bool) → Simple linked → Parted linked →
        (f y : ℕ) → y ≢ f → Reaches linked y f → HasOneWay linked f y }
    ensures others { (linked : ℕ → ℕ → Bool) → Simple linked → Parted linked →
        (f y u c : ℕ) → Reaches linked y f → IsWay linked f y u → IsTrue (linked y c) → c ≢ u →
        (Beyond linked y f c ↔ (¬ IsTrue (linked u c))) }
    ensures itself { (linked : ℕ → ℕ → Bool) → Simple linked →
        (f y u : ℕ) → Reaches linked y f → IsWay linked f y u → ¬ Beyond linked y f u }
{}

/// All that lies beyond a member beyond x, lies beyond x. Let c be a link of y that lies beyond y. Members
/// beyond c, other than c, are neither y nor links of y.
pub fn further_out()
    ensures in_turn { (linked : ℕ → ℕ → Bool) (x y f c : ℕ) → Beyond linked y f c → Beyond linked x f y → Beyond linked x f c }
    ensures no_link { (linked : ℕ → ℕ → Bool) → Simple linked →
        (f y c d : ℕ) → Reaches linked y f → IsTrue (linked y c) → Beyond linked y f c → Beyond linked c f d → d ≢ c →
        (d ≢ y) × (¬ IsTrue (linked y d)) }
{}

/// A property of f spreads to all members that reach f. Each member takes it over from the next one on its way to f.
pub fn along_ways()
    ensures { (linked : ℕ → ℕ → Bool) → Simple linked → Parted linked →
        (f : ℕ) (test : ℕ → Bool) → IsTrue (test f) →
        ((y u : ℕ) → y ≢ f → Reaches linked y f → IsWay linked f y u → IsTrue (test u) → IsTrue (test y)) →
        (y : ℕ) → Reaches linked y f → IsTrue (test y) }
{}

/// A cycle may be written from any of its members on, and the other way round.
pub fn cycle_written_anew()
    ensures turned { (linked : ℕ → ℕ → Bool) (front back : List ℕ) → IsCycle linked (front ++ back) → IsCycle linked (back ++ front) }
    ensures reversed { (linked : ℕ → ℕ → Bool) → Simple linked →
        (first : ℕ) (rest : List ℕ) → Cycle linked first rest → Cycle linked first (reverse rest) }
{}

/// Which members form a cycle, and whether cycles are fully linked, does not hang on the members'
/// names.
pub fn other_names()
    ensures polygons { (linked joined : ℕ → ℕ → Bool) (name back : ℕ → ℕ) → IsRenaming linked joined name back → Simple joined →
        Polygons linked → Polygons joined }
    ensures cycles { (linked joined : ℕ → ℕ → Bool) (name back : ℕ → ℕ) → IsRenaming linked joined name back → Simple linked →
        (first : ℕ) (rest : List ℕ) → Cycle linked first rest → Cycle joined (name first) (map name rest) }
{}
