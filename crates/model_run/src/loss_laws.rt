//! The faults of an area by which mail is lost in every run.

ghost use Rattle.std.specs.Prelude.{ℕ, IsTrue, List};
ghost use Rattle.echo_addr.specs.declared.address.Address.{Address};
ghost use Rattle.echo_links.specs.Links.{LinkFile};
ghost use Rattle.model_graph.specs.Walk.{Reaches};
ghost use Rattle.model_run.specs.{Fits.FilesFit, Grave.HaveOwnAddresses, Tidy.Carries, Tidy.lists};
ghost use Rattle.model_run.specs.Losses.{Loses, NeverComes};

/// V5: a lists b, and b does not list a. Then no posting of a is ever filed by b, in any run: SEEN-BY of the posting names b,
/// so no other system sends it to b, and b refuses it from a. If b carries the area, each run with a posting of a that
/// settles has a system that never gets it. No two files have one address.
pub fn one_sided_links_lose()
    ensures never { (files : List LinkFile) (tag : List ℕ) → FilesFit files → HaveOwnAddresses files → (a b : Address) →
        IsTrue (lists files tag a b) → ¬ IsTrue (lists files tag b a) → NeverComes files tag a b }
    ensures harm { (files : List LinkFile) (tag : List ℕ) → FilesFit files → HaveOwnAddresses files → (a b : Address) →
        IsTrue (lists files tag a b) → ¬ IsTrue (lists files tag b a) → Carries files tag b → Loses files tag a }
{}

/// V7: no chain of links leads from a to b. Then no posting of a is ever filed by b, in any run. If b carries the area, each
/// run with a posting of a that settles has a system that never gets it.
pub fn apart_loses()
    ensures never { (files : List LinkFile) (tag : List ℕ) → FilesFit files → (a b : Address) →
        ¬ Reaches (lists files tag) a b → NeverComes files tag a b }
    ensures harm { (files : List LinkFile) (tag : List ℕ) → FilesFit files → (a b : Address) →
        ¬ Reaches (lists files tag) a b → Carries files tag b → Loses files tag a }
{}
