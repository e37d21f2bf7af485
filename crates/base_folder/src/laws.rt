//! What holds of the definitions. Each law is the contract of a function that does nothing.
ghost use Rattle.std.specs.Prelude.{ℕ, List, [], false};
ghost use Rattle.{echo_addr.specs.declared.address.Address.Address, disk_io.specs.Disk.Files};
ghost use Rattle.{base_folder_store.specs.Held.RepresentsBase, base_folder.specs.{Ours.IsOfOther, Unopened.HaveRoom, Wrong.{HasNoFiles, IsSound}}};

/// A folder without files is a base folder with no message and no owner.
pub fn an_empty_folder_is_an_empty_base()
    ensures base { (keyed : ℕ → ℕ → List ℕ → ℕ) (path : List ℕ) (files : Files) → HaveRoom keyed → HasNoFiles path files
        → RepresentsBase keyed path (record { messages = []; cursor = 0 }) files }
    ensures sound { (path : List ℕ) (files : Files) → HasNoFiles path files → IsSound false path files }
    ensures nobody { (own address : Address) (path : List ℕ) (files : Files) → HasNoFiles path files → IsOfOther own false path files address → ⊥ }
{}
