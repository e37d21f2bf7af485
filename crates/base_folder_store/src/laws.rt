//! What holds of the definitions. Each law is the contract of a function that does nothing.
ghost use Rattle.std.specs.Prelude.{◌≡◌, ◌<◌, ◌^◌, ◌++◌, ℕ, List, false, length};
ghost use Rattle.base_file.specs.{Alone.IsStoredAlone, Base.Base, Base.is_known};
ghost use Rattle.echo_filed.specs.Filed.{Filed, IsFiled, key_of};
ghost use Rattle.base_log.specs.Standing.{BaseBytes};
ghost use Rattle.base_store.specs.{Keys.digested, Store.with_message};
ghost use Rattle.base_folder_store.specs.{Added.with_stored, Held.HoldsBase, Held.digest_by};

/// With the bytes of a new message, and its entry, a folder holds the base with that message at its end.
pub fn one_message_more()
    ensures { (keyed : ℕ → ℕ → List ℕ → ℕ) (held : BaseBytes) (base : Base) (m : Filed) (bytes : List ℕ) → HoldsBase keyed held base
        → IsStoredAlone m bytes → IsFiled m → is_known base.messages (key_of m) ≡ false → length (held.messages ++ bytes) < 2 ^ 64
        → HoldsBase keyed (with_stored held bytes (digest_by keyed held.mark (digested m))) (with_message base m) }
{}
