//! The progress of a scan: it fetches each waiting message once, so its store can report that.
use base_store::{Store, StoreError};
use cmd_status::MessageProgress;
use echo_filed::{Filed, Key};

/// A store that reports which of its messages is fetched.
#[derive(Drop)]
pub struct ReportedStore<'w, S, T> {
    pub store: S,
    pub watch: &'w T,
}

impl<S: Store, T: MessageProgress> Store for ReportedStore<'_, S, T> {
    ghost state = { λ reported. S.state reported.store };

    ghost failures = { λ reported. S.failures reported.store };

    fn len(&self) -> usize {
        self.store.len()
    }

    fn cursor(&self) -> usize {
        self.store.cursor()
    }

    fn knows(&mut self, key: &Key) -> Result<bool, StoreError> {
        self.store.knows(key)
    }

    fn has_id(&mut self, msgid: &[u8]) -> Result<bool, StoreError> {
        self.store.has_id(msgid)
    }

    fn fetch(&mut self, place: usize) -> Result<(), StoreError> {
        self.watch.tell(place, self.store.len());
        self.store.fetch(place)
    }

    fn at_hand(&self) -> Option<&Filed> {
        self.store.at_hand()
    }

    fn file(&mut self, key: Key, message: Filed) -> Result<(), StoreError> {
        self.store.file(key, message)
    }

    fn move_to_end(&mut self) -> Result<(), StoreError> {
        self.store.move_to_end()
    }

    fn commit(&mut self) -> Result<(), StoreError> {
        self.store.commit()
    }
}
