//! The work of the program on an open base folder, before a command.
ghost use Rattle.std.specs.Prelude.{◌≡◌, Some};

use base_folder_store::FolderStore;
use base_store::{SipDigest, Store};
use cmd_base::flush_name;
use cmd_input::lead_to_one;
use cmd_packets::{Tossing, expected_keys, note_outbound};
use cmd_status::Fault;
use disk_io::Disk;
use echo_filed::Key;
use station::BeforeCommand;

/// Before packets are tossed into a folder, it learns which messages they have. The name of a folder without messages
/// is synced.
#[derive(Drop)]
pub(crate) struct Opened<'a, 'b, 'r> {
    rt: &'r HostRuntime,
    base: &'a str,
    toss: Option<Tossing<'b>>,
    // The folder of packets, which must be another one.
    outbound: Option<&'a str>,
    met: Option<Fault<'a>>,
}

impl<'a, 'b, 'r> Opened<'a, 'b, 'r> {
    /// For the folder of this name, with the packets that are tossed into it, and the folder that packets are written
    /// into, if there are any.
    pub(crate) fn new(
        rt: &'r HostRuntime,
        base: &'a str,
        toss: Option<Tossing<'b>>,
        outbound: Option<&'a str>,
    ) -> Opened<'a, 'b, 'r> {
        Opened {
            rt,
            base,
            toss,
            outbound,
            met: None,
        }
    }

    // Whether the folder can be used: its name is synced if it has no messages, and packets do not go into it.
    fn settle(&self, messages: usize, owner: Option<u64>) -> Result<(), Fault<'a>> {
        if let Some(outbound) = self.outbound {
            if lead_to_one(self.rt, self.base, outbound) {
                return Err(Fault::CannotUse(outbound));
            }
            self.note(messages, owner, outbound)?;
        }
        flush_name(self.rt, self.base, messages)
    }

    // Notes the folder of packets, if there may be packets.
    fn note(
        &self,
        messages: usize,
        owner: Option<u64>,
        outbound: &'a str,
    ) -> Result<(), Fault<'a>> {
        match owner {
            Some(owner) if messages > 0 => note_outbound(self.rt, self.base, outbound, owner),
            _ => Ok(()),
        }
    }

    // The keys of the messages in the packets, if a folder with so many messages needs them.
    fn keys(&self, messages: usize) -> Vec<Key> {
        if let Some(by) = self.toss {
            if let Ok(keys) = expected_keys(self.rt, by.names, by.limits, messages) {
                return keys;
            }
        }
        Vec::new(self.rt.alloc())
    }
}

impl<'a, D: Disk> BeforeCommand<'a, FolderStore<D, SipDigest>> for Opened<'a, '_, '_> {
    ghost stops = { λ old new fault. new.met ≡ Some fault };

    ghost lets = { λ opened. Unit {0} };

    fn prepare(&mut self, store: &mut FolderStore<D, SipDigest>) -> Result<(), Fault<'a>> {
        {
            let keys = self.keys(store.len());
            store.expect(&keys);
        }
        match self.settle(store.len(), store.owner()) {
            Ok(()) => Ok(()),
            Err(fault) => {
                self.met = Some(fault);
                Err(fault)
            }
        }
    }
}
